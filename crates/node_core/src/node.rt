ghost use Rattle.std.specs.Prelude.{◌≡◌, ◌<◌, ◌≤◌, ◌^◌, ◌+◌, ◌*◌, [], length, reverse, slice_get};
ghost use Rattle.std.specs.Prelude.{Some};
ghost use Rattle.std.specs.Prelude.{None, false, option_map, IfOk, OnOk, OnErr};
ghost use Rattle.std.specs.Option.{option_copied};
ghost use Rattle.std.specs.Arc.{arc_value};
ghost use Rattle.bilateral.specs.Rows.{device_of, variants_of};
ghost use Rattle.sbo_device.specs.States.{hold_of};
ghost use Rattle.tase_views.specs.declared.event.EventKind.TheVariants.{Open, Take, Close};
ghost use Rattle.tase_views.specs.declared.event.EventKind.TheVariants.{Update, Table, Tick, Ask};
ghost use Rattle.tase_views.specs.declared.event.EventKind.TheVariants.{TakeOrders, Stop};
ghost use Rattle.tase_views.specs.Setup.{Setup};
ghost use Rattle.tase_views.specs.History.{association_in};
ghost use Rattle.tase_views.specs.OwnTables.{own_tables};
ghost use Rattle.tase_views.specs.View.{moves_in, steps_in, view_of};
ghost use Rattle.tase_views.specs.Orders.{orders_left};
ghost use Rattle.node_core.specs.Devices.DeviceBanks.{row_control, moves_of_each};
ghost use Rattle.tase_views.specs.View as views;
ghost use Rattle.tase_views.specs.Weights.{weight_of};
ghost use Rattle.tase_views.specs.Answers as answers;
ghost use Rattle.tase_views.specs.Outcomes.{is_ending, refusal_of, IsAnswer, IsRightOutcome};
ghost use Rattle.texts.specs.Journal.Journals.{entry_text};
ghost use Rattle.node_core.specs.NodeState.{with_entry};
ghost use Rattle.node_core.specs.declared.replies.sorts.CallSort.TheVariants as sorts;
ghost use Rattle.node_core.specs.Replies.Shown.{IsCalm};
ghost use Rattle.node_core.specs.Replies.CallSorts.{IsRequestOf};
ghost use Rattle.node_core.specs.Stored.{IsTaggingOf, IsCalmRequest, IsReplied};
ghost use Rattle.node_core.specs.Feeds.Concerned.{HasFewLooks, due_in_all, watching_total};

mod hub;
mod log;
mod parts;
mod peer;
mod refusals;
mod told;

use crate::feeds::{Advance, Change, ReportCause};
use crate::objects::InForce;
use crate::replies::{CallSort, ReadReply, select_all, sort_of, write_devices, written};
use bilateral::Centre;
use hub::Hub;
use log::Log;
use parts::{Parts, peer_view, read_writing};
use refusals::{clock_refusal, first_refusal, name_refusal, seat_refusal};
use sbo_device::{Hold, Key, Order};
use std::alloc::{AllocError, Global};
use std::marker::Model;
use std::sync::Arc;
use tase_points::PointValue;
use tase_views::{
    Answer, Call, CallKind, Entry, Event, EventKind, Orders, Reply, ReplyKind, StepFault,
};
use transfer_sets::Looks;

/// A TASE.2 node without input and output: its centre's tables and the history of its accepted
/// events.
#[derive(Drop)]
pub struct Node {
    centre: Arc<Centre>,
    log: Log,
    hub: Hub,
    parts: Parts,
}

impl Model for Node {
    ghost use Rattle.std.specs.Coded.{codes};
    ghost use Rattle.std.specs.Arc.{arc_value};
    ghost use Rattle.mms_data.specs.contracts.data.MmsData as datum;
    ghost use Rattle.std.specs.HashMap.{hash_map_len};
    ghost use Rattle.node_core.specs.NodeState.{NodeState};
    ghost use Rattle.node_core.specs.Stored.{IsNode};
    ghost use Rattle.node_core.specs.Room.{HasRoom, past_of};
    ghost use Rattle.tase_views.specs.Lived.{IsLived};

    ghost Value = { NodeState };

    ghost coded = { Prim.hlevel (codes, datum.the_row.coded) };

    ghost view = { λ n. record {
      setup = record { centre = arc_value n.centre; limit = n.log.limit };
      history = n.log.entries;
    } };

    ghost invariant = { λ n. IsNode (arc_value n.centre) (past_of n.log) n.hub n.parts
        × HasRoom n.log (hash_map_len n.hub.seats)
        × IsLived (arc_value n.centre) (past_of n.log) };
}

impl Node {
    /// A node of this centre with an empty history, which may weigh at most so many octets.
    pub fn new(alloc: Global, centre: Arc<Centre>, limit: u64) -> Result<Node, AllocError>
        requires { limit ≤ 2 ^ 31 }
        ensures { let setup : Setup = record { centre = arc_value centre; limit = limit } in
            IfOk result (λ node. node ≡ record { setup = setup; history = [] }) }
    {
        let hub = Hub::new(alloc, &centre)?;
        let parts = Parts::new(alloc, &centre)?;
        let log = Log::new(alloc, limit)?;
        Ok(Node {
            centre,
            log,
            hub,
            parts,
        })
    }

    /// Takes one event of a seat, and counts each look at a transfer set. An answer adds exactly
    /// this entry to the history; a fault changes nothing. Whatever it answers, a tick looks at
    /// those transfer sets alone of which something is due, and an update at those that are enabled
    /// and whose data set names its point, each time a few times.
    pub fn step(
        &mut self,
        alloc: Global,
        who: u64,
        event: Event,
        looks: &mut Looks,
    ) -> Result<Answer, StepFault>
        ensures right { IsRightOutcome self.old.setup (reverse self.old.history) who event result }
        ensures ok { OnOk result (self.new ≡ with_entry self.old who event) }
        ensures err { OnErr result (self.new ≡ self.old) }
        ensures looks { HasFewLooks self.old.setup.centre (reverse self.old.history) event
            looks.old looks.new }
    {
        if let Some(fault) = self.refusal(who, &event) {
            return Err(fault);
        }
        Ok(self.accept(alloc, who, event, looks)?)
    }

    /// Ends the association of a seat, as [`Node::step`] does at a close. It takes no memory.
    pub fn close(&mut self, who: u64, looks: &mut Looks) -> Result<Answer, StepFault>
        ensures right { IsRightOutcome self.old.setup (reverse self.old.history) who Close result }
        ensures ok { OnOk result (self.new ≡ with_entry self.old who Close) }
        ensures err { OnErr result (self.new ≡ self.old) }
    {
        let event = Event::new(EventKind::Close);
        if let Some(fault) = self.refusal(who, &event) {
            return Err(fault);
        }
        self.end_association(who, event, looks);
        Ok(Answer::Closed)
    }

    /// How many entries the history has.
    pub fn history_len(&self) -> u64
        ensures { result ≡ length self.now.history }
    {
        self.log.len()
    }

    /// The entry at this place of the history, which counts from 0.
    pub fn entry(&self, place: u64) -> Result<Option<Entry>, AllocError>
        ensures { IfOk result (λ entry. entry ≡ slice_get self.now.history place) }
    {
        self.log.entry(place)
    }

    /// The text of the entry at this place of the history, which counts from 0.
    pub fn journal_line(&self, place: u64) -> Option<&[u8]>
        ensures { option_copied result
            ≡ option_map entry_text (slice_get self.now.history place) }
    {
        self.log.line(place)
    }

    pub fn centre(&self) -> &Centre
        ensures { result.now ≡ self.now.setup.centre }
    {
        &self.centre
    }

    /// The centre, as it is shared with the connections to its peers.
    pub fn shared_centre(&self) -> &Arc<Centre>
        ensures { arc_value result.now ≡ self.now.setup.centre }
    {
        &self.centre
    }

    /// What the history weighs, in octets.
    pub fn weight(&self) -> u64
        ensures { result ≡ weight_of (reverse self.now.history) }
    {
        self.log.weight()
    }

    /// Why an event is refused, if it is.
    fn refusal(&self, who: u64, event: &Event) -> Option<StepFault>
        ensures { result ≡ refusal_of self.now.setup (reverse self.now.history) who event.now }
    {
        first_refusal(
            self.log.stop_refusal(event),
            seat_refusal(self.hub.association(who), event),
            name_refusal(&self.centre, event),
            clock_refusal(self.hub.last_tick(), event),
            self.log.weight_refusal(event),
        )
    }

    /// The selection of a device, by its number, that stands: the association that holds it, and
    /// until when.
    pub fn holder(&self, device: u32) -> Option<Hold>
        requires { device < length self.now.setup.centre.devices }
        ensures { let rows = self.now.setup.centre in
            let steps = steps_in rows (own_tables rows) (moves_in (reverse self.now.history)) in
            result ≡ hold_of (row_control (device_of rows device))
            (moves_of_each rows steps device) }
    {
        self.hub.plant.devices.holder(device)
    }

    /// The orders that the plant hasn't taken, the oldest first.
    pub fn orders_left(&self) -> &[Order]
        ensures { let rows = self.now.setup.centre in result.now
            ≡ orders_left rows (own_tables rows) (moves_in (reverse self.now.history)) }
    {
        self.hub.plant.devices.orders()
    }

    /// The number of a peer's table in force.
    pub fn force(&self, peer: u32) -> u32
        requires { peer < length self.now.setup.centre.tables }
        ensures force { result
            ≡ views.force (view_of self.now.setup.centre peer (reverse self.now.history)) }
        ensures there { result < length (variants_of self.now.setup.centre peer) }
    {
        self.parts.force(peer)
    }

    /// The reply to a call of an association that neither reads nor writes variables.
    fn reply_to(
        &self,
        alloc: Global,
        key: Key,
        call: &Call,
        looks: &mut Looks,
    ) -> Result<Reply, AllocError>
        requires known { key.peer < length self.now.setup.centre.tables }
        requires calm { IsCalm call.now }
        ensures { let rows = self.now.setup.centre in IfOk result (λ reply. reply
            ≡ answers.reply_to (own_tables rows key.peer)
            (view_of rows key.peer (reverse self.now.history)) key.ordinal call.now) }
    {
        let shown = peer_view(&self.centre, &self.parts, &self.hub.plant, key.peer);
        let reply = shown.reply_to(alloc, key.ordinal, call, looks)?;
        Ok(reply)
    }

    /// Takes an event that isn't refused.
    fn accept(
        &mut self,
        alloc: Global,
        who: u64,
        event: Event,
        looks: &mut Looks,
    ) -> Result<Answer, AllocError>
        requires { refusal_of self.old.setup (reverse self.old.history) who event ≡ None }
        ensures answer { IfOk result
            (IsAnswer self.old.setup (reverse self.old.history) who event) }
        ensures ok { OnOk result (self.new ≡ with_entry self.old who event) }
        ensures err { OnErr result (self.new ≡ self.old) }
        ensures ending { OnErr result (is_ending event ≡ false) }
        ensures looks { HasFewLooks self.old.setup.centre (reverse self.old.history) event
            looks.old looks.new }
    {
        match event.kind() {
            EventKind::Open { peer } => {
                let peer = *peer;
                self.open(alloc, who, peer, event)
            }
            EventKind::Request { call } => {
                let call = sort_of(call);
                self.request(alloc, who, call, event, looks)
            }
            EventKind::Take => self.take(alloc, who, event),
            EventKind::Close => {
                self.end_association(who, event, looks);
                Ok(Answer::Closed)
            }
            EventKind::Update { point, value } => {
                let point = *point;
                let value = *value;
                self.update(who, point, value, event, looks)
            }
            EventKind::Table { peer, variant } => {
                let peer = *peer;
                let variant = *variant;
                self.choose(who, peer, variant, event, looks)
            }
            EventKind::Tag { device, .. } => {
                let device = *device;
                self.tag_device(who, device, event)
            }
            EventKind::Tick { now } => {
                let now = *now;
                self.tick(alloc, who, now, event, looks)
            }
            EventKind::Ask { peer, slot } => {
                let peer = *peer;
                let slot = *slot;
                self.ask(alloc, who, peer, slot, event, looks)
            }
            EventKind::TakeOrders => self.take_orders(alloc, who, event),
            EventKind::Stop => {
                self.stop(who, event);
                Ok(Answer::Noted)
            }
        }
    }

    fn open(
        &mut self,
        alloc: Global,
        who: u64,
        peer: u32,
        event: Event,
    ) -> Result<Answer, AllocError>
        requires open { event ≡ Open peer }
        requires free { refusal_of self.old.setup (reverse self.old.history) who event ≡ None }
        ensures answer { IfOk result
            (IsAnswer self.old.setup (reverse self.old.history) who event) }
        ensures ok { OnOk result (self.new ≡ with_entry self.old who event) }
        ensures err { OnErr result (self.new ≡ self.old) }
    {
        self.log.reserve(who, &event, self.hub.open_count() + 1)?;
        let key = self.parts.next_key(peer);
        self.hub.seat(who, key)?;
        match self.parts.open(alloc, peer) {
            Ok(()) => {
                self.log.append(who, event);
                Ok(Answer::Opened { key })
            }
            Err(error) => {
                self.hub.unseat(who);
                Err(error)
            }
        }
    }

    fn update(
        &mut self,
        who: u64,
        point: u32,
        value: PointValue,
        event: Event,
        looks: &mut Looks,
    ) -> Result<Answer, AllocError>
        requires update { event ≡ Update point value }
        requires free { refusal_of self.old.setup (reverse self.old.history) who event ≡ None }
        ensures answer { IfOk result
            (IsAnswer self.old.setup (reverse self.old.history) who event) }
        ensures ok { OnOk result (self.new ≡ with_entry self.old who event) }
        ensures err { OnErr result (self.new ≡ self.old) }
        ensures looks { looks.new ≤ looks.old + 8 * watching_total self.old.setup.centre
            (reverse self.old.history) point }
    {
        self.log.reserve(who, &event, self.hub.open_count())?;
        let now = self.hub.last_tick();
        self.parts.prepare_all(&self.centre, point, now, looks)?;
        let changed = self.hub.plant.points.update(point, value);
        let cov = self.hub.plant.points.cov(point);
        let change = Change { now, value, cov };
        self.parts.note_all(&self.centre, changed, change, looks);
        self.log.append(who, event);
        Ok(Answer::Noted)
    }

    fn choose(
        &mut self,
        who: u64,
        peer: u32,
        variant: u32,
        event: Event,
        looks: &mut Looks,
    ) -> Result<Answer, AllocError>
        requires table { event ≡ Table peer variant }
        requires free { refusal_of self.old.setup (reverse self.old.history) who event ≡ None }
        ensures answer { IfOk result
            (IsAnswer self.old.setup (reverse self.old.history) who event) }
        ensures ok { OnOk result (self.new ≡ with_entry self.old who event) }
        ensures err { OnErr result (self.new ≡ self.old) }
    {
        self.log.reserve(who, &event, self.hub.open_count())?;
        self.parts.choose(&self.centre, peer, variant);
        self.parts
            .rebuild(&self.centre, peer, self.hub.last_tick(), looks);
        self.log.append(who, event);
        Ok(Answer::Noted)
    }

    /// Tags a device.
    fn tag_device(&mut self, who: u64, device: u32, event: Event) -> Result<Answer, AllocError>
        requires tag { IsTaggingOf device event }
        requires free { refusal_of self.old.setup (reverse self.old.history) who event ≡ None }
        ensures answer { IfOk result
            (IsAnswer self.old.setup (reverse self.old.history) who event) }
        ensures ok { OnOk result (self.new ≡ with_entry self.old who event) }
        ensures err { OnErr result (self.new ≡ self.old) }
    {
        let EventKind::Tag { tag, .. } = event.kind() else {
            unreachable!();
        };
        let reason = tag.reason().clone()?;
        self.log.reserve(who, &event, self.hub.open_count())?;
        self.hub.plant.devices.tag(device, tag.tag(), reason);
        self.log.append(who, event);
        Ok(Answer::Noted)
    }

    /// Hands the orders out that are left.
    fn take_orders(&mut self, alloc: Global, who: u64, event: Event) -> Result<Answer, AllocError>
        requires orders { event ≡ TakeOrders }
        requires free { refusal_of self.old.setup (reverse self.old.history) who event ≡ None }
        ensures answer { IfOk result
            (IsAnswer self.old.setup (reverse self.old.history) who event) }
        ensures ok { OnOk result (self.new ≡ with_entry self.old who event) }
        ensures err { OnErr result (self.new ≡ self.old) }
    {
        self.log.reserve(who, &event, self.hub.open_count())?;
        let orders = self.hub.plant.devices.take_orders(alloc);
        self.log.append(who, event);
        Ok(Answer::Orders(Orders::from_vec(orders)))
    }

    /// Takes a tick of the clock: what is due is reported, and the selections end whose moment it
    /// reaches.
    fn tick(
        &mut self,
        alloc: Global,
        who: u64,
        now: u64,
        event: Event,
        looks: &mut Looks,
    ) -> Result<Answer, AllocError>
        requires tick { event ≡ Tick now }
        requires free { refusal_of self.old.setup (reverse self.old.history) who event ≡ None }
        ensures answer { IfOk result
            (IsAnswer self.old.setup (reverse self.old.history) who event) }
        ensures ok { OnOk result (self.new ≡ with_entry self.old who event) }
        ensures err { OnErr result (self.new ≡ self.old) }
        ensures looks { looks.new ≤ looks.old + 8 * due_in_all self.old.setup.centre
            (reverse self.old.history) now }
    {
        let advance = Advance {
            from: self.hub.last_tick(),
            to: now,
        };
        self.log.reserve(who, &event, self.hub.open_count())?;
        self.parts
            .draft_all(alloc, &self.centre, &self.hub.plant, advance, looks)?;
        self.parts.report_all(&self.centre, advance, looks);
        self.hub.plant.devices.expire(now);
        self.hub.tick(now);
        self.log.append(who, event);
        Ok(Answer::Noted)
    }

    /// Takes a request of the operator for a report of a transfer set.
    fn ask(
        &mut self,
        alloc: Global,
        who: u64,
        peer: u32,
        slot: u32,
        event: Event,
        looks: &mut Looks,
    ) -> Result<Answer, AllocError>
        requires ask { event ≡ Ask peer slot }
        requires free { refusal_of self.old.setup (reverse self.old.history) who event ≡ None }
        ensures answer { IfOk result
            (IsAnswer self.old.setup (reverse self.old.history) who event) }
        ensures ok { OnOk result (self.new ≡ with_entry self.old who event) }
        ensures err { OnErr result (self.new ≡ self.old) }
    {
        let now = self.hub.last_tick();
        let cause = ReportCause::Ask { slot, now };
        self.log.reserve(who, &event, self.hub.open_count())?;
        self.parts
            .draft(alloc, &self.centre, &self.hub.plant, peer, cause, looks)?;
        self.parts.report(peer, cause, looks);
        self.parts.rebuild(&self.centre, peer, now, looks);
        self.log.append(who, event);
        Ok(Answer::Noted)
    }

    /// Takes a request.
    fn request(
        &mut self,
        alloc: Global,
        who: u64,
        sort: CallSort,
        event: Event,
        looks: &mut Looks,
    ) -> Result<Answer, AllocError>
        requires request { IsRequestOf sort event }
        requires free { refusal_of self.old.setup (reverse self.old.history) who event ≡ None }
        ensures answer { IfOk result
            (IsAnswer self.old.setup (reverse self.old.history) who event) }
        ensures ok { OnOk result (self.new ≡ with_entry self.old who event) }
        ensures err { OnErr result (self.new ≡ self.old) }
    {
        match sort {
            CallSort::Read => self.read(alloc, who, event, looks),
            CallSort::Write => self.write(alloc, who, event, looks),
            CallSort::Other => self.reply(alloc, who, event, looks),
        }
    }

    /// Takes a read of variables, hands out the transfer sets that it reads as the next, and
    /// selects the devices whose selections it reads.
    fn read(
        &mut self,
        alloc: Global,
        who: u64,
        event: Event,
        looks: &mut Looks,
    ) -> Result<Answer, AllocError>
        requires request { IsRequestOf sorts.Read event }
        requires free { refusal_of self.old.setup (reverse self.old.history) who event ≡ None }
        ensures answer { IfOk result
            (IsAnswer self.old.setup (reverse self.old.history) who event) }
        ensures ok { OnOk result (self.new ≡ with_entry self.old who event) }
        ensures err { OnErr result (self.new ≡ self.old) }
    {
        let key = self.hub.association(who).unwrap();
        let EventKind::Request { call } = event.kind() else {
            unreachable!();
        };
        let CallKind::Read { names, echo } = call.kind() else {
            unreachable!();
        };
        let shown = peer_view(&self.centre, &self.parts, &self.hub.plant, key.peer);
        let ReadReply { reply, handed } = shown.read_reply(
            alloc,
            key.ordinal,
            names,
            *echo,
            looks,
        )?;
        self.log.reserve(who, &event, self.hub.open_count())?;
        let table = InForce::new(&self.centre, key.peer, self.parts.force(key.peer));
        let now = self.hub.last_tick();
        select_all(&mut self.hub.plant.devices, &table, key, now, names);
        self.parts
            .hand_out(&self.centre, key, now, handed.as_slice(), looks);
        self.log.append(who, event);
        Ok(Answer::Reply(reply))
    }

    /// Takes a write of variables, and does what it asks of devices and of transfer sets.
    fn write(
        &mut self,
        alloc: Global,
        who: u64,
        event: Event,
        looks: &mut Looks,
    ) -> Result<Answer, AllocError>
        requires request { IsRequestOf sorts.Write event }
        requires free { refusal_of self.old.setup (reverse self.old.history) who event ≡ None }
        ensures answer { IfOk result
            (IsAnswer self.old.setup (reverse self.old.history) who event) }
        ensures ok { OnOk result (self.new ≡ with_entry self.old who event) }
        ensures err { OnErr result (self.new ≡ self.old) }
    {
        let key = self.hub.association(who).unwrap();
        let mut writing = read_writing(alloc, &self.centre, &self.parts, key.peer, &event)?;
        self.log.reserve(who, &event, self.hub.open_count())?;
        self.hub.plant.devices.room(writing.asked.len())?;
        write_devices(
            &mut self.hub.plant.devices,
            key,
            writing.asked,
            &mut writing.left,
        );
        let now = self.hub.last_tick();
        self.parts.write(
            &self.centre,
            key,
            now,
            writing.left,
            &mut writing.results,
            looks,
        );
        self.parts.rebuild(&self.centre, key.peer, now, looks);
        self.log.append(who, event);
        Ok(Answer::Reply(written(writing.results)))
    }

    /// Takes a request that neither reads nor writes variables.
    fn reply(
        &mut self,
        alloc: Global,
        who: u64,
        event: Event,
        looks: &mut Looks,
    ) -> Result<Answer, AllocError>
        requires request { IsRequestOf sorts.Other event }
        requires free { refusal_of self.old.setup (reverse self.old.history) who event ≡ None }
        ensures answer { IfOk result
            (IsAnswer self.old.setup (reverse self.old.history) who event) }
        ensures ok { OnOk result (self.new ≡ with_entry self.old who event) }
        ensures err { OnErr result (self.new ≡ self.old) }
    {
        let key = self.hub.association(who).unwrap();
        let EventKind::Request { call } = event.kind() else {
            unreachable!();
        };
        let reply = self.reply_to(alloc, key, call, looks)?;
        self.note(who, key, event, reply.kind(), looks)?;
        Ok(Answer::Reply(reply))
    }

    /// Adds a request that neither reads nor writes variables to the history, and notes what it
    /// changes, which has this reply.
    fn note(
        &mut self,
        who: u64,
        key: Key,
        event: Event,
        reply: &ReplyKind,
        looks: &mut Looks,
    ) -> Result<(), AllocError>
        requires request { IsCalmRequest event }
        requires seated { association_in (reverse self.old.history) who ≡ Some key }
        requires replied { IsReplied self.old.setup.centre (reverse self.old.history) key event
            reply.now }
        requires free { refusal_of self.old.setup (reverse self.old.history) who event ≡ None }
        ensures ok { OnOk result (self.new ≡ with_entry self.old who event) }
        ensures err { OnErr result (self.new ≡ self.old) }
    {
        self.log.reserve(who, &event, self.hub.open_count())?;
        let now = self.hub.last_tick();
        self.parts
            .request(&self.centre, key, now, &event, reply, looks)?;
        self.log.append(who, event);
        Ok(())
    }

    /// Takes a take of the reports that were made for the association.
    fn take(&mut self, alloc: Global, who: u64, event: Event) -> Result<Answer, AllocError>
        requires take { event ≡ Take }
        requires free { refusal_of self.old.setup (reverse self.old.history) who event ≡ None }
        ensures answer { IfOk result
            (IsAnswer self.old.setup (reverse self.old.history) who event) }
        ensures ok { OnOk result (self.new ≡ with_entry self.old who event) }
        ensures err { OnErr result (self.new ≡ self.old) }
    {
        let key = self.hub.association(who).unwrap();
        self.log.reserve(who, &event, self.hub.open_count())?;
        let reports = self.parts.take(alloc, key);
        self.log.append(who, event);
        Ok(Answer::Reports(reports))
    }

    /// Ends the association of a seat. It takes no memory.
    fn end_association(&mut self, who: u64, event: Event, looks: &mut Looks)
        requires close { event ≡ Close }
        requires free { refusal_of self.old.setup (reverse self.old.history) who event ≡ None }
        ensures { self.new ≡ with_entry self.old who event }
    {
        let key = self.hub.association(who).unwrap();
        self.hub.unseat(who);
        self.hub.plant.devices.close(key);
        self.parts.close(&self.centre, key, looks);
        self.parts
            .rebuild(&self.centre, key.peer, self.hub.last_tick(), looks);
        self.log.append(who, event);
    }

    fn stop(&mut self, who: u64, event: Event)
        requires stop { event ≡ Stop }
        requires free { refusal_of self.old.setup (reverse self.old.history) who event ≡ None }
        ensures { self.new ≡ with_entry self.old who event }
    {
        self.log.append(who, event);
    }
}
