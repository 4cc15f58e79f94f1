//! What a node keeps of its peers.
ghost use Rattle.std.specs.Prelude.{◌≡◌, ◌≢◌, ◌<◌, ◌≤◌, ◌+◌, ◌*◌, ◌++◌, ℕ, [], ◌∷◌, map, length};
ghost use Rattle.std.specs.Prelude.{Some, List};
ghost use Rattle.std.specs.Prelude.{slice_get, vec_len, vec_capacity, IfOk, OnOk, OnErr};
ghost use Rattle.std.specs.Prelude.{true, false};
ghost use Rattle.std.specs.List.{All};
ghost use Rattle.bilateral.specs.declared.rows.TheConstants.{SLOT_LIMIT};
ghost use Rattle.bilateral.specs.Rows.{CentreRows, IsCentre, variants_of};
ghost use Rattle.tase_views.specs.declared.call.CallKind.{CallKind as AnyCall};
ghost use Rattle.tase_views.specs.Moves.{acts_of_call, opens, takes, closes, defines};
ghost use Rattle.tase_views.specs.OwnTables.{OwnTables, own_tables, table_in};
ghost use Rattle.tase_views.specs.View.{own, chose};
ghost use Rattle.node_core.specs.declared.feeds.index.PeerIndex.{PeerIndex as AnyIndex};
ghost use Rattle.node_core.specs.declared.node.peer.Peer.{Peer as AnyPeer};
ghost use Rattle.node_core.specs.Slots.Associations.{made_for};
ghost use Rattle.node_core.specs.PeerParts.{new_part, part_after, EachAct, IsLawfulAct};
ghost use Rattle.node_core.specs.PeerParts.{IsReplyTo, IsReplyBy, acts_asked};
ghost use Rattle.node_core.specs.Replies.Shown.{IsCalm, IsShowable, shown_of};
ghost use Rattle.node_core.specs.Slots.SlotsKept.{handed_all, AreSlots};
ghost use Rattle.node_core.specs.Slots.SlotWrites.{IsAskedThere, all_asked, all_answers, all_slots};
ghost use Rattle.mms_data.specs.Datum.{Datum};
ghost use Rattle.mms_data.specs.ObjectName.{ObjectName};
ghost use Rattle.tase_views.specs.declared.event.EventKind.TheVariants.{Request};
ghost use Rattle.node_core.specs.declared.replies.sorts.CallSort.TheVariants as sorts;
ghost use Rattle.node_core.specs.Replies.CallSorts.{IsRequestOf};
ghost use Rattle.node_core.specs.Objects.Found.{offered, table_at};
ghost use Rattle.node_core.specs.Stored.{IsPeerThere, MayOpen, IsChanged, IsAsked, IsCalmRequest};
ghost use Rattle.node_core.specs.Stored.{IsPeerShown, IsPeerBanked, HasPeerRoom};
ghost use Rattle.node_core.specs.PartFeeds.{IsAlike, IsDrafted, IsReported, IsReady, IsNoted};
ghost use Rattle.node_core.specs.PartFeeds.{OneBecomes, EachBecomes};
ghost use Rattle.node_core.specs.declared.feeds.cause.ReportCause.{ReportCause as AnyCause};
ghost use Rattle.node_core.specs.Feeds.SlotFeeds.{IsForward, due_count, planned_count};
ghost use Rattle.node_core.specs.Feeds.Indexed.{AreIndexed, OthersStay, HasIndex, IsIndexed};
ghost use Rattle.node_core.specs.Feeds.Indexed.{IsWatched};
ghost use Rattle.node_core.specs.Feeds.Indexed.{KeepsSlots};
ghost use Rattle.node_core.specs.Feeds.Indexed.{due_total, watch_total, plan_total, watch_of_part};

use super::peer::Peer;
use crate::feeds::{Advance, Change, PeerIndex, ReportCause};
use crate::objects::InForce;
use crate::plant::Plant;
use crate::replies::{PeerView, read_writes};
use crate::slots::{Asked, is_defined};
use bilateral::Centre;
use mms_data::{Name, Names};
use sbo_device::Key;
use std::alloc::{AllocError, Global};
use tase_views::{Call, CallKind, Event, EventKind, ReplyKind, Reports};
use transfer_sets::Looks;

/// The part of each peer, by its number, and beside it its index.
#[derive(Drop)]
pub struct Parts {
    peers: Vec<Peer>,
    indexes: Vec<PeerIndex>,
}

impl Parts {
    /// What an empty history gives.
    pub fn new(alloc: Global, centre: &Centre) -> Result<Parts, AllocError>
        ensures parts { IfOk result (λ parts. parts.peers.items
            ≡ map (λ table. new_part table.sets) centre.now.tables) }
        ensures lawful { OnOk result (IsCentre centre.now) }
        ensures indexed { IfOk result (λ parts. AreIndexed centre.now 0 parts.peers.items
            parts.indexes.items) }
    {
        let mut peers = Vec::new(alloc);
        let mut indexes = Vec::new(alloc);
        for peer in 0..centre.peers() {
            let part = Peer::new(alloc, centre.table(peer).sets)?;
            let index = PeerIndex::new(alloc, centre, peer)?;
            peers.push(part)?;
            indexes.push(index)?;
        }
        Ok(Parts { peers, indexes })
    }

    /// Makes the index of a peer anew, at this moment, in milliseconds since 1970, where what is
    /// kept of it has changed since all indexes were those of `before`. It takes no memory.
    pub fn rebuild(&mut self, centre: &Centre, peer: u32, now: u64, looks: &mut Looks)
        requires there { IsPeerThere centre.now self.old.peers.items peer }
        requires lawful { IsCentre centre.now }
        requires index { HasIndex centre.now peer self.old.indexes.items }
        ensures peers { self.new.peers.items ≡ self.old.peers.items }
        ensures indexed { (before : List AnyPeer) → OthersStay peer before self.old.peers.items
            → AreIndexed centre.now now before self.old.indexes.items
            → AreIndexed centre.now now self.new.peers.items self.new.indexes.items }
    {
        let place = peer as usize;
        let part = &self.peers[place];
        let table = InForce::new(centre, peer, part.variant);
        self.indexes[place].rebuild(&table, &part.book, &part.slots, now, looks);
    }

    /// The association that a peer opens next.
    pub fn next_key(&self, peer: u32) -> Key
        requires { peer < vec_len self.now.peers }
        ensures { (part : Peer) → slice_get self.now.peers.items peer ≡ Some part
            → result ≡ record { peer = peer; ordinal = part.opened_in_all } }
    {
        Key {
            peer,
            ordinal: self.peers[peer as usize].opened_in_all,
        }
    }

    /// The number of a peer's table in force.
    pub fn force(&self, peer: u32) -> u32
        requires { peer < vec_len self.now.peers }
        ensures { (part : Peer) → slice_get self.now.peers.items peer ≡ Some part
            → result ≡ part.variant }
    {
        self.peers[peer as usize].variant
    }

    /// The part of a peer.
    pub fn part(&self, peer: u32) -> &Peer
        requires { peer < vec_len self.now.peers }
        ensures { slice_get self.now.peers.items peer ≡ Some result.now }
    {
        &self.peers[peer as usize]
    }

    /// A peer opens an association. After want of memory nothing has changed.
    pub fn open(&mut self, alloc: Global, peer: u32) -> Result<(), AllocError>
        requires known { peer < vec_len self.old.peers }
        requires room { MayOpen self.old.peers.items peer }
        ensures ok { OnOk result ((tables : OwnTables) (now : ℕ) → IsChanged
            self.old.peers.items peer
            (λ part. part_after tables now (own part.opened_in_all opens) part)
            self.new.peers.items) }
        ensures err { OnErr result (self.new.peers.items ≡ self.old.peers.items) }
        ensures indexes { self.new.indexes.items ≡ self.old.indexes.items }
    {
        self.peers[peer as usize].open(alloc)?;
        Ok(())
    }

    /// An association of a peer is closed. It takes no memory.
    pub fn close(&mut self, centre: &Centre, key: Key, looks: &mut Looks)
        requires there { IsPeerThere centre.now self.old.peers.items key.peer }
        ensures parts { (now : ℕ) → IsChanged self.old.peers.items key.peer
            (part_after (own_tables centre.now key.peer) now (own key.ordinal closes))
            self.new.peers.items }
        ensures indexes { self.new.indexes.items ≡ self.old.indexes.items }
    {
        let place = key.peer as usize;
        let limit = centre.variant(key.peer, self.peers[place].chosen_last).sets;
        self.peers[place].close(key.ordinal, limit, looks);
    }

    /// The operator chooses a table of a peer. It takes no memory.
    pub fn choose(&mut self, centre: &Centre, peer: u32, variant: u32)
        requires there { IsPeerThere centre.now self.old.peers.items peer }
        requires variant { variant < length (variants_of centre.now peer) }
        ensures parts { (now : ℕ) → IsChanged self.old.peers.items peer
            (part_after (own_tables centre.now peer) now (chose variant)) self.new.peers.items }
        ensures indexes { self.new.indexes.items ≡ self.old.indexes.items }
    {
        let limit = centre.variant(peer, variant).sets;
        self.peers[peer as usize].choose(variant, limit);
    }

    /// An association asks something that neither reads nor writes variables, which has this reply,
    /// at this moment, in milliseconds since 1970. After want of memory nothing has changed.
    pub fn request(
        &mut self,
        centre: &Centre,
        key: Key,
        now: u64,
        event: &Event,
        reply: &ReplyKind,
        looks: &mut Looks,
    ) -> Result<(), AllocError>
        requires request { IsCalmRequest event.now }
        requires there { IsPeerThere centre.now self.old.peers.items key.peer }
        requires lawful { IsCentre centre.now }
        requires indexed { AreIndexed centre.now now self.old.peers.items self.old.indexes.items }
        ensures ok { OnOk result (IsAsked centre.now now key (acts_asked event.now)
            (λ table book. IsReplyBy table book event.now reply.now)
            self.old.peers.items self.new.peers.items) }
        ensures lawful { OnOk result (EachAct IsLawfulAct (acts_asked event.now)) }
        ensures err { OnErr result (self.new.peers.items ≡ self.old.peers.items) }
        ensures indexes { OnErr result (self.new.indexes.items ≡ self.old.indexes.items) }
        ensures indexed { AreIndexed centre.now now self.new.peers.items self.new.indexes.items }
    {
        let EventKind::Request { call } = event.kind() else {
            return Ok(());
        };
        self.call(centre, key, now, call, reply, looks)
    }

    /// An association makes a call: a definition that has no error, a deletion, or one that changes
    /// nothing.
    fn call(
        &mut self,
        centre: &Centre,
        key: Key,
        now: u64,
        call: &Call,
        reply: &ReplyKind,
        looks: &mut Looks,
    ) -> Result<(), AllocError>
        requires calm { IsCalm call.now }
        requires there { IsPeerThere centre.now self.old.peers.items key.peer }
        requires lawful { IsCentre centre.now }
        requires indexed { AreIndexed centre.now now self.old.peers.items self.old.indexes.items }
        ensures ok { OnOk result (IsAsked centre.now now key (acts_of_call call.now)
            (λ table book. IsReplyTo table book call.now reply.now)
            self.old.peers.items self.new.peers.items) }
        ensures lawful { OnOk result (EachAct IsLawfulAct (acts_of_call call.now)) }
        ensures err { OnErr result (self.new.peers.items ≡ self.old.peers.items) }
        ensures indexes { OnErr result (self.new.indexes.items ≡ self.old.indexes.items) }
        ensures indexed { AreIndexed centre.now now self.new.peers.items self.new.indexes.items }
    {
        match call.kind() {
            CallKind::Define { set, members } => {
                self.define(key, set, members, reply)?;
                self.rebuild(centre, key.peer, now, looks);
                Ok(())
            }
            CallKind::Delete { sets } => {
                let place = key.peer as usize;
                let table = centre.variant(key.peer, self.peers[place].variant);
                self.peers[place].delete(&table.domain, table.slots, sets.as_slice(), looks);
                self.rebuild(centre, key.peer, now, looks);
                Ok(())
            }
            _ => Ok(()),
        }
    }

    /// Defines a data set of a peer, where the reply is that it is defined.
    fn define(
        &mut self,
        key: Key,
        set: &Name,
        members: &Names,
        reply: &ReplyKind,
    ) -> Result<(), AllocError>
        requires known { key.peer < vec_len self.old.peers }
        requires some { 0 < length members.now }
        ensures ok { OnOk result ((rows : CentreRows) (now : ℕ) → IsAsked rows now key
            (defines set.now members.now ∷ [])
            (λ table book. IsReplyTo table book (AnyCall.Define set.now members.now) reply.now)
            self.old.peers.items self.new.peers.items) }
        ensures lawful { EachAct IsLawfulAct (defines set.now members.now ∷ []) }
        ensures err { OnErr result (self.new.peers.items ≡ self.old.peers.items) }
        ensures kept { OneBecomes KeepsSlots key.peer self.old.peers.items
            self.new.peers.items }
        ensures indexes { self.new.indexes.items ≡ self.old.indexes.items }
    {
        let name = set.item();
        if !is_defined(reply) {
            return Ok(());
        }
        self.peers[key.peer as usize].define(name, members)?;
        Ok(())
    }

    /// Hands transfer sets of a peer out to an association, in order, at this moment, in
    /// milliseconds since 1970, and keeps its index. It takes no memory.
    pub fn hand_out(
        &mut self,
        centre: &Centre,
        key: Key,
        now: u64,
        handed: &[u32],
        looks: &mut Looks,
    )
        requires there { IsPeerThere centre.now self.old.peers.items key.peer }
        requires lawful { IsCentre centre.now }
        requires indexed { AreIndexed centre.now now self.old.peers.items self.old.indexes.items }
        requires slots { AreSlots handed.now }
        ensures parts { IsChanged self.old.peers.items key.peer
            (λ part. record part { slots = handed_all key.ordinal handed.now part.slots })
            self.new.peers.items }
        ensures indexed { AreIndexed centre.now now self.new.peers.items self.new.indexes.items }
    {
        if handed.is_empty() {
            return;
        }
        self.hand_out_some(key, handed, looks);
        self.rebuild(centre, key.peer, now, looks);
    }

    /// Hands transfer sets of a peer out to an association, in order.
    fn hand_out_some(&mut self, key: Key, handed: &[u32], looks: &mut Looks)
        requires known { key.peer < vec_len self.old.peers }
        requires many { (part : Peer) → slice_get self.old.peers.items key.peer ≡ Some part
            → length part.slots ≡ SLOT_LIMIT }
        requires there { AreSlots handed.now }
        ensures parts { IsChanged self.old.peers.items key.peer
            (λ part. record part { slots = handed_all key.ordinal handed.now part.slots })
            self.new.peers.items }
        ensures indexes { self.new.indexes.items ≡ self.old.indexes.items }
    {
        self.peers[key.peer as usize].hand_out(key.ordinal, handed, looks);
    }

    /// Does what writes of an association ask, at this moment, and appends what comes of each. It
    /// takes no memory.
    pub fn write(
        &mut self,
        centre: &Centre,
        key: Key,
        now: u64,
        asked: Vec<Asked>,
        results: &mut Vec<Option<u8>>,
        looks: &mut Looks,
    )
        requires there { IsPeerThere centre.now self.old.peers.items key.peer }
        requires asked { All (IsAskedThere 0) asked.items }
        requires room { vec_len results.old + length asked.items ≤ vec_capacity results.old }
        ensures answers { (part : Peer) → slice_get self.old.peers.items key.peer ≡ Some part
            → results.new.items ≡ results.old.items
            ++ all_answers (table_in (own_tables centre.now key.peer) part.variant) part.book
            key.ordinal now asked.items part.slots }
        ensures parts { IsChanged self.old.peers.items key.peer (λ part. record part {
          slots = all_slots (table_in (own_tables centre.now key.peer) part.variant) part.book
              key.ordinal now asked.items part.slots;
        }) self.new.peers.items }
        ensures indexes { self.new.indexes.items ≡ self.old.indexes.items }
    {
        let place = key.peer as usize;
        let domain = &centre.variant(key.peer, self.peers[place].variant).domain;
        self.peers[place].write(domain, key.ordinal, now, asked, results, looks);
    }

    /// Hands the reports out that were made for an association since its last take. It takes no
    /// memory.
    pub fn take(&mut self, alloc: Global, key: Key) -> Reports
        requires { key.peer < vec_len self.old.peers }
        ensures made { (part : AnyPeer) → slice_get self.old.peers.items key.peer ≡ Some part
            → result ≡ made_for key.ordinal part.associations }
        ensures left { (tables : OwnTables) (now : ℕ) → IsChanged self.old.peers.items key.peer
            (part_after tables now (own key.ordinal takes)) self.new.peers.items }
        ensures indexes { self.new.indexes.items ≡ self.old.indexes.items }
    {
        self.peers[key.peer as usize].take(alloc, key.ordinal)
    }

    /// Drafts for each association of a peer the reports that a cause makes.
    pub fn draft(
        &mut self,
        alloc: Global,
        centre: &Centre,
        plant: &Plant,
        peer: u32,
        cause: ReportCause,
        looks: &mut Looks,
    ) -> Result<(), AllocError>
        requires { IsPeerShown centre.now plant.now self.old.peers.items peer }
        ensures alike { OneBecomes IsAlike peer self.old.peers.items self.new.peers.items }
        ensures ok { OnOk result (OneBecomes
            (λ part after. IsDrafted centre.now peer plant.now cause after) peer
            self.old.peers.items self.new.peers.items) }
        ensures indexes { self.new.indexes.items ≡ self.old.indexes.items }
    {
        self.peers[peer as usize].draft(alloc, centre, peer, plant, cause, looks)?;
        Ok(())
    }

    /// Drafts for each association of a peer the reports that a tick makes.
    fn draft_tick(
        &mut self,
        alloc: Global,
        centre: &Centre,
        plant: &Plant,
        peer: u32,
        advance: Advance,
        looks: &mut Looks,
    ) -> Result<(), AllocError>
        requires shown { IsPeerShown centre.now plant.now self.old.peers.items peer }
        requires indexed { AreIndexed centre.now advance.from self.old.peers.items
            self.old.indexes.items }
        requires forward { IsForward advance.from advance.to }
        ensures alike { OneBecomes IsAlike peer self.old.peers.items self.new.peers.items }
        ensures ok { OnOk result (OneBecomes (λ part after. IsDrafted centre.now peer plant.now
            (AnyCause.Tick advance.from advance.to) after) peer
            self.old.peers.items self.new.peers.items) }
        ensures indexes { self.new.indexes.items ≡ self.old.indexes.items }
        ensures looks { (part : AnyPeer) → slice_get self.old.peers.items peer ≡ Some part
            → looks.new ≤ looks.old + due_count advance.from advance.to part.slots }
    {
        let place = peer as usize;
        let index = &self.indexes[place];
        self.peers[place].draft_tick(alloc, centre, peer, plant, advance, index, looks)?;
        Ok(())
    }

    /// Drafts for each association of each peer the reports that a tick makes. It looks at those
    /// transfer sets alone of which something is due.
    pub fn draft_all(
        &mut self,
        alloc: Global,
        centre: &Centre,
        plant: &Plant,
        advance: Advance,
        looks: &mut Looks,
    ) -> Result<(), AllocError>
        requires few { length self.old.peers.items ≡ length centre.now.tables }
        requires shown { (peer : ℕ) → peer < length self.old.peers.items
            → IsPeerShown centre.now plant.now self.old.peers.items peer }
        requires indexed { AreIndexed centre.now advance.from self.old.peers.items
            self.old.indexes.items }
        requires forward { IsForward advance.from advance.to }
        ensures alike { EachBecomes (λ peer. IsAlike) self.old.peers.items
            self.new.peers.items }
        ensures ok { OnOk result (EachBecomes
            (λ peer part after. IsDrafted centre.now peer plant.now
            (AnyCause.Tick advance.from advance.to) after)
            self.old.peers.items self.new.peers.items) }
        ensures indexes { self.new.indexes.items ≡ self.old.indexes.items }
        ensures looks { looks.new ≤ looks.old
            + due_total advance.from advance.to self.old.peers.items }
    {
        for peer in 0..centre.peers() {
            self.draft_tick(alloc, centre, plant, peer, advance, looks)?;
        }
        Ok(())
    }

    /// Notes the reports of a peer that were drafted. It takes no memory.
    pub fn report(&mut self, peer: u32, cause: ReportCause, looks: &mut Looks)
        requires { IsPeerBanked self.old.peers.items peer }
        ensures reported { OneBecomes (IsReported cause) peer self.old.peers.items
            self.new.peers.items }
        ensures indexes { self.new.indexes.items ≡ self.old.indexes.items }
    {
        self.peers[peer as usize].report(cause, looks);
    }

    /// Notes the reports of a peer that were drafted for a tick. It takes no memory.
    fn report_tick(&mut self, centre: &Centre, peer: u32, advance: Advance, looks: &mut Looks)
        requires banked { IsPeerBanked self.old.peers.items peer }
        requires index { peer < length self.old.indexes.items }
        requires forward { IsForward advance.from advance.to }
        requires indexed { (part : AnyPeer) (index : AnyIndex)
            → slice_get self.old.peers.items peer ≡ Some part
            → slice_get self.old.indexes.items peer ≡ Some index
            → IsIndexed centre.now peer advance.from part index }
        ensures reported { OneBecomes (IsReported (AnyCause.Tick advance.from advance.to)) peer
            self.old.peers.items self.new.peers.items }
        ensures indexed { (part : AnyPeer) (index : AnyIndex)
            → slice_get self.new.peers.items peer ≡ Some part
            → slice_get self.new.indexes.items peer ≡ Some index
            → IsIndexed centre.now peer advance.to part index }
        ensures others { (other : ℕ) → other ≢ peer → slice_get self.new.indexes.items other
            ≡ slice_get self.old.indexes.items other }
        ensures many { length self.new.indexes.items ≡ length self.old.indexes.items }
        ensures looks { (part : AnyPeer) → slice_get self.old.peers.items peer ≡ Some part
            → looks.new ≤ looks.old + 3 * due_count advance.from advance.to part.slots }
    {
        let place = peer as usize;
        self.peers[place].report_tick(advance, &mut self.indexes[place], looks);
    }

    /// Notes the reports of all peers that were drafted for a tick. It takes no memory, and looks
    /// at those transfer sets alone of which something is due.
    pub fn report_all(&mut self, centre: &Centre, advance: Advance, looks: &mut Looks)
        requires few { length self.old.peers.items ≡ length centre.now.tables }
        requires banked { (peer : ℕ) → peer < length self.old.peers.items
            → IsPeerBanked self.old.peers.items peer }
        requires indexed { AreIndexed centre.now advance.from self.old.peers.items
            self.old.indexes.items }
        requires forward { IsForward advance.from advance.to }
        ensures reported { EachBecomes (λ peer. IsReported (AnyCause.Tick advance.from advance.to))
            self.old.peers.items self.new.peers.items }
        ensures indexed { AreIndexed centre.now advance.to self.new.peers.items
            self.new.indexes.items }
        ensures looks { looks.new ≤ looks.old
            + 3 * due_total advance.from advance.to self.old.peers.items }
    {
        for peer in 0..centre.peers() {
            self.report_tick(centre, peer, advance, looks);
        }
    }

    /// Plans a change of a point in the transfer sets of a peer.
    fn prepare(
        &mut self,
        centre: &Centre,
        peer: u32,
        point: u32,
        looks: &mut Looks,
    ) -> Result<(), AllocError>
        requires there { IsPeerThere centre.now self.old.peers.items peer }
        requires lawful { IsCentre centre.now }
        requires known { point < length centre.now.points }
        requires index { peer < length self.old.indexes.items }
        requires indexed { (part : AnyPeer) (index : AnyIndex)
            → slice_get self.old.peers.items peer ≡ Some part
            → slice_get self.old.indexes.items peer ≡ Some index
            → IsWatched centre.now peer part index }
        ensures alike { OneBecomes IsAlike peer self.old.peers.items self.new.peers.items }
        ensures ok { OnOk result (OneBecomes (λ part after. IsReady centre.now peer point after)
            peer self.old.peers.items self.new.peers.items) }
        ensures indexes { self.new.indexes.items ≡ self.old.indexes.items }
        ensures looks { (part : AnyPeer) → slice_get self.old.peers.items peer ≡ Some part
            → looks.new ≤ looks.old + 2 * watch_of_part centre.now peer point part }
    {
        let place = peer as usize;
        let index = &self.indexes[place];
        self.peers[place].prepare(centre, peer, point, index, looks)?;
        Ok(())
    }

    /// Plans a change of a point in the transfer sets of all peers. It looks at those alone that
    /// are enabled and whose data set names it.
    pub fn prepare_all(
        &mut self,
        centre: &Centre,
        point: u32,
        now: u64,
        looks: &mut Looks,
    ) -> Result<(), AllocError>
        requires few { length self.old.peers.items ≡ length centre.now.tables }
        requires there { (peer : ℕ) → peer < length self.old.peers.items
            → IsPeerThere centre.now self.old.peers.items peer }
        requires lawful { IsCentre centre.now }
        requires indexed { AreIndexed centre.now now self.old.peers.items self.old.indexes.items }
        requires known { point < length centre.now.points }
        ensures alike { EachBecomes (λ peer. IsAlike) self.old.peers.items
            self.new.peers.items }
        ensures ok { OnOk result (EachBecomes
            (λ peer part after. IsReady centre.now peer point after)
            self.old.peers.items self.new.peers.items) }
        ensures indexes { self.new.indexes.items ≡ self.old.indexes.items }
        ensures looks { looks.new ≤ looks.old
            + 2 * watch_total centre.now point self.old.peers.items }
    {
        for peer in 0..centre.peers() {
            self.prepare(centre, peer, point, looks)?;
        }
        Ok(())
    }

    /// Notes a change of a point in the transfer sets of a peer, as it was planned.
    fn note(&mut self, centre: &Centre, peer: u32, change: Change, looks: &mut Looks)
        requires banked { IsPeerBanked self.old.peers.items peer }
        requires room { HasPeerRoom self.old.peers.items peer }
        requires index { peer < length self.old.indexes.items }
        requires indexed { (part : AnyPeer) (index : AnyIndex)
            → slice_get self.old.peers.items peer ≡ Some part
            → slice_get self.old.indexes.items peer ≡ Some index
            → IsIndexed centre.now peer change.now part index }
        ensures noted { OneBecomes (IsNoted change.now change.value change.cov) peer
            self.old.peers.items self.new.peers.items }
        ensures indexed { (part : AnyPeer) (index : AnyIndex)
            → slice_get self.new.peers.items peer ≡ Some part
            → slice_get self.new.indexes.items peer ≡ Some index
            → IsIndexed centre.now peer change.now part index }
        ensures others { (other : ℕ) → other ≢ peer → slice_get self.new.indexes.items other
            ≡ slice_get self.old.indexes.items other }
        ensures many { length self.new.indexes.items ≡ length self.old.indexes.items }
        ensures looks { (part : AnyPeer) → slice_get self.old.peers.items peer ≡ Some part
            → looks.new ≤ looks.old + 2 * planned_count part.plan }
    {
        let place = peer as usize;
        self.peers[place].note(change, &mut self.indexes[place], looks);
    }

    /// Notes a change of a point in the transfer sets of all peers, as it was planned; nothing,
    /// where the point hasn't changed. It takes no memory, and looks at those alone for which
    /// something is planned.
    pub fn note_all(&mut self, centre: &Centre, changed: bool, change: Change, looks: &mut Looks)
        requires few { length self.old.peers.items ≡ length centre.now.tables }
        requires banked { (peer : ℕ) → peer < length self.old.peers.items
            → IsPeerBanked self.old.peers.items peer }
        requires room { (peer : ℕ) → peer < length self.old.peers.items
            → HasPeerRoom self.old.peers.items peer }
        requires indexed { AreIndexed centre.now change.now self.old.peers.items
            self.old.indexes.items }
        ensures changed { changed ≡ true → EachBecomes
            (λ peer. IsNoted change.now change.value change.cov)
            self.old.peers.items self.new.peers.items }
        ensures same { changed ≡ false → self.new.peers.items ≡ self.old.peers.items }
        ensures indexed { AreIndexed centre.now change.now self.new.peers.items
            self.new.indexes.items }
        ensures looks { looks.new ≤ looks.old + 2 * plan_total self.old.peers.items }
    {
        if changed {
            self.note_each(centre, change, looks);
        }
    }

    /// Notes a change of a point in the transfer sets of all peers, as it was planned.
    fn note_each(&mut self, centre: &Centre, change: Change, looks: &mut Looks)
        requires few { length self.old.peers.items ≡ length centre.now.tables }
        requires banked { (peer : ℕ) → peer < length self.old.peers.items
            → IsPeerBanked self.old.peers.items peer }
        requires room { (peer : ℕ) → peer < length self.old.peers.items
            → HasPeerRoom self.old.peers.items peer }
        requires indexed { AreIndexed centre.now change.now self.old.peers.items
            self.old.indexes.items }
        ensures noted { EachBecomes (λ peer. IsNoted change.now change.value change.cov)
            self.old.peers.items self.new.peers.items }
        ensures indexed { AreIndexed centre.now change.now self.new.peers.items
            self.new.indexes.items }
        ensures looks { looks.new ≤ looks.old + 2 * plan_total self.old.peers.items }
    {
        let Change { now, value, cov } = change;
        for peer in 0..centre.peers() {
            self.note(centre, peer, Change { now, value, cov }, looks);
        }
    }
}

/// What a peer is answered from, by what is kept of it.
pub fn peer_view<'a>(
    centre: &'a Centre,
    parts: &'a Parts,
    plant: &'a Plant,
    peer: u32,
) -> PeerView<'a>
    requires lawful { IsCentre centre.now }
    requires there { IsPeerThere centre.now parts.now.peers.items peer }
    requires shown { (part : AnyPeer) → slice_get parts.now.peers.items peer ≡ Some part
        → IsShowable (shown_of centre.now peer part plant.now) }
    ensures { (part : AnyPeer) → slice_get parts.now.peers.items peer ≡ Some part
        → result ≡ shown_of centre.now peer part plant.now }
{
    let part = parts.part(peer);
    let table = InForce::new(centre, peer, part.variant);
    PeerView::new(peer, table, &part.book, &part.slots, plant)
}

/// What a write of variables asks, in order, and room for what comes of it.
#[derive(Drop)]
pub struct Writing {
    pub asked: Vec<Asked>,
    pub left: Vec<Asked>,
    pub results: Vec<Option<u8>>,
}

/// What a write by an association of a peer asks, by the peer's table in force, and room for what
/// comes of each variable.
pub fn read_writing(
    alloc: Global,
    centre: &Centre,
    parts: &Parts,
    peer: u32,
    event: &Event,
) -> Result<Writing, AllocError>
    requires write { IsRequestOf sorts.Write event.now }
    requires lawful { IsCentre centre.now }
    requires there { IsPeerThere centre.now parts.now.peers.items peer }
    ensures value { IfOk result (λ w. (part : AnyPeer) (names : List ObjectName)
        (values : List Datum) → slice_get parts.now.peers.items peer ≡ Some part
        → event.now ≡ Request (AnyCall.Write names values)
        → w.asked.items ≡ all_asked centre.now (offered (table_at centre.now peer part.variant))
        names values) }
    ensures there { IfOk result (λ w. All (IsAskedThere (length centre.now.devices))
        w.asked.items) }
    ensures left { IfOk result (λ w. w.left.items ≡ []) }
    ensures results { IfOk result (λ w. w.results.items ≡ []) }
    ensures left_room { IfOk result (λ w. vec_len w.left + length w.asked.items
        ≤ vec_capacity w.left) }
    ensures results_room { IfOk result (λ w. vec_len w.results + length w.asked.items
        ≤ vec_capacity w.results) }
{
    let asked = asked_writes(alloc, centre, parts, peer, event)?;
    let left = Vec::with_capacity(alloc, asked.len())?;
    let results = Vec::with_capacity(alloc, asked.len())?;
    Ok(Writing {
        asked,
        left,
        results,
    })
}

/// What a write of variables by an association of a peer asks, in order, by the peer's table in
/// force.
fn asked_writes(
    alloc: Global,
    centre: &Centre,
    parts: &Parts,
    peer: u32,
    event: &Event,
) -> Result<Vec<Asked>, AllocError>
    requires write { IsRequestOf sorts.Write event.now }
    requires lawful { IsCentre centre.now }
    requires there { IsPeerThere centre.now parts.now.peers.items peer }
    ensures value { IfOk result (λ asked. (part : AnyPeer) (names : List ObjectName)
        (values : List Datum) → slice_get parts.now.peers.items peer ≡ Some part
        → event.now ≡ Request (AnyCall.Write names values)
        → asked.items ≡ all_asked centre.now (offered (table_at centre.now peer part.variant))
        names values) }
    ensures there { IfOk result (λ asked. All (IsAskedThere (length centre.now.devices))
        asked.items) }
{
    let EventKind::Request { call } = event.kind() else {
        unreachable!();
    };
    let CallKind::Write { names, values } = call.kind() else {
        unreachable!();
    };
    let part = parts.part(peer);
    let table = InForce::new(centre, peer, part.variant);
    read_writes(alloc, &table, names.as_slice(), values.as_slice())
}
