//! Replies to calls.
ghost use Rattle.std.specs.Prelude.{◌≡◌, ◌<◌, ◌≤◌, ℕ, length, slice_get, true, is_some, Some};
ghost use Rattle.std.specs.Prelude.{IfOk, OnOk, false, Contains};
ghost use Rattle.std.specs.List.{All};
ghost use Rattle.std.specs.Option.{option_map_or};
ghost use Rattle.mms_data.specs.Datum.{boolean};
ghost use Rattle.mms_data.specs.Lawful.{IsLawful};
ghost use Rattle.mms_data.specs.ObjectName.{IsIdentifier};
ghost use Rattle.mms_data.specs.declared.outcome.Outcome.TheVariants.{Good, Fail};
ghost use Rattle.mms_data.specs.OutcomeOctets.{IsLawfulOutcome};
ghost use Rattle.bilateral.specs.declared.rows.TheConstants.{SLOT_LIMIT};
ghost use Rattle.bilateral.specs.Rows.{IsCentre, device_of, place_of_see};
ghost use Rattle.transfer_sets.specs.WishData.{shown_wish};
ghost use Rattle.transfer_sets.specs.Banks.{slot_at};
ghost use Rattle.tase_views.specs.declared.call.CallKind.{CallKind as AnyCall};
ghost use Rattle.sbo_device.specs.declared.device.TheConstants.{TAG_LIMIT};
ghost use Rattle.tase_views.specs.OwnTables.{OwnTable, OwnTables, own_point, own_device};
ghost use Rattle.tase_views.specs.Objects.{object_named, selection, device_tag};
ghost use Rattle.tase_views.specs.Objects as objects;
ghost use Rattle.tase_views.specs.View.{View};
ghost use Rattle.tase_views.specs.Answers as answers;
ghost use Rattle.tase_views.specs.Replies.{IsReply};
ghost use Rattle.node_core.specs.Objects.Found.{offered, special_object};
ghost use Rattle.node_core.specs.Slots.SlotsKept.{first_free, handed_by, slots_read, all_read};
ghost use Rattle.node_core.specs.Slots.SlotsKept.{shown_to};
ghost use Rattle.node_core.specs.Slots.SlotsKept.{object_shown, outcomes_shown, drafted};
ghost use Rattle.node_core.specs.Slots.SlotsKept.{HasDrafted};
ghost use Rattle.node_core.specs.Slots.SlotsKept.{HandsOut};
ghost use Rattle.node_core.specs.Replies.Shown.{InEachView, shown_by, IsShowable, IsCalm};

use crate::objects::{Found, InForce, Special, find_object, list_names, slot_item, type_of};
use crate::plant::Plant;
use crate::slots::{Draft, define_reply, delete_reply, find_set, members_reply};
use ber_values::{BitString, Visible};
use bilateral::{Control, See, Table};
use data_sets::SetBook;
use mms_data::{DataKind, DataList, MmsData, Name, Names, Outcome, Scope};
use point_data::to_data;
use sbo_device::{DeviceBank, Key, Select};
use std::alloc::{AllocError, Global};
use std::marker::Model;
use tase_views::{
    ACCESS_DENIED, ACCESS_ERRORS, Call, CallKind, NON_EXISTENT, OBJECT_ACCESS_DENIED,
    OBJECT_ACCESS_UNSUPPORTED, OBJECT_NON_EXISTENT, ReadSpec, Reply, ReplyKind, Results,
};
use transfer_sets::{Looks, SlotBank};

/// The reason of an access that an object isn't there just now (ISO 9506-2, `DataAccessError`:
/// temporarily-unavailable).
const TEMPORARILY_UNAVAILABLE: u8 = 2;

/// What a peer is answered from: its table in force, its data sets, its transfer sets, and the
/// plant.
#[derive(Drop)]
pub struct PeerView<'a> {
    peer: u32,
    table: InForce<'a>,
    book: &'a SetBook,
    slots: &'a SlotBank,
    plant: &'a Plant,
}

impl<'a> Model for PeerView<'a> {
    ghost use Rattle.node_core.specs.Replies.Shown.{Shown, shown_by, IsShowable};

    ghost Value = { Shown };

    ghost view = { λ p. shown_by p.peer p.table p.book.now p.slots.now p.plant.now };

    ghost invariant = { λ p. IsShowable
        (shown_by p.peer p.table p.book.now p.slots.now p.plant.now) };
}

impl<'a> PeerView<'a> {
    pub fn new(
        peer: u32,
        table: InForce<'a>,
        book: &'a SetBook,
        slots: &'a SlotBank,
        plant: &'a Plant,
    ) -> PeerView<'a>
        requires { IsShowable (shown_by peer table book.now slots.now plant.now) }
        ensures { result ≡ shown_by peer table.entry book.now slots.now plant.now }
    {
        PeerView {
            peer,
            table,
            book,
            slots,
            plant,
        }
    }

    /// An association of the peer.
    pub fn key(&self, ordinal: u64) -> Key
        ensures { result ≡ record { peer = self.now.peer; ordinal = ordinal } }
    {
        Key {
            peer: self.peer,
            ordinal,
        }
    }

    /// The devices of the centre.
    pub fn devices(&self) -> &DeviceBank
        ensures value { result.now.devices ≡ self.now.devices }
        ensures many { length self.now.devices ≡ length self.now.table.rows.devices }
    {
        &self.plant.devices
    }

    /// The peer's table in force.
    pub fn table(&self) -> &InForce<'a>
        ensures { result.now ≡ self.now.table }
    {
        &self.table
    }

    /// The peer's data sets.
    pub fn book(&self) -> &SetBook
        ensures value { result.now ≡ self.now.book }
        ensures named { All (λ set. IsIdentifier set.name) self.now.book.sets }
    {
        self.book
    }

    /// The peer's transfer sets.
    pub fn slots(&self) -> &SlotBank
        ensures value { result.now ≡ self.now.slots }
        ensures many { length self.now.slots ≡ SLOT_LIMIT }
    {
        self.slots
    }

    /// The reply to a call of an association of the peer, but for a read and a write of variables,
    /// which do something.
    pub fn reply_to(
        &self,
        alloc: Global,
        ordinal: u64,
        call: &Call,
        looks: &mut Looks,
    ) -> Result<Reply, AllocError>
        requires { IsCalm call.now }
        ensures { IfOk result (λ reply. InEachView self.now (λ tables view. reply
            ≡ answers.reply_to tables view ordinal call.now)) }
    {
        let kind = self.reply_kind(alloc, ordinal, call, looks)?;
        Ok(Reply::new(kind))
    }

    fn reply_kind(
        &self,
        alloc: Global,
        ordinal: u64,
        call: &Call,
        looks: &mut Looks,
    ) -> Result<ReplyKind, AllocError>
        requires { IsCalm call.now }
        ensures value { IfOk result (λ kind. InEachView self.now (λ tables view. kind
            ≡ answers.reply_to tables view ordinal call.now)) }
        ensures lawful { IfOk result IsReply }
    {
        match call.kind() {
            CallKind::Identify => Ok(ReplyKind::Identified),
            CallKind::Read { .. } => unreachable!(),
            CallKind::ReadSet { set, echo } => {
                self.read_set_reply(alloc, ordinal, set, *echo, looks)
            }
            CallKind::Write { .. } => unreachable!(),
            CallKind::NameList {
                class,
                scope,
                after,
            } => self.list_reply(alloc, *class, scope, after),
            CallKind::TypeOf { name } => self.type_reply(alloc, name),
            CallKind::Define { set, members } => Ok(self.definition_reply(set, members)),
            CallKind::MembersOf { set } => self.set_reply(set),
            CallKind::Delete { sets } => self.deletion_reply(sets, looks),
            CallKind::WriteSet { .. } | CallKind::DeleteScope { .. } => Ok(ReplyKind::Error {
                class: ACCESS_ERRORS,
                code: ACCESS_DENIED,
            }),
            CallKind::Odd { kind, code } => Ok(ReplyKind::Reject {
                kind: *kind,
                code: *code,
            }),
        }
    }

    /// The reply to a list of names.
    fn list_reply(
        &self,
        alloc: Global,
        class: i64,
        scope: &Scope,
        after: &Option<Visible>,
    ) -> Result<ReplyKind, AllocError>
        ensures value { IfOk result (λ kind. InEachView self.now (λ tables view. (ordinal : ℕ)
            → kind ≡ answers.reply_to tables view ordinal
            (AnyCall.NameList class scope.now after.now))) }
        ensures lawful { IfOk result IsReply }
    {
        list_names(alloc, &self.table, self.book, class, scope, after)
    }

    /// The reply to a request for the type of a variable.
    fn type_reply(&self, alloc: Global, name: &Name) -> Result<ReplyKind, AllocError>
        ensures value { IfOk result (λ kind. InEachView self.now (λ tables view. (ordinal : ℕ)
            → kind ≡ answers.reply_to tables view ordinal (AnyCall.TypeOf name.now))) }
        ensures lawful { IfOk result IsReply }
    {
        match type_of(alloc, &self.table, name)? {
            Some(shape) => Ok(ReplyKind::TypeIs(shape)),
            None => Ok(ReplyKind::Error {
                class: ACCESS_ERRORS,
                code: NON_EXISTENT,
            }),
        }
    }

    /// The reply to the definition of a data set.
    fn definition_reply(&self, set: &Name, members: &Names) -> ReplyKind
        ensures value { InEachView self.now (λ tables view. (ordinal : ℕ)
            → result ≡ answers.reply_to tables view ordinal (AnyCall.Define set.now members.now)) }
        ensures lawful { IsReply result }
    {
        define_reply(&self.table, self.book, set, members)
    }

    /// The reply to a request for the members of a data set.
    fn set_reply(&self, set: &Name) -> Result<ReplyKind, AllocError>
        ensures value { IfOk result (λ kind. InEachView self.now (λ tables view. (ordinal : ℕ)
            → kind ≡ answers.reply_to tables view ordinal (AnyCall.MembersOf set.now))) }
        ensures lawful { IfOk result IsReply }
    {
        members_reply(&self.table.table().domain, self.book, set)
    }

    /// The reply to a deletion of data sets.
    fn deletion_reply(&self, sets: &Names, looks: &mut Looks) -> Result<ReplyKind, AllocError>
        ensures value { IfOk result (λ kind. InEachView self.now (λ tables view. (ordinal : ℕ)
            → kind ≡ answers.reply_to tables view ordinal (AnyCall.Delete sets.now))) }
        ensures lawful { IfOk result IsReply }
    {
        let table = self.table.table();
        delete_reply(
            &table.domain,
            self.book,
            self.slots,
            table.slots,
            sets,
            looks,
        )
    }

    /// The reply to a read of a data set by an association: its members are read in order.
    fn read_set_reply(
        &self,
        alloc: Global,
        ordinal: u64,
        set: &Name,
        echo: bool,
        looks: &mut Looks,
    ) -> Result<ReplyKind, AllocError>
        ensures value { IfOk result (λ kind. InEachView self.now (λ tables view. kind
            ≡ answers.reply_to tables view ordinal (AnyCall.ReadSet set.now echo))) }
        ensures lawful { IfOk result IsReply }
    {
        let Some(members) = find_set(&self.table.table().domain, self.book, set) else {
            return Ok(ReplyKind::Error {
                class: ACCESS_ERRORS,
                code: NON_EXISTENT,
            });
        };
        let spec = repeated_set(set, echo)?;
        let mut draft = Draft::new(alloc, self.slots, ordinal);
        let results = self.read(alloc, &mut draft, members, looks)?;
        Ok(ReplyKind::Results { spec, results })
    }

    /// The reply to a read of variables by an association, and the transfer sets that it hands out.
    pub fn read_reply(
        &self,
        alloc: Global,
        ordinal: u64,
        names: &Names,
        echo: bool,
        looks: &mut Looks,
    ) -> Result<ReadReply, AllocError>
        requires some { 0 < length names.now }
        ensures value { IfOk result (λ done. InEachView self.now (λ tables view. done.reply
            ≡ answers.reply_to tables view ordinal (AnyCall.Read names.now echo))) }
        ensures handed { IfOk result (λ done. HandsOut (offered self.now.table) ordinal names.now
            self.now.slots done.handed.items) }
    {
        let _lawful = self.table.table();
        let spec = repeated(names, echo)?;
        let mut draft = Draft::new(alloc, self.slots, ordinal);
        let results = self.read(alloc, &mut draft, names, looks)?;
        Ok(ReadReply {
            reply: Reply::new(ReplyKind::Results { spec, results }),
            handed: draft.into_handed(),
        })
    }

    /// Reads the named variables, in order.
    fn read(
        &self,
        alloc: Global,
        draft: &mut Draft<'_>,
        names: &Names,
        looks: &mut Looks,
    ) -> Result<Results, AllocError>
        ensures value { IfOk result (λ results. InEachView self.now (λ tables view. results
            ≡ outcomes_shown tables (offered self.now.table) view draft.old.ordinal names.now
            (drafted draft.old))) }
        ensures draft { OnOk result (HasDrafted draft.old draft.new
            (all_read (offered self.now.table) draft.old.ordinal names.now (drafted draft.old))) }
        ensures lawful { IfOk result (All IsLawfulOutcome) }
    {
        let mut results = Results::new(alloc);
        for name in names.as_slice() {
            results.push(self.read_one(alloc, draft, name, looks)?)?;
        }
        Ok(results)
    }

    fn read_one(
        &self,
        alloc: Global,
        draft: &mut Draft<'_>,
        name: &Name,
        looks: &mut Looks,
    ) -> Result<Outcome, AllocError>
        ensures value { IfOk result (λ outcome. InEachView self.now (λ tables view. outcome
            ≡ object_shown tables (offered self.now.table) view draft.old.ordinal
            (drafted draft.old) (object_named (offered self.now.table) name.now))) }
        ensures draft { OnOk result (HasDrafted draft.old draft.new
            (slots_read (offered self.now.table) draft.old.ordinal name.now (drafted draft.old))) }
        ensures lawful { IfOk result IsLawfulOutcome }
    {
        let table = self.table.table();
        match find_object(&self.table, name) {
            Some(Found::Special(special)) => read_special(alloc, &table.id, special),
            Some(Found::NextSlot) => read_next(alloc, table, draft, looks),
            Some(Found::Slot(slot)) => read_slot(alloc, draft, slot, looks),
            Some(Found::SlotStatus(slot)) => Ok(read_status(draft, slot, looks)),
            Some(Found::Selection(control)) => Ok(self.read_selection(draft.ordinal(), control)),
            Some(Found::DeviceTag(control)) => self.read_tag(alloc, control),
            Some(Found::ControlPoint(_) | Found::Timeout(_)) => {
                Ok(Outcome::Fail(OBJECT_ACCESS_UNSUPPORTED))
            }
            Some(Found::Point(see)) => self.read_point(alloc, see),
            None => Ok(Outcome::Fail(OBJECT_NON_EXISTENT)),
        }
    }

    /// The answer to a select by an association of the peer; the select itself comes when the whole
    /// reply is made.
    fn read_selection(&self, ordinal: u64, control: &Control) -> Outcome
        requires there { Contains self.now.table.table.controls control.now }
        requires selectable { (device_of self.now.table.rows control.now.device).direct ≡ false }
        ensures value { InEachView self.now (λ tables view. result
            ≡ answers.object_read tables view ordinal
            (Some (selection (own_device self.now.table.rows control.now)))) }
        ensures lawful { IsLawfulOutcome result }
    {
        let _lawful = self.table.table();
        let key = self.key(ordinal);
        let answer = self.devices().select_answer(control.device, key);
        selected(answer, self.table.device(control).checkback)
    }

    /// A device's tag as it stands.
    fn read_tag(&self, alloc: Global, control: &Control) -> Result<Outcome, AllocError>
        requires { Contains self.now.table.table.controls control.now }
        ensures value { IfOk result (λ outcome. InEachView self.now (λ tables view.
            (ordinal : ℕ) → outcome ≡ answers.object_read tables view ordinal
            (Some (device_tag (own_device self.now.table.rows control.now))))) }
        ensures lawful { IfOk result IsLawfulOutcome }
    {
        let _lawful = self.table.table();
        let devices = self.devices();
        let tag = devices.tag_of(control.device);
        let shown = tag_data(alloc, tag, devices.reason_of(control.device))?;
        Ok(Outcome::Good(shown))
    }

    /// A row's point as it stands.
    pub fn read_point(&self, alloc: Global, see: &See) -> Result<Outcome, AllocError>
        requires { is_some (place_of_see self.now.table.table see.now.point) ≡ true }
        ensures value { IfOk result (λ outcome. InEachView self.now (λ tables view.
            outcome ≡ answers.outcome_of_point view (own_point self.now.table.rows see.now))) }
        ensures lawful { IfOk result IsLawfulOutcome }
    {
        let _lawful = self.table.table();
        let value = self.plant.points.value(see.point);
        let count = self.plant.points.cov(see.point);
        let shown = to_data(alloc, value, count, &see.layout)?;
        Ok(Outcome::Good(shown))
    }
}

/// The answer to a select, of a device with this checkback.
fn selected(answer: Select, checkback: i16) -> Outcome
    ensures value { result ≡ answers.select_outcome checkback answer }
    ensures lawful { IsLawfulOutcome result }
{
    match answer {
        Select::Granted => Outcome::Good(MmsData::new(DataKind::Integer(i64::from(checkback)))),
        Select::HeldByOther => Outcome::Fail(TEMPORARILY_UNAVAILABLE),
        Select::Inhibited => Outcome::Fail(OBJECT_ACCESS_DENIED),
    }
}

/// A tag as data: two bits and the reason.
fn tag_data(alloc: Global, tag: u8, reason: &Visible) -> Result<MmsData, AllocError>
    requires { tag ≤ TAG_LIMIT }
    ensures value { IfOk result (λ shown. shown
        ≡ answers.shown_tag (record { tag = tag; reason = reason.now })) }
    ensures lawful { IfOk result (λ shown. IsLawful shown) }
{
    let octets = Vec::from_slice(alloc, &[tag * 64])?;
    let mut parts = DataList::new(alloc);
    parts.push(MmsData::new(DataKind::Bits(BitString::new(2, octets))))?;
    parts.push(MmsData::new(DataKind::Text(reason.clone()?)))?;
    Ok(MmsData::new(DataKind::Structure(parts)))
}

/// The reply to a read, and the transfer sets that it hands out, in order.
#[derive(Drop)]
pub struct ReadReply {
    pub reply: Reply,
    pub handed: Vec<u32>,
}

/// What an object of the protocol itself gives a read, for a peer whose table has this identifier.
fn read_special(alloc: Global, id: &Visible, special: Special) -> Result<Outcome, AllocError>
    ensures value { (table : OwnTable) (tables : OwnTables) (view : View) (ordinal : ℕ)
        → table.id ≡ id.now → IfOk result (λ outcome. outcome
        ≡ answers.object_read tables view ordinal (Some (special_object table special))) }
    ensures lawful { IfOk result IsLawfulOutcome }
{
    match special {
        Special::Version => Ok(Outcome::Good(version(alloc)?)),
        Special::Features => Ok(Outcome::Good(features(alloc)?)),
        Special::TableId => Ok(Outcome::Good(MmsData::new(DataKind::Text(id.clone()?)))),
        Special::SetName | Special::TimeStamp | Special::Conditions | Special::EventCode => {
            Ok(Outcome::Fail(OBJECT_ACCESS_UNSUPPORTED))
        }
    }
}

/// Hands the first transfer set that nobody owns out to the association, whose name it reads; if
/// there is one.
fn read_next(
    alloc: Global,
    table: &Table,
    draft: &mut Draft<'_>,
    looks: &mut Looks,
) -> Result<Outcome, AllocError>
    requires few { table.now.slots ≤ SLOT_LIMIT }
    ensures value { (own : OwnTable) → own.domain ≡ table.now.domain → own.slots ≡ table.now.slots
        → IfOk result (λ outcome. outcome ≡ option_map_or (λ s. Good (answers.slot_name own s))
        (first_free own.slots (drafted draft.old)) (Fail answers.temporarily_unavailable)) }
    ensures draft { OnOk result (HasDrafted draft.old draft.new (handed_by draft.old.ordinal
        (first_free table.now.slots (drafted draft.old)) (drafted draft.old))) }
    ensures lawful { IfOk result IsLawfulOutcome }
{
    let Some(slot) = draft.first_free(table.slots, looks) else {
        return Ok(Outcome::Fail(TEMPORARILY_UNAVAILABLE));
    };
    let name = slot_name(alloc, &table.domain, slot)?;
    draft.hand_out(slot)?;
    Ok(Outcome::Good(name))
}

/// What is wished of a transfer set, as its owner reads it.
fn read_slot(
    alloc: Global,
    draft: &Draft<'_>,
    slot: u32,
    looks: &mut Looks,
) -> Result<Outcome, AllocError>
    requires { slot < SLOT_LIMIT }
    ensures value { IfOk result (λ outcome. outcome ≡ shown_to draft.now.ordinal
        (slot_at (drafted draft.now) slot)
        (shown_wish (slot_at (drafted draft.now) slot).state.wish)) }
    ensures lawful { IfOk result IsLawfulOutcome }
{
    if !draft.owns(slot, looks) {
        return Ok(Outcome::Fail(OBJECT_ACCESS_DENIED));
    }
    Ok(Outcome::Good(draft.wish(alloc, slot, looks)?))
}

/// Whether a transfer set is enabled, as its owner reads it.
fn read_status(draft: &Draft<'_>, slot: u32, looks: &mut Looks) -> Outcome
    requires { slot < SLOT_LIMIT }
    ensures value { result ≡ shown_to draft.now.ordinal (slot_at (drafted draft.now) slot)
        (boolean (slot_at (drafted draft.now) slot).state.wish.status) }
    ensures lawful { IsLawfulOutcome result }
{
    if !draft.owns(slot, looks) {
        return Outcome::Fail(OBJECT_ACCESS_DENIED);
    }
    Outcome::Good(MmsData::new(DataKind::Boolean(draft.status(slot, looks))))
}

/// The name of a transfer set of a domain as data: scope, domain, item.
pub fn slot_name(alloc: Global, domain: &Visible, slot: u32) -> Result<MmsData, AllocError>
    requires { slot < SLOT_LIMIT }
    ensures value { (own : OwnTable) → own.domain ≡ domain.now
        → IfOk result (λ name. name ≡ answers.slot_name own slot) }
    ensures lawful { IfOk result (λ name. IsLawful name) }
{
    let mut parts = DataList::new(alloc);
    parts.push(MmsData::new(DataKind::Integer(1)))?;
    parts.push(MmsData::new(DataKind::Text(domain.clone()?)))?;
    let item = Vec::from_slice(alloc, slot_item(slot))?;
    parts.push(MmsData::new(DataKind::Text(Visible::new(item))))?;
    Ok(MmsData::new(DataKind::Structure(parts)))
}

/// The protocol's version: 2000, 8.
fn version(alloc: Global) -> Result<MmsData, AllocError>
    ensures { IfOk result (λ value. value ≡ objects.version) }
{
    let mut parts = DataList::new(alloc);
    parts.push(MmsData::new(DataKind::Integer(2000)))?;
    parts.push(MmsData::new(DataKind::Integer(8)))?;
    Ok(MmsData::new(DataKind::Structure(parts)))
}

/// The features that are supported, as twelve bits.
fn features(alloc: Global) -> Result<MmsData, AllocError>
    ensures { IfOk result (λ value. value ≡ objects.features) }
{
    let octets = Vec::from_slice(alloc, &[200, 0])?;
    Ok(MmsData::new(DataKind::Bits(BitString::new(12, octets))))
}

/// The data set that a read named, where that is to be repeated.
fn repeated_set(set: &Name, echo: bool) -> Result<Option<ReadSpec>, AllocError>
    ensures { IfOk result (λ spec. spec ≡ answers.echoed_set echo set.now) }
{
    if echo {
        Ok(Some(ReadSpec::Set(set.clone()?)))
    } else {
        Ok(None)
    }
}

/// What a read named, where that is to be repeated.
fn repeated(names: &Names, echo: bool) -> Result<Option<ReadSpec>, AllocError>
    ensures { IfOk result (λ spec. spec ≡ answers.echoed echo names.now) }
{
    if echo {
        Ok(Some(ReadSpec::List(names.clone()?)))
    } else {
        Ok(None)
    }
}
