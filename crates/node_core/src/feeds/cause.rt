//! Why reports are made.
ghost use Rattle.std.specs.Prelude.{◌≡◌, ◌<◌, ◌≤◌, ◌+◌, ◌*◌, length, slice_set};
ghost use Rattle.bilateral.specs.declared.rows.TheConstants.{SLOT_LIMIT as SLOTS};
ghost use Rattle.transfer_sets.specs.Banks.{slot_at};
ghost use Rattle.transfer_sets.specs.Wishes as wishes;
ghost use Rattle.tase_views.specs.Slots as slots;
ghost use Rattle.transfer_sets.specs.DueIndex.{IsDueIndex};
ghost use Rattle.node_core.specs.declared.feeds.cause.ReportCause.{ReportCause as AnyCause};
ghost use Rattle.node_core.specs.Feeds.SlotFeeds.{conditions_by, AreReported, IsForward, due_count};
ghost use Rattle.node_core.specs.Feeds.SlotFeeds.{reported_on};

use bilateral::SLOT_LIMIT;
use transfer_sets::{
    DueIndex, INTEGRITY, Looks, OPERATOR, OwnSlot, SlotBank, due_indexes_last, due_indexes_turn,
    due_is_one_number, next_moments_last,
};

/// What makes reports of transfer sets. Moments are in milliseconds since 1970.
#[derive(Clone, Copy)]
pub enum ReportCause {
    /// The clock goes on from a moment to another.
    Tick { from: u64, to: u64 },
    /// The operator asks for a report of a transfer set, at a moment.
    Ask { slot: u32, now: u64 },
}

/// The clock goes on from a moment to another, in milliseconds since 1970.
#[derive(Clone, Copy)]
pub struct Advance {
    pub from: u64,
    pub to: u64,
}

impl Advance {
    /// It, as what makes reports.
    pub fn cause(self) -> ReportCause
        ensures { result ≡ AnyCause.Tick self.from self.to }
    {
        ReportCause::Tick {
            from: self.from,
            to: self.to,
        }
    }
}

/// The conditions, as their sum, that a cause brings about for a transfer set.
pub fn conditions_of(cause: ReportCause, own: &OwnSlot, slot: u32) -> u8
    ensures { result ≡ conditions_by cause slot own.now.state }
{
    match cause {
        ReportCause::Tick { from, to } => own.due(from, to),
        ReportCause::Ask { slot: asked, .. } => {
            if asked == slot {
                asked_conditions(own)
            } else {
                0
            }
        }
    }
}

/// The condition by which a request of the operator makes a report, if the wish has it.
fn asked_conditions(own: &OwnSlot) -> u8
    ensures { result ≡ slots.asked_conditions own.now.state }
{
    let wish = own.wish();
    if wish.status && has(wish.conditions, OPERATOR) {
        OPERATOR
    } else {
        0
    }
}

/// Whether conditions make a report of a transfer set: not where its wish has only changes told,
/// and no member changed.
pub fn makes_report(own: &OwnSlot, conditions: u8) -> bool
    ensures { result ≡ slots.makes_report own.now.state conditions }
{
    if conditions == 0 {
        return false;
    }
    let only_told = own.wish().rbe && only_changes(conditions);
    !only_told || own.has_change()
}

/// Whether some conditions, as their sum, have this one.
fn has(conditions: u8, condition: u8) -> bool
    requires { 0 < condition }
    ensures { result ≡ wishes.has conditions condition }
{
    conditions / condition % 2 == 1
}

/// Whether conditions are none but interval and change.
pub fn only_changes(conditions: u8) -> bool
    ensures { result ≡ slots.only_changes conditions }
{
    !has(conditions, INTEGRITY) && !has(conditions, OPERATOR)
}

/// Notes that reports of a cause have told all changes of the transfer sets of which it makes one.
pub fn report_all(bank: &mut SlotBank, cause: ReportCause, looks: &mut Looks)
    requires { length bank.old ≡ SLOTS }
    ensures { AreReported cause bank.old bank.new }
{
    for slot in 0..SLOT_LIMIT as u32 {
        report_slot(bank, cause, slot, looks);
    }
}

/// Notes that reports of a tick have told all changes of the transfer sets of which it makes one,
/// and brings the index to its moment. It looks at those alone of which something is due, three
/// times at the most.
pub fn report_due(bank: &mut SlotBank, advance: Advance, dues: &mut DueIndex, looks: &mut Looks)
    requires many { length bank.old ≡ SLOTS }
    requires forward { IsForward advance.from advance.to }
    requires dues { IsDueIndex bank.old advance.from dues.old }
    ensures reported { AreReported (AnyCause.Tick advance.from advance.to) bank.old bank.new }
    ensures dues { IsDueIndex bank.new advance.to dues.new }
    ensures looks { looks.new ≤ looks.old + 3 * due_count advance.from advance.to bank.old }
{
    due_is_one_number();
    next_moments_last();
    due_indexes_last();
    due_indexes_turn();
    if !dues.has_any_come(advance.to) {
        return;
    }
    for slot in 0..SLOT_LIMIT as u32 {
        if dues.has_come(slot, advance.to) {
            report_slot(bank, advance.cause(), slot, looks);
            dues.set(slot, bank.look(looks, slot).next_due(advance.to));
        }
    }
}

/// Notes that the reports of a cause have told all changes of a transfer set, where it makes one.
fn report_slot(bank: &mut SlotBank, cause: ReportCause, slot: u32, looks: &mut Looks)
    requires { slot < length bank.old }
    ensures slots { bank.new ≡ slice_set bank.old slot (reported_on
        (conditions_by cause slot (slot_at bank.old slot).state) (slot_at bank.old slot)) }
    ensures looks { looks.new ≤ looks.old + 2 }
{
    let own = bank.look(looks, slot);
    let conditions = conditions_of(cause, own, slot);
    if makes_report(own, conditions) {
        bank.reported(looks, slot);
    }
}
