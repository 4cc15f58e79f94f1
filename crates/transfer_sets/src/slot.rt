//! One transfer set of a peer.
ghost use Rattle.std.specs.Prelude.{◌≡◌, ◌↔◌, ◌⊎◌, ◌+◌, ◌%◌, ◌<◌, ◌≤◌, ◌++◌, ℕ, IsTrue, true};
ghost use Rattle.std.specs.Prelude.{false, List, [], ◌∷◌, map, length, None, is_some, IsOk, OnOk};
ghost use Rattle.std.specs.Prelude.{OnErr};
ghost use Rattle.transfer_sets.specs.SlotState.{new_slot, with_status, enabled_by, noted_at};
ghost use Rattle.transfer_sets.specs.SlotState.{is_noted, noted_behind};
ghost use Rattle.transfer_sets.specs.SlotMoves.{SlotMove, handed_out, wishes, changes, reports};
ghost use Rattle.transfer_sets.specs.SlotMoves.{Places, last_wish, slot_in, FollowsMoves};
ghost use Rattle.transfer_sets.specs.Due.{PassesMultiple, HasWaited, IsFull, AreDue, milliseconds};
ghost use Rattle.transfer_sets.specs.NextDue.{IsNextMoment, IsFirstMoment, IsPassedTime};
ghost use Rattle.transfer_sets.specs.NextDue.{IsRipeChange};
ghost use Rattle.transfer_sets.specs.Wishes.{HasCondition};

use crate::next_due::{DUE_LIMIT, below_limit, earlier, next_multiple, next_waited};
use crate::noted::Noted;
use crate::wish::{CHANGE, INTEGRITY, INTERVAL, Wish, base_of, has};
use std::alloc::{AllocError, Global};
use std::marker::Model;
use tase_points::PointValue;

/// How many noted changes one report tells at the most, and how many make one due.
pub const NOTED_LIMIT: usize = 500;

// Clauses cite this limit, so that it stands here as a number too.
const _: () = prove!(NOTED_LIMIT == 500);

/// A transfer set: what is wished of it, and what it knows of the time and of changes. All moments
/// are in milliseconds since 1970.
#[derive(Debug, Drop)]
pub struct Slot {
    /// Its status says whether the slot is enabled.
    wish: Wish,
    base: u64,
    first: Option<u64>,
    noted: Vec<Noted>,
    /// How many members can be noted without memory: room was made for them.
    room: usize,
}

impl Model for Slot {
    ghost use Rattle.std.specs.Prelude.{◌+◌, ◌≤◌, vec_len, vec_capacity};
    ghost use Rattle.transfer_sets.specs.SlotState.{KeptSlot};

    ghost Value = { KeptSlot };

    ghost view = { λ s. record {
      state = record { wish = s.wish; base = s.base; first = s.first; noted = s.noted.items };
      spare = s.room;
    } };

    ghost invariant = { λ s. vec_len s.noted + s.room ≤ vec_capacity s.noted };
}

impl Slot {
    /// A slot that isn't enabled and of which nothing is wished, as one is handed out.
    pub fn new(alloc: Global) -> Slot
        ensures state { result.state ≡ new_slot }
        ensures spare { result.spare ≡ 0 }
        ensures moves { (places : Places) (moves : List SlotMove) (ordinal : ℕ)
            → FollowsMoves places (handed_out ordinal ∷ moves) result.state }
    {
        Slot {
            wish: Wish::empty(alloc),
            base: 0,
            first: None,
            noted: Vec::new(alloc),
            room: 0,
        }
    }

    /// It is as a new one, and takes no memory for that.
    pub fn clear(&mut self)
        ensures state { self.new.state ≡ new_slot }
        ensures spare { self.new.spare ≡ 0 }
        ensures moves { (places : Places) (moves : List SlotMove) (ordinal : ℕ)
            → FollowsMoves places (handed_out ordinal ∷ moves) self.new.state }
    {
        self.wish = Wish::empty(*self.noted.allocator());
        self.base = 0;
        self.first = None;
        self.noted.clear();
        self.room = 0;
    }

    /// Enables the slot with a wish, at this moment: also one that is enabled, which begins anew.
    /// The wish's status is true from now on.
    pub fn enable(&mut self, wish: Wish, now: u64)
        ensures state { self.new.state ≡ enabled_by wish now }
        ensures spare { self.new.spare ≡ self.old.spare }
        ensures moves { (places : Places) (moves : List SlotMove)
            → FollowsMoves places (wishes (with_status true wish) now ∷ moves) self.new.state }
    {
        self.base = base_of(&wish, now);
        self.first = None;
        self.noted.clear();
        self.wish = wish;
        self.wish.status = true;
    }

    /// Enables the slot with the wish that stands, at this moment: also one that is enabled, which
    /// begins anew.
    pub fn renew(&mut self, now: u64)
        ensures state { self.new.state ≡ enabled_by self.old.state.wish now }
        ensures spare { self.new.spare ≡ self.old.spare }
        ensures moves { (places : Places) (moves : List SlotMove)
            → FollowsMoves places moves self.old.state
            → FollowsMoves places
            (wishes (with_status true (last_wish moves).0) now ∷ moves) self.new.state }
    {
        self.base = base_of(&self.wish, now);
        self.first = None;
        self.noted.clear();
        self.wish.status = true;
    }

    /// Keeps a wish without enabling the slot. The wish's status is false from now on, and no
    /// change is noted.
    pub fn keep(&mut self, wish: Wish)
        ensures state { self.new.state
            ≡ record self.old.state { wish = with_status false wish; first = None; noted = [] } }
        ensures spare { self.new.spare ≡ self.old.spare }
        ensures moves { (places : Places) (moves : List SlotMove) (now : ℕ)
            → FollowsMoves places (wishes (with_status false wish) now ∷ moves) self.new.state }
    {
        self.first = None;
        self.noted.clear();
        self.wish = wish;
        self.wish.status = false;
    }

    /// Ends the reports of the slot. The wish is kept, its status is false from now on, and no
    /// change is noted.
    pub fn disable(&mut self)
        ensures state { self.new.state ≡ record self.old.state {
          wish = with_status false self.old.state.wish;
          first = None;
          noted = [];
        } }
        ensures spare { self.new.spare ≡ self.old.spare }
        ensures moves { (places : Places) (moves : List SlotMove) (now : ℕ)
            → FollowsMoves places moves self.old.state
            → FollowsMoves places
            (wishes (with_status false (last_wish moves).0) now ∷ moves) self.new.state }
    {
        self.first = None;
        self.noted.clear();
        self.wish.status = false;
    }

    /// The conditions, as their sum, on which a report is due where the clock goes on from a moment
    /// to another: none of a slot that isn't enabled, however many multiples go by.
    pub fn due(&self, from: u64, to: u64) -> u8
        ensures due { AreDue self.now.state from to result }
        ensures moves { (places : Places) (moves : List SlotMove)
            → FollowsMoves places moves self.now.state
            → AreDue (slot_in places moves) from to result }
    {
        self.conditions(from, to)
    }

    /// The conditions that are due, as their sum.
    fn conditions(&self, from: u64, to: u64) -> u8
        ensures { AreDue self.now.state from to result }
    {
        if !self.wish.status {
            return 0;
        }
        let wished = self.wish.conditions;
        let interval = has(wished, INTERVAL)
            && passes_multiple(self.base, u64::from(self.wish.interval) * 1000, from, to);
        let integrity = has(wished, INTEGRITY)
            && passes_multiple(self.base, u64::from(self.wish.integrity) * 1000, from, to);
        let change = has(wished, CHANGE) && self.has_changes(to);
        sum_of(interval, integrity, change)
    }

    /// The next moment after another, below the limit of all such moments, at which something is
    /// due if nothing befalls the slot until then; none where nothing is.
    pub fn next_due(&self, from: u64) -> Option<u64>
        ensures { IsNextMoment self.now.state from result }
    {
        if !self.wish.status {
            return None;
        }
        if from >= DUE_LIMIT {
            return None;
        }
        let interval = self.next_time(INTERVAL, self.wish.interval, from);
        let integrity = self.next_time(INTEGRITY, self.wish.integrity, from);
        earlier(earlier(interval, integrity), self.next_change(from))
    }

    /// The first moment at which a condition of time is due, where the wish has it.
    fn next_time(&self, condition: u8, seconds: u32, from: u64) -> Option<u64>
        requires some { 0 < condition }
        requires limit { from < DUE_LIMIT }
        ensures { IsFirstMoment (IsPassedTime self.now.state condition seconds from) from result }
    {
        if !has(self.wish.conditions, condition) {
            return None;
        }
        next_multiple(self.base, seconds, from)
    }

    /// The first moment at which changes are to be told, where the wish has their condition.
    fn next_change(&self, from: u64) -> Option<u64>
        requires { from < DUE_LIMIT }
        ensures { IsFirstMoment (IsRipeChange self.now.state) from result }
    {
        if !has(self.wish.conditions, CHANGE) {
            return None;
        }
        if self.is_full() {
            return below_limit(from + 1);
        }
        next_waited(self.first, self.wish.buffer, from)
    }

    /// Whether changes are to be told at this moment: the first has waited for the time of the
    /// buffer, or so many are noted that a report of them has its full length.
    fn has_changes(&self, to: u64) -> bool
        ensures { IsTrue result
            ↔ (HasWaited self.now.state.first (milliseconds self.now.state.wish.buffer) to
            ⊎ IsFull self.now.state) }
    {
        has_waited(self.first, u64::from(self.wish.buffer) * 1000, to) || self.is_full()
    }

    /// Whether a report of the noted changes has its full length.
    fn is_full(&self) -> bool
        ensures { IsTrue result ↔ IsFull self.now.state }
    {
        self.wish.rbe && self.wish.all_changes && self.noted.len() >= NOTED_LIMIT
    }

    /// Makes room for this many further notes, so that they take no memory. After want of memory
    /// the slot is as before.
    pub fn room(&mut self, n: usize) -> Result<(), AllocError>
        ensures state { self.new.state ≡ self.old.state }
        ensures spare { self.old.spare ≤ self.new.spare }
        ensures ok { OnOk result (n ≤ self.new.spare) }
        ensures err { OnErr result (self.new ≡ self.old) }
        ensures succeeds { n ≤ self.old.spare → IsOk result }
    {
        if self.room < n {
            self.noted.reserve(n)?;
            self.room = n;
        }
        Ok(())
    }

    /// Notes that a member of the data set has changed at this moment.
    pub fn note_change(&mut self, now: u64)
        ensures { self.new ≡ record self.old {
          state = record self.old.state { first = noted_at now self.old.state.first };
        } }
    {
        if self.first.is_none() {
            self.first = Some(now);
        }
    }

    /// Notes a member of the data set, by its place, as its point stands just after a change.
    pub fn note_member(&mut self, member: u32, value: PointValue, cov: u16)
        requires room { 1 ≤ self.old.spare }
        ensures state { self.new.state ≡ record self.old.state {
          noted = self.old.state.noted ++ record { member = member; value = value; cov = cov } ∷ [];
        } }
        ensures spare { self.new.spare + 1 ≡ self.old.spare }
    {
        self.noted.push_reserved(Noted { member, value, cov });
        self.room -= 1;
    }

    /// A point has changed at this moment, of which the value and the shown count of changes are
    /// now these; the data set's members at these places name it. Where the wish has changes told
    /// they are noted, in order: each, or those that aren't yet. Nothing befalls a slot that isn't
    /// enabled.
    pub fn change(&mut self, now: u64, value: PointValue, cov: u16, places: &[u32])
        requires room { self.old.state.wish.status ≡ true → self.old.state.wish.rbe ≡ true
            → length places.now ≤ self.old.spare }
        ensures wish { self.new.state.wish ≡ self.old.state.wish }
        ensures spare { self.old.spare ≤ self.new.spare + length places.now }
        ensures moves { (members : Places) (moves : List SlotMove) (point : List ℕ)
            → members point ≡ places.now → FollowsMoves members moves self.old.state
            → FollowsMoves members
            (changes (record { point = point; moment = now; value = value; count = cov }) ∷ moves)
            self.new.state }
    {
        if !self.wish.status || places.is_empty() {
            return;
        }
        self.note_change(now);
        if self.wish.rbe {
            self.note_members(value, cov, places);
        }
    }

    /// Notes the members at these places, in order: each, or, where the wish hasn't every change
    /// told, those that aren't noted yet.
    fn note_members(&mut self, value: PointValue, cov: u16, places: &[u32])
        requires room { length places.now ≤ self.old.spare }
        ensures state { self.new.state ≡ record self.old.state {
          noted = noted_behind self.old.state.wish.all_changes self.old.state.noted
              (map (λ member. record { member = member; value = value; cov = cov }) places.now);
        } }
        ensures spare { self.old.spare ≤ self.new.spare + length places.now }
    {
        for &member in places {
            if self.wish.all_changes || !self.is_noted(member) {
                self.note_member(member, value, cov);
            }
        }
    }

    /// Whether a member of the data set is noted.
    fn is_noted(&self, member: u32) -> bool
        ensures { result ≡ is_noted self.now.state.noted member }
    {
        self.noted.iter().any(|note| note.member == member)
    }

    /// Notes that a report has told all changes.
    pub fn reported(&mut self)
        ensures state { self.new.state ≡ record self.old.state { first = None; noted = [] } }
        ensures spare { self.new.spare ≡ self.old.spare }
        ensures moves { (places : Places) (moves : List SlotMove)
            → FollowsMoves places moves self.old.state
            → FollowsMoves places (reports ∷ moves) self.new.state }
    {
        self.first = None;
        self.noted.clear();
    }

    /// The members that changed since the last report, in order, where the wish has changes told:
    /// with each change, or with the first of each member.
    pub fn noted(&self) -> &[Noted]
        ensures { result.now ≡ self.now.state.noted }
    {
        self.noted.as_slice()
    }

    /// Whether a member has changed since the last report.
    pub fn has_change(&self) -> bool
        ensures { result ≡ is_some self.now.state.first }
    {
        self.first.is_some()
    }

    /// What is wished; its status says whether the slot is enabled.
    pub fn wish(&self) -> &Wish
        ensures { result.now ≡ self.now.state.wish }
    {
        &self.wish
    }

    pub fn enabled(&self) -> bool
        ensures { result ≡ self.now.state.wish.status }
    {
        self.wish.status
    }
}

/// Whether some whole multiple of a period after the base, one at the least, stands after `from`
/// and not after `to`.
fn passes_multiple(base: u64, period: u64, from: u64, to: u64) -> bool
    ensures { IsTrue result ↔ PassesMultiple base period from to }
{
    if period == 0 {
        return from < base && base <= to;
    }
    from.saturating_sub(base) / period < to.saturating_sub(base) / period
}

/// Whether a change was noted and has waited for the time of the buffer.
fn has_waited(noted: Option<u64>, buffer: u64, to: u64) -> bool
    ensures { IsTrue result ↔ HasWaited noted buffer to }
{
    match noted {
        Some(first) => buffer <= to && first <= to - buffer,
        None => false,
    }
}

/// The sum of the conditions that hold.
fn sum_of(interval: bool, integrity: bool, change: bool) -> u8
    ensures interval { HasCondition result INTERVAL ↔ IsTrue interval }
    ensures integrity { HasCondition result INTEGRITY ↔ IsTrue integrity }
    ensures change { HasCondition result CHANGE ↔ IsTrue change }
    ensures no_others { (result % CHANGE ≡ 0) × (result < 256) }
{
    let first = if interval { INTERVAL } else { 0 };
    let second = if integrity { INTEGRITY } else { 0 };
    let third = if change { CHANGE } else { 0 };
    first + second + third
}
