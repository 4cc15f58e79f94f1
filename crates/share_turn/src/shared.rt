//! The shared turn and its seats.
ghost use Rattle.std.specs.Prelude.{◌≡◌, ◌+◌, ◌<◌, ◌^◌, ◌++◌, ◌∷◌, [], length, IfOk, Option, Some};
ghost use mathlib.Core.List.{IsPrefix};
ghost use Rattle.share_turn.specs.Entries.{Each, own, Keeps, Claims, AllDiffer};
ghost use Rattle.share_turn.specs.Steps.{ClaimsHold, at_phase, at_front, longer, IsOut, GoesOn};
ghost use Rattle.share_turn.specs.Steps.{Stays, IsAlone};
ghost use Rattle.share_turn.specs.Public.{sitting_at, IsOf, at, numbers, added, Came};
ghost use Rattle.share_turn.specs.declared.seat_view.Phase.TheVariants.{Idle, Holding, Waiting};
ghost use Rattle.share_turn.specs.declared.seat_view.Phase.TheVariants.{AtTurn};

use crate::object::Object;
use crate::plays::{
    DrawNumber, DrawTicket, JoinSeats, Law, Publish, PutBack, ReadNumber, ReadTurn, SplitSeat,
    TakeOut,
};
use crate::seat_view::SeatView;
use atomic_table::Table;
use std::alloc::{AllocError, Global};
use std::hint;
use std::marker::Model;
use std::snapshot::Snapshot;
use std::sync::Wait;

/// A seat at the table.
type Place<O> = atomic_table::Seat<Option<O>, SeatView<<O as Object>::Event, <O as Object>::Setup>>;

/// The word of the next ticket.
const TICKET: usize = 0;

/// The word of the turn, which is the ticket that is served.
const TURN: usize = 1;

/// The word of the next seat number.
const NUMBER: usize = 2;

/// So many times a seat looks for a free turn in a row before it sleeps.
const LOOKS: u32 = 100;

/// An object that threads share: each call takes its turn, and steps the object alone.
#[derive(Drop)]
pub struct Shared<O: Object + Drop> {
    table: Table<Option<O>, SeatView<O::Event, O::Setup>, Snapshot<O>, Law<O>, Global>,
}

impl<O: Object + Drop> Model for Shared<O> {
    ghost use Rattle.share_turn.specs.Public.{SharedTurn, turn};
    ghost use Rattle.share_turn.specs.Steps.{IsTurnTable};

    ghost Value = { SharedTurn O.Setup };

    ghost view = { λ s. turn s.table.shared.table_id (O.setup s.table.shared.key.value) };

    ghost invariant = { λ s. IsTurnTable s.table.shared.table_id };
}

/// Who calls, with a number of its own. It has seen a beginning of the history.
#[derive(Drop)]
pub struct Seat<O: Object> {
    number: u64,
    ended: u64,
    place: Place<O>,
}

impl<O: Object> Model for Seat<O> {
    ghost use Rattle.share_turn.specs.Public.{Sitting, sitting_at};
    ghost use Rattle.share_turn.specs.Steps.{Rests};

    ghost Value = { Sitting O.Event O.Setup };

    ghost view = { λ s. sitting_at s.place };

    ghost invariant = { λ s. Rests s.number s.ended s.place.me };
}

impl<O: Object> Seat<O> {
    /// The seat's number. Its own answered calls, and those of each number that it ended, stand in
    /// what it has seen.
    pub fn number(&self) -> u64
        ensures number { result ≡ self.now.number }
        ensures ended { Each (Keeps self.now.front) self.now.ended }
    {
        self.number
    }
}

impl<O: Object + Drop> Shared<O> {
    /// Shares the object. The first seat has the number 0, and has seen nothing.
    pub fn new(alloc: Global, object: O) -> Result<(Shared<O>, Seat<O>), AllocError>
        requires { O.history object ≡ [] }
        ensures setup { IfOk result (λ r. (r.0.setup ≡ O.setup object) × IsOf r.0 r.1) }
        ensures seat { IfOk result (λ r. (r.1.number ≡ 0) × (r.1.front ≡ []) × (r.1.ended ≡ [])) }
    {
        let about = Snapshot::of(&object);
        let mut slots = Vec::with_capacity(alloc, 1)?;
        slots.push(Some(object))?;
        let (table, place) = Table::new(alloc, &[0, 0, 1], slots, &about).map_err(|_| AllocError)?;
        let seat = Seat {
            number: 0,
            ended: 0,
            place,
        };
        Ok((Shared { table }, seat))
    }

    /// Steps the object once, at a turn of the seat's, and adds the event to the one history where
    /// it is answered. Where the tickets are at their end, 2^64 - 1, it waits without end.
    pub fn call<R: Wait>(
        &self,
        rt: &R,
        alloc: Global,
        seat: &mut Seat<O>,
        event: O::Event,
    ) -> Result<O::Answer, O::Fault>
        requires { IsOf self.now seat.old }
        ensures same { seat.new ≡ at seat.old seat.new.front }
        ensures seen { IsPrefix seat.old.front seat.new.front }
        ensures one { Came O.right self.now.setup seat.old event result seat.new.front }
        ensures own { own seat.old.number seat.new.front
            ≡ own seat.old.number seat.old.front ++ added result event }
    {
        let who = seat.number;
        self.run(rt, alloc, &mut seat.place, who, event)
    }

    /// A seat with a number of its own, which has seen the same and has made no call. Where the
    /// numbers are at their end, 2^64 - 1, it waits without end.
    pub fn split<R: Wait>(&self, rt: &R, seat: &mut Seat<O>) -> Seat<O>
        requires { IsOf self.now seat.old }
        ensures same { seat.new ≡ seat.old }
        ensures of { IsOf self.now result }
        ensures given { (result.front ≡ seat.old.front) × (result.ended ≡ []) }
        ensures number { Claims (numbers seat.old) result.number → ⊥ }
        ensures none { own result.number result.front ≡ [] }
    {
        let number = self.draw_number(rt, &mut seat.place);
        let place = self.table.shared.split_seat::<SplitSeat>(&mut seat.place);
        Seat {
            number,
            ended: 0,
            place,
        }
    }

    /// The seat has seen the longer of both fronts, and keeps the other's number with what it had
    /// seen, and all that the other kept so. It waits for nobody.
    pub fn join(&self, seat: &mut Seat<O>, other: Seat<O>)
        requires { IsOf self.now seat.old × IsOf self.now other }
        ensures of { IsOf self.now seat.new × (seat.new.number ≡ seat.old.number) }
        ensures longer { seat.new.front ≡ longer seat.old.front other.front }
        ensures ended { seat.new.ended ≡ numbers other ++ seat.old.ended }
        ensures all { Each (Keeps seat.new.front)
            ((seat.old.number, seat.old.front) ∷ seat.new.ended) }
        ensures differ { AllDiffer (numbers seat.new) }
    {
        let Seat {
            number: _,
            ended,
            place,
        } = other;
        let shared = &self.table.shared;
        shared.join_seat::<JoinSeats>(&mut seat.place, place);
        shared.load::<ReadNumber>(&mut seat.place, NUMBER);
        seat.ended += ended + 1;
    }

    /// Takes the object out in a last turn, and publishes none: calls of other seats wait without
    /// end afterwards. It waits without end where another seat was not joined, and where the
    /// tickets are at their end.
    pub fn close<R: Wait>(&self, rt: &R, seat: Seat<O>) -> O
        requires { IsOf self.now seat }
        ensures setup { O.setup result ≡ self.now.setup }
        ensures all { Each (Keeps (O.history result)) (numbers seat) }
        ensures differ { AllDiffer (numbers seat) }
        ensures no_other { Each (λ e. Claims (numbers seat) e.0) (O.history result) }
    {
        let Seat {
            number: _,
            ended,
            mut place,
        } = seat;
        let ticket = self.draw_ticket(rt, &mut place);
        self.await_turn(rt, &mut place, ticket);
        self.await_others(rt, &mut place, ticket, ended);
        self.take_out(&mut place)
    }

    /// A call of the seat at this place.
    fn run<R: Wait>(
        &self,
        rt: &R,
        alloc: Global,
        place: &mut Place<O>,
        who: u64,
        event: O::Event,
    ) -> Result<O::Answer, O::Fault>
        requires of { IsOf self.now (sitting_at place.old) }
        requires rest { (place.old.me.0.phase ≡ Idle) × (place.old.me.1 ≡ []) }
        requires who { who ≡ place.old.me.0.number }
        ensures same { Stays place.old place.new }
        ensures me { place.new.me ≡ (at_front Idle place.new.me.0.front place.old.me.0, []) }
        ensures told { ClaimsHold place.new.me.0 }
        ensures one { Came O.right self.now.setup (sitting_at place.old) event result
            place.new.me.0.front }
    {
        let ticket = self.draw_ticket(rt, place);
        self.await_turn(rt, place, ticket);
        let mut object = self.take_out(place);
        let outcome = object.step(alloc, who, event);
        self.put_back(place, ticket, object);
        outcome
    }

    /// Draws a ticket as soon as nobody is at the turn: who comes first then goes first, so that a
    /// thread that runs need not wait for one that sleeps. Where the tickets are at their end it
    /// draws none, and waits without end.
    fn draw_ticket<R: Wait>(&self, rt: &R, place: &mut Place<O>) -> u64
        requires of { place.old.table_id ≡ self.now.table }
        requires rest { place.old.me.0.phase ≡ Idle }
        ensures same { Stays place.old place.new }
        ensures me { place.new.me ≡ (at_phase (Waiting result) place.old.me.0, place.old.me.1) }
        ensures room { result + 1 < 2 ^ 64 }
    {
        let shared = &self.table.shared;
        let mut looks = 0;
        for _ in rt.forever() {
            let turn = shared.peek(TURN);
            if turn < u64::MAX
                && shared.peek(TICKET) == turn
                && shared.compare_exchange::<DrawTicket>(place, TICKET, turn, turn + 1) == turn
            {
                return turn;
            }
            if looks < LOOKS {
                looks += 1;
                hint::spin_loop();
                continue;
            }
            looks = 0;
            shared.park(rt, TURN, (turn % (1 << 32)) as u32);
        }
        unreachable!()
    }

    /// Has the object out, once the turn is the ticket's: at once, since no ticket is drawn while
    /// another is at the turn.
    fn await_turn<R: Wait>(&self, rt: &R, place: &mut Place<O>, ticket: u64)
        requires of { place.old.table_id ≡ self.now.table }
        requires waits { (place.old.me.0.phase ≡ Waiting ticket) × (place.old.me.1 ≡ []) }
        ensures same { Stays place.old place.new }
        ensures out { IsOut O.setup O.history ticket place.old.me.0 place.new.me }
    {
        for _ in rt.forever() {
            let found = self.table.shared.load::<ReadTurn>(place, TURN);
            if found == ticket {
                self.table.shared.load::<TakeOut<O>>(place, TURN);
                return;
            }
        }
        unreachable!()
    }

    /// The object that is out with the seat.
    fn take_out(&self, place: &mut Place<O>) -> O
        requires of { place.old.table_id ≡ self.now.table }
        requires out { (o : O) × (place.old.me.1 ≡ (0, Some o) ∷ []) }
        ensures same { Stays place.old place.new }
        ensures object { place.old.me.1 ≡ (0, Some result) ∷ [] }
        ensures empty { (x : Option O) × (place.new.me ≡ (place.old.me.0, (0, x) ∷ [])) }
    {
        let Some(object) = self.table.shared.exchange(place, 0, None) else {
            unreachable!()
        };
        object
    }

    /// Puts the object back, publishes the next turn and wakes one that sleeps for it.
    fn put_back(&self, place: &mut Place<O>, ticket: u64, object: O)
        requires of { place.old.table_id ≡ self.now.table }
        requires turn { (place.old.me.0.phase ≡ AtTurn ticket) × (ticket + 1 < 2 ^ 64) }
        requires slot { (x : Option O) × (place.old.me.1 ≡ (0, x) ∷ []) }
        requires object { GoesOn O.setup O.history place.old.me.0 object }
        ensures same { Stays place.old place.new }
        ensures me { place.new.me ≡ (at_front Idle (O.history object) place.old.me.0, []) }
        ensures told { ClaimsHold place.new.me.0 }
    {
        let shared = &self.table.shared;
        shared.exchange(place, 0, Some(object));
        shared.load::<PutBack<O>>(place, TURN);
        shared.store::<Publish>(place, TURN, ticket + 1);
        shared.wake_one(TURN);
    }

    /// Draws a seat number. Where the numbers are at their end it draws none, and waits without
    /// end.
    fn draw_number<R: Wait>(&self, rt: &R, place: &mut Place<O>) -> u64
        requires of { place.old.table_id ≡ self.now.table }
        requires rest { place.old.me.0.phase ≡ Idle }
        ensures same { Stays place.old place.new }
        ensures me { place.new.me ≡ (at_phase (Holding result) place.old.me.0, place.old.me.1) }
        ensures number { Claims (numbers (sitting_at place.old)) result → ⊥ }
        ensures none { own result place.old.me.0.front ≡ [] }
    {
        for _ in rt.forever() {
            let number = self.table.shared.peek(NUMBER);
            if number == u64::MAX {
                self.table.shared.park(rt, NUMBER, u32::MAX);
                continue;
            }
            let shared = &self.table.shared;
            if shared.compare_exchange::<DrawNumber>(place, NUMBER, number, number + 1) == number {
                return number;
            }
        }
        unreachable!()
    }

    /// Waits, at the turn, until no number was drawn but the seat's own and those that it ended.
    fn await_others<R: Wait>(&self, rt: &R, place: &mut Place<O>, ticket: u64, ended: u64)
        requires of { place.old.table_id ≡ self.now.table }
        requires turn { place.old.me.0.phase ≡ AtTurn ticket }
        requires ended { ended ≡ length place.old.me.0.ended }
        ensures same { Stays place.old place.new × (place.new.me ≡ place.old.me) }
        ensures alone { IsAlone place.old.me.0 }
    {
        for _ in rt.forever() {
            let found = self.table.shared.load::<ReadNumber>(place, NUMBER);
            if found > 0 && found - 1 == ended {
                return;
            }
            self.table
                .shared
                .park(rt, NUMBER, (found % (1 << 32)) as u32);
        }
        unreachable!()
    }
}
