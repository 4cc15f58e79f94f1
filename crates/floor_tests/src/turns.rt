//! Threads that call one shared adder.
ghost use Rattle.std.specs.Prelude.{IfOk};
ghost use Rattle.std.specs.Thread.{IsSync};
ghost use Rattle.share_turn.specs.Public.{IsOf};

use crate::{Adder, Amount, Refusal};
use share_turn::{Seat, Shared};
use std::alloc::Global;
use std::process::Abort;
use std::sync::Wait;
use std::test::*;
use std::thread::{Threads, join};

/// The threads make so many calls each.
const CALLS: u32 = 250;

/// All calls with the amount 1.
fn call<R: Wait>(
    rt: &R,
    alloc: Global,
    shared: &Shared<Adder>,
    seat: Seat<Adder>,
) -> Result<Seat<Adder>, Refusal>
    requires { IsOf shared.now seat }
    ensures { IfOk result (λ s. IsOf shared.now s) }
{
    let mut seat = seat;
    for _ in 0..CALLS {
        shared.call(rt, alloc, &mut seat, Amount::new(1))?;
    }
    Ok(seat)
}

/// Joins two seats that have made their calls.
fn gather(
    shared: &Shared<Adder>,
    mine: Result<Seat<Adder>, Refusal>,
    theirs: Result<Seat<Adder>, Refusal>,
) -> Result<Seat<Adder>, Refusal>
    requires mine { IfOk mine (λ s. IsOf shared.now s) }
    requires theirs { IfOk theirs (λ s. IsOf shared.now s) }
    ensures { IfOk result (λ s. IsOf shared.now s) }
{
    let mut seat = mine?;
    shared.join(&mut seat, theirs?);
    Ok(seat)
}

/// All calls in each of two threads.
fn two<R: Threads + Wait + Sync>(
    rt: &R,
    alloc: Global,
    shared: &Shared<Adder>,
    seat: Seat<Adder>,
) -> Result<Seat<Adder>, Refusal>
    requires { IsOf shared.now seat }
    ensures { IfOk result (λ s. IsOf shared.now s) }
{
    let mut seat = seat;
    let other = shared.split(rt, &mut seat);
    let (mine, theirs) = join(
        rt,
        || call(rt, alloc, shared, seat),
        || call(rt, alloc, shared, other),
    );
    gather(shared, mine, theirs)
}

/// All calls in each of four threads.
fn four<R: Threads + Wait + Sync>(
    rt: &R,
    alloc: Global,
    shared: &Shared<Adder>,
    seat: Seat<Adder>,
) -> Result<Seat<Adder>, Refusal>
    requires { IsOf shared.now seat }
    ensures { IfOk result (λ s. IsOf shared.now s) }
{
    let mut seat = seat;
    let other = shared.split(rt, &mut seat);
    let (mine, theirs) = join(
        rt,
        || -> Result<Seat<Adder>, Refusal>
            requires { IsSync R.row × IsOf shared.now seat }
            ensures { IfOk result (λ s. IsOf shared.entry.now s) }
        { two(rt, alloc, shared, seat) },
        || -> Result<Seat<Adder>, Refusal>
            requires { IsSync R.row × IsOf shared.now other }
            ensures { IfOk result (λ s. IsOf shared.entry.now s) }
        { two(rt, alloc, shared, other) },
    );
    gather(shared, mine, theirs)
}

/// All calls in each of eight threads.
fn eight<R: Threads + Wait + Sync>(
    rt: &R,
    alloc: Global,
    shared: &Shared<Adder>,
    seat: Seat<Adder>,
) -> Result<Seat<Adder>, Refusal>
    requires { IsOf shared.now seat }
    ensures { IfOk result (λ s. IsOf shared.now s) }
{
    let mut seat = seat;
    let other = shared.split(rt, &mut seat);
    let (mine, theirs) = join(
        rt,
        || -> Result<Seat<Adder>, Refusal>
            requires { IsSync R.row × IsOf shared.now seat }
            ensures { IfOk result (λ s. IsOf shared.entry.now s) }
        { four(rt, alloc, shared, seat) },
        || -> Result<Seat<Adder>, Refusal>
            requires { IsSync R.row × IsOf shared.now other }
            ensures { IfOk result (λ s. IsOf shared.entry.now s) }
        { four(rt, alloc, shared, other) },
    );
    gather(shared, mine, theirs)
}

/// A further call passes the limit, a seat that has made none is joined, and all entries are handed
/// back.
fn finish<R: Wait + Abort>(rt: &R, alloc: Global, shared: &Shared<Adder>, seat: Seat<Adder>)
    requires { IsOf shared.now seat }
{
    let mut seat = seat;
    let over = Refusal::Over {
        sum: 2000,
        limit: 2000,
    };
    let further = shared.call(rt, alloc, &mut seat, Amount::new(1));
    assert_eq!(rt; further, Err(over));
    let other = shared.split(rt, &mut seat);
    shared.join(&mut seat, other);
    assert_eq!(rt; shared.close(rt, seat).count(), 2000);
}

#[test]
fn eight_threads(rt: HostRuntime) -> Result<(), Fail> {
    let alloc = rt.alloc();
    let (shared, seat) = Shared::new(alloc, Adder::new(alloc, 2000))?;
    let seat = eight(&rt, alloc, &shared, seat)
        .ok()
        .ok_or("each call is answered")?;
    finish(&rt, alloc, &shared, seat);
    Ok(())
}
