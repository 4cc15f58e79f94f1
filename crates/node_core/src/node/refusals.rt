//! Why an event is refused.
ghost use Rattle.std.specs.Prelude.{◌≡◌, [], ◌∷◌};
ghost use Rattle.tase_views.specs.Moves.{sort_of};
ghost use Rattle.tase_views.specs.Outcomes as causes;

use bilateral::Centre;
use sbo_device::{Key, MOMENT_LIMIT};
use tase_points::PointValue;
use tase_views::{Event, EventKind, StepFault, has_slot};

/// The first refusal, if there is one.
pub fn first_refusal(
    stopped: Option<StepFault>,
    seated: Option<StepFault>,
    named: Option<StepFault>,
    timed: Option<StepFault>,
    heavy: Option<StepFault>,
) -> Option<StepFault>
    ensures { result ≡ causes.first_refusal (stopped ∷ seated ∷ named ∷ timed
        ∷ heavy ∷ []) }
{
    stopped.or(seated).or(named).or(timed).or(heavy)
}

/// Refuses an open of a seat with this association, and what needs one of a seat without.
pub fn seat_refusal(found: Option<Key>, event: &Event) -> Option<StepFault>
    ensures { result ≡ causes.seat_refusal found event.now }
{
    match event.kind() {
        EventKind::Open { .. } => found.map(|_| StepFault::Already),
        EventKind::Request { .. } | EventKind::Take | EventKind::Close => no_association(found),
        EventKind::Update { .. }
        | EventKind::Table { .. }
        | EventKind::Tag { .. }
        | EventKind::Tick { .. }
        | EventKind::Ask { .. }
        | EventKind::TakeOrders
        | EventKind::Stop => None,
    }
}

fn no_association(found: Option<Key>) -> Option<StepFault>
    ensures { result ≡ causes.seat_refusal found EventKind.Take }
{
    if found.is_some() {
        None
    } else {
        Some(StepFault::NoAssociation)
    }
}

/// Refuses a peer, a point, a device, a table or a transfer set that the centre hasn't, and a value
/// of another kind than its point's.
pub fn name_refusal(centre: &Centre, event: &Event) -> Option<StepFault>
    ensures { result ≡ causes.name_refusal centre.now event.now }
{
    let known = match event.kind() {
        EventKind::Open { peer } => *peer < centre.peers(),
        EventKind::Update { point, value } => is_known(centre, *point, value),
        EventKind::Table { peer, variant } => has_table(centre, *peer, *variant),
        EventKind::Tag { device, .. } => *device < centre.devices(),
        EventKind::Ask { peer, slot } => has_slot(centre, *peer, *slot),
        _ => true,
    };
    if known {
        None
    } else {
        Some(StepFault::UnknownName)
    }
}

/// Refuses a tick to a moment out of range, and one that isn't above the last one.
pub fn clock_refusal(last: u64, event: &Event) -> Option<StepFault>
    ensures { result ≡ causes.clock_refusal_by last (sort_of event.now) }
{
    let EventKind::Tick { now } = event.kind() else {
        return None;
    };
    if *now >= MOMENT_LIMIT {
        Some(StepFault::ClockRange)
    } else if *now <= last {
        Some(StepFault::Backward { last })
    } else {
        None
    }
}

/// Whether a point is the centre's, and a value of its kind.
fn is_known(centre: &Centre, point: u32, value: &PointValue) -> bool
    ensures known { result ≡ causes.is_known centre.now point value.now }
{
    point < centre.points() && value.body().kind().is_same(centre.point(point).kind)
}

/// Whether a peer is the centre's, and has a table with this number.
fn has_table(centre: &Centre, peer: u32, variant: u32) -> bool
    ensures { result ≡ causes.has_table centre.now peer variant }
{
    peer < centre.peers() && variant < centre.variants(peer)
}
