//! Which line of a snapshot may follow which.
ghost use Rattle.std.specs.Prelude.{◌≡◌};
ghost use Rattle.tase_resume.specs.Snapshots as own;
ghost use Rattle.tase_resume.specs.Turns as turns;
ghost use Rattle.tase_views.specs.Outcomes as outcomes;

use tase_views::{Answer, DeviceTag, Event, EventKind, Reply, ReplyKind};

/// The place of a line: its part of a snapshot, and the number of what it tells.
#[derive(Clone, Copy)]
pub struct LineTurn {
    pub part: u8,
    pub number: u32,
}

/// Where a snapshot stands: the place of its last line outside an association; inside one, whether
/// it has defined a data set.
#[derive(Clone, Copy)]
pub struct Standing {
    pub last: Option<LineTurn>,
    pub defining: Option<bool>,
}

/// The place of a line that tells this event, if it may begin one.
fn turn_of(event: &Event) -> Option<LineTurn>
    ensures { result ≡ own.turn_of event.now }
{
    match event.kind() {
        EventKind::Table { peer, variant } => table_turn(*peer, *variant),
        EventKind::Update { point, .. } => turn_at(1, *point),
        EventKind::Tag { device, tag } => tag_turn(*device, tag),
        EventKind::Tick { .. } => turn_at(3, 0),
        EventKind::Open { peer } => turn_at(4, *peer),
        _ => None,
    }
}

fn turn_at(part: u8, number: u32) -> Option<LineTurn>
    ensures { result ≡ own.turn_at part number }
{
    Some(LineTurn { part, number })
}

/// The place of the line that tells of a peer's table, unless it is the first one.
fn table_turn(peer: u32, variant: u32) -> Option<LineTurn>
    ensures { result ≡ turns.table_turn peer variant }
{
    if variant == 0 { None } else { turn_at(0, peer) }
}

/// The place of the line that tells of a device's tag, if it has a tag or a reason.
fn tag_turn(device: u32, tag: &DeviceTag) -> Option<LineTurn>
    ensures { result ≡ turns.tag_turn device tag.now }
{
    if tag.tag() == 0 && tag.reason().as_slice().is_empty() {
        None
    } else {
        turn_at(2, device)
    }
}

/// Whether a line's place is above that of the last one.
fn is_above(last: Option<LineTurn>, turn: LineTurn) -> bool
    ensures { result ≡ own.is_above last turn }
{
    match last {
        None => true,
        Some(last) => {
            last.part < turn.part || last.part == turn.part && last.number < turn.number
        }
    }
}

/// Where a line that isn't inside an association leaves a snapshot; none where it may not follow.
fn behind_outside(last: Option<LineTurn>, event: &Event) -> Option<Standing>
    ensures { result ≡ turns.behind_outside last event.now }
{
    let turn = turn_of(event)?;
    if !is_above(last, turn) {
        return None;
    }
    Some(Standing {
        last: Some(turn),
        defining: begun_by(event),
    })
}

/// Inside an association, whether a line has defined a data set, where it has opened one.
fn begun_by(event: &Event) -> Option<bool>
    ensures { result ≡ turns.begun_by event.now }
{
    match event.kind() {
        EventKind::Open { .. } => Some(false),
        _ => None,
    }
}

/// Where a line leaves a snapshot, by whether its event is answered as the definition of a data set
/// is; none where it may not follow.
pub fn standing_behind(before: Standing, event: &Event, defined: bool) -> Option<Standing>
    ensures { result ≡ turns.standing_behind before event.now defined }
{
    match before.defining {
        None => behind_outside(before.last, event),
        Some(some) => behind_inside(before.last, defined, some && is_close(event)),
    }
}

/// Where a line inside an association leaves a snapshot; none where it may not follow.
fn behind_inside(last: Option<LineTurn>, defined: bool, may_close: bool) -> Option<Standing>
    ensures { result ≡ turns.behind_inside last defined may_close }
{
    if defined {
        Some(Standing {
            last,
            defining: Some(true),
        })
    } else if may_close {
        Some(Standing {
            last,
            defining: None,
        })
    } else {
        None
    }
}

/// Where a line leaves a snapshot, of two ways: by whether its event is answered as the definition
/// of a data set is; none where it is refused.
pub fn next_of(
    taken: Option<bool>,
    defined: Option<Standing>,
    other: Option<Standing>,
) -> Option<Standing>
    ensures { result ≡ turns.next_of taken defined other }
{
    match taken {
        Some(true) => defined,
        Some(false) => other,
        None => None,
    }
}

/// Whether an event is a close.
fn is_close(event: &Event) -> bool
    ensures { result ≡ outcomes.is_close event.now }
{
    match event.kind() {
        EventKind::Close => true,
        _ => false,
    }
}

/// Whether an answer is that to a definition that was made.
pub fn is_defined(answer: &Answer) -> bool
    ensures { result ≡ own.is_defined answer.now }
{
    match answer {
        Answer::Reply(reply) => replies_defined(reply),
        _ => false,
    }
}

fn replies_defined(reply: &Reply) -> bool
    ensures { result ≡ turns.replies_defined reply.now }
{
    match reply.kind() {
        ReplyKind::Defined => true,
        _ => false,
    }
}
