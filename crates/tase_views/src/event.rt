ghost use Rattle.std.specs.Prelude.{◌≡◌};

use crate::call::Call;
use crate::tag::DeviceTag;
use std::alloc::AllocError;
use std::marker::Model;
use tase_points::PointValue;

/// What may happen to a node.
#[derive(Debug, Drop)]
pub enum EventKind {
    /// A peer, by its number, opens an association.
    Open { peer: u32 },
    /// The peer of an open association asks something.
    Request { call: Call },
    /// The peer of an open association takes the reports that were made for it.
    Take,
    /// An open association ends.
    Close,
    /// The centre's own systems give a point, by its number, a value.
    Update { point: u32, value: PointValue },
    /// The operator chooses a table of a peer, by their numbers: it comes into force at once where
    /// the peer has no open association, else when the last of them is closed.
    Table { peer: u32, variant: u32 },
    /// The operator tags a device, by its number.
    Tag { device: u32, tag: DeviceTag },
    /// The clock stands at this moment, in milliseconds since 1970.
    Tick { now: u64 },
    /// The operator asks for a report of a transfer set of a peer, by their numbers from 0.
    Ask { peer: u32, slot: u32 },
    /// The plant takes the orders that were given since it last took them.
    TakeOrders,
    /// The node stops: afterwards it takes closes alone.
    Stop,
}

/// An event of a node: an [`EventKind`].
#[derive(Debug, Drop)]
pub struct Event {
    kind: EventKind,
}

impl Model for Event {
    ghost use Rattle.tase_views.specs.declared.event.EventKind.{EventKind};

    ghost Value = { EventKind };

    ghost use Rattle.tase_views.specs.EventCode.{event_code};

    ghost coded = { event_code };

    ghost view = { λ event. event.kind };
}

impl Event {
    pub fn new(kind: EventKind) -> Event
        ensures { result ≡ kind }
    {
        Event { kind }
    }

    pub fn kind(&self) -> &EventKind
        ensures { result.now ≡ self.now }
    {
        &self.kind
    }
}

impl Clone for Event {
    ghost is_clone = { λ event copy. copy ≡ event };

    fn clone(&self) -> Result<Event, AllocError> {
        let kind = match &self.kind {
            EventKind::Open { peer } => EventKind::Open { peer: *peer },
            EventKind::Request { call } => EventKind::Request {
                call: call.clone()?,
            },
            EventKind::Take => EventKind::Take,
            EventKind::Close => EventKind::Close,
            EventKind::Update { point, value } => EventKind::Update {
                point: *point,
                value: *value,
            },
            EventKind::Table { peer, variant } => EventKind::Table {
                peer: *peer,
                variant: *variant,
            },
            EventKind::Tag { device, tag } => EventKind::Tag {
                device: *device,
                tag: tag.clone()?,
            },
            EventKind::Tick { now } => EventKind::Tick { now: *now },
            EventKind::Ask { peer, slot } => EventKind::Ask {
                peer: *peer,
                slot: *slot,
            },
            EventKind::TakeOrders => EventKind::TakeOrders,
            EventKind::Stop => EventKind::Stop,
        };
        Ok(Event { kind })
    }
}

/// An event of the history with the seat that it is of. A peer's seat is the number of its
/// connection; the centre's own updates are of seat 0.
#[derive(Debug, Drop)]
pub struct Entry {
    pub who: u64,
    pub event: Event,
}

impl Clone for Entry {
    ghost is_clone = { λ entry copy. copy ≡ entry };

    fn clone(&self) -> Result<Entry, AllocError> {
        Ok(Entry {
            who: self.who,
            event: self.event.clone()?,
        })
    }
}
