//! The seats under which jobs ran, and how these ended.
ghost use Rattle.std.specs.Prelude.{◌≡◌, ◌+◌, ◌<◌, ◌++◌, ◌∷◌, [], OnOk, OnErr};

use node_server::connection::ConnEnd;
use node_server::{FeedEnd, TickEnd};
use std::alloc::{AllocError, Global};
use std::marker::Model;

/// The number of the seat by which a feed was told to the node, and how that ended.
#[derive(Clone, Copy, Debug)]
pub struct FeedSeat {
    pub seat: u64,
    pub end: FeedEnd,
}

/// The number of the seat by which a clock was told to the node, and how that ended.
#[derive(Clone, Copy, Debug)]
pub struct TickSeat {
    pub seat: u64,
    pub end: TickEnd,
}

/// The number of the seat by which a link was served, and how its connection ended.
#[derive(Clone, Copy, Debug)]
pub struct LinkSeat {
    pub seat: u64,
    pub end: ConnEnd,
}

/// The seats of links, in the order in which these were retired: none for a link that no job
/// served. There is room for some more, which take no memory.
#[derive(Drop)]
pub struct LinkSeats {
    seats: Vec<Option<LinkSeat>>,
    rooms: usize,
}

impl Model for LinkSeats {
    ghost use Rattle.std.specs.Prelude.{◌+◌, ◌≤◌, vec_len, vec_capacity};
    ghost use Rattle.server_main.specs.Run.Retiring.{LinksNoted};

    ghost Value = { LinksNoted };

    ghost view = { λ s. record { seats = s.seats.items; rooms = s.rooms } };

    ghost invariant = { λ s. vec_len s.seats + s.rooms ≤ vec_capacity s.seats };
}

impl LinkSeats {
    /// None yet, and no room. It takes no memory.
    pub fn new(alloc: Global) -> LinkSeats
        ensures { result ≡ record { seats = []; rooms = 0 } }
    {
        LinkSeats {
            seats: Vec::new(alloc),
            rooms: 0,
        }
    }

    /// Takes room for one more. After want of memory nothing has changed.
    pub fn take_room(&mut self) -> Result<(), AllocError>
        ensures ok { OnOk result (self.new ≡ record self.old { rooms = self.old.rooms + 1 }) }
        ensures err { OnErr result (self.new ≡ self.old) }
    {
        let Some(rooms) = self.rooms.checked_add(1) else {
            return Err(AllocError);
        };
        self.seats.reserve(rooms)?;
        self.rooms = rooms;
        Ok(())
    }

    /// Gives room for one back.
    pub fn give_room(&mut self)
        requires { 0 < self.old.rooms }
        ensures seats { self.new.seats ≡ self.old.seats }
        ensures rooms { self.new.rooms + 1 ≡ self.old.rooms }
    {
        self.rooms -= 1;
    }

    /// Notes the seat of the link that was retired last.
    pub fn note(&mut self, seat: Option<LinkSeat>)
        requires { 0 < self.old.rooms }
        ensures seats { self.new.seats ≡ self.old.seats ++ seat ∷ [] }
        ensures rooms { self.new.rooms + 1 ≡ self.old.rooms }
    {
        self.seats.push(seat).unwrap();
        self.rooms -= 1;
    }

    /// All of them, in the order in which their links were retired.
    pub fn seats(&self) -> &[Option<LinkSeat>]
        ensures { result.now ≡ self.now.seats }
    {
        self.seats.as_slice()
    }
}

/// The seats of a server: its own number, those of the feed and of the clock where their jobs ran,
/// and those of the links.
#[derive(Drop)]
pub struct Seats {
    pub own: u64,
    pub feed: Option<FeedSeat>,
    pub ticks: Option<TickSeat>,
    pub links: LinkSeats,
}
