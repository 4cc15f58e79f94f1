//! What accepts connections as a listener.
ghost use Rattle.std.specs.Prelude.{◌≡◌, ℕ};
ghost use Rattle.outside.specs.Links.Listeners.{ListenerTold, AcceptsLink, MayRetire};
ghost use Rattle.outside.specs.Links.Listeners.{RetiredIsWithin, link_given, is_failed_accept};
ghost use Rattle.outside.specs.Links.Listeners.{with_retired};
ghost use Rattle.outside_real.specs.AcceptAttempts.{Accepted};
ghost use Rattle.outside_real.specs.Links.{listener_told, link_told};

use crate::gate::{AcceptAttempt, Arrival, accept_twice};
use crate::link::RealLink;
use outside::count_fault;
use outside::links::{Accept, Listener};
use std::marker::Model;

/// A listener that tells its faults alone. It has no end. A link that is retired is dropped, which
/// closes its connection.
#[derive(Drop)]
pub struct RealListener<T> {
    gate: T,
    faults: u64,
}

// What contracts see: what accepts, and the count of faults.
impl<T> Model for RealListener<T> {
    ghost Value = { T × ℕ };

    ghost view = { λ s. (s.gate, s.faults) };
}

impl<T> RealListener<T> {
    /// A listener with no faults so far.
    pub fn new(gate: T) -> Self
        ensures { result ≡ (gate, 0) }
    {
        RealListener { gate, faults: 0 }
    }

    /// What accepts.
    pub fn gate(&self) -> &T
        ensures { result.now ≡ self.now.0 }
    {
        &self.gate
    }
}

impl<T: AcceptAttempt> Listener for RealListener<T> {
    type Link = RealLink<T::Socket>;

    ghost told = { λ s. listener_told s.1 };

    fn accept(&mut self) -> Accept<RealLink<T::Socket>>
        ensures accepts { AcceptsLink (listener_told self.old.1) (listener_told self.new.1)
            (link_given (λ link. link_told link.is_closed link.faults) result)
            (is_failed_accept result) }
        ensures within { RetiredIsWithin (listener_told self.new.1) }
        ensures attempts { Accepted T.accepts T.waits self.old.0 self.new.0 result }
    {
        match accept_twice(&mut self.gate) {
            Arrival::Came(socket) => Accept::Link(RealLink::new(socket)),
            Arrival::NotYet => Accept::Idle,
            Arrival::Failed => {
                self.faults = count_fault(self.faults, true);
                Accept::Failed
            }
        }
    }

    fn retire(&mut self, link: RealLink<T::Socket>) {
        drop(link);
    }

    fn faults(&self) -> u64 {
        self.faults
    }
}
