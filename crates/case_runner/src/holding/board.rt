//! What has happened so far to the objects of one outside, which lie in several threads.

use std::sync::atomic::{AtomicU64, Ordering};

/// What standard input waits for, and where links meet.
#[derive(Clone, Copy, Drop)]
pub struct Plan {
    /// So many links must be closed before standard input comes.
    pub links: u64,
    /// So many calls of accept must have ended before it.
    pub accepts: u64,
    /// So many readings of the clock must have come or failed before it.
    pub readings: u64,
    /// The number, from 0, of the recv at which each link waits until all of them have come to it.
    pub meeting: Option<u64>,
}

/// What an object notes.
#[derive(Clone, Copy)]
pub(crate) enum Event {
    /// A call of accept has ended.
    Accept,
    /// The listener failed: no more links will be served.
    FailedAccept,
    /// A link was closed.
    Close,
    /// A reading of the clock has come or failed.
    Reading,
    /// A link has come to where links meet.
    Meeting,
    /// A link waited for the others in vain.
    Missed,
}

/// How often each has happened so far.
#[derive(Drop)]
pub(crate) struct Board {
    plan: Plan,
    accepts: AtomicU64,
    failed: AtomicU64,
    met: AtomicU64,
    missed: AtomicU64,
    closed: AtomicU64,
    readings: AtomicU64,
}

impl Board {
    pub(crate) fn new(plan: Plan) -> Board {
        Board {
            plan,
            accepts: AtomicU64::new(0),
            failed: AtomicU64::new(0),
            met: AtomicU64::new(0),
            missed: AtomicU64::new(0),
            closed: AtomicU64::new(0),
            readings: AtomicU64::new(0),
        }
    }

    fn count(&self, event: Event) -> &AtomicU64 {
        match event {
            Event::Accept => &self.accepts,
            Event::FailedAccept => &self.failed,
            Event::Close => &self.closed,
            Event::Reading => &self.readings,
            Event::Meeting => &self.met,
            Event::Missed => &self.missed,
        }
    }

    pub(crate) fn note(&self, event: Event) {
        self.count(event).fetch_add(1, Ordering::SeqCst);
    }

    /// Whether a link waited for the others in vain.
    pub(crate) fn is_missed(&self) -> bool {
        self.missed.load(Ordering::SeqCst) > 0
    }

    /// Whether links meet at the recv of this number.
    pub(crate) fn is_meeting(&self, number: u64) -> bool {
        self.plan.meeting == Some(number)
    }

    /// Whether all links have come to where they meet.
    pub(crate) fn have_met(&self) -> bool {
        self.met.load(Ordering::SeqCst) >= self.plan.links
    }

    /// Whether all has happened that standard input waits for, or can't happen any more.
    pub(crate) fn is_served(&self) -> bool {
        self.failed.load(Ordering::SeqCst) > 0
            || (self.closed.load(Ordering::SeqCst) >= self.plan.links
                && self.accepts.load(Ordering::SeqCst) >= self.plan.accepts
                && self.readings.load(Ordering::SeqCst) >= self.plan.readings)
    }
}
