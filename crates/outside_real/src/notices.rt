//! What an operator is told on standard error.

use httpdate::HttpDate;
use libc::net::{POLLOUT, poll};
use libc::types::pollfd;
use std::fmt::Display;
use std::io::Eprint;
use std::time::{Clock, SystemTime, UNIX_EPOCH};

/// The descriptor of standard error.
const STANDARD_ERROR: i32 = 2;

/// Tells an operator what happens, on standard error, a line each with its moment (RFC 9110's
/// date, in UTC). It never waits: a line for which standard error has no room now is left out.
#[derive(Clone, Copy, Drop)]
pub struct Notices<R> {
    runtime: R,
}

impl<R: Eprint + Clock> Notices<R> {
    /// Notices over this runtime.
    pub fn new(runtime: R) -> Notices<R> {
        Notices { runtime }
    }

    /// Tells what happens, in less than 4,000 octets.
    pub fn tell<D: Display + Drop>(&self, what: D) {
        if !has_room() {
            return;
        }
        // A line that can't be written is left out too.
        let _result = match moment(&self.runtime) {
            Some(date) => eprintln!(self.runtime; "{date}: {what}"),
            None => eprintln!(self.runtime; "{what}"),
        };
    }

    /// Shows a line of less than 4,000 octets as it is, without a moment.
    pub fn show<D: Display + Drop>(&self, line: D) {
        if has_room() {
            let _result = eprintln!(self.runtime; "{line}");
        }
    }
}

/// How many octets of a text from outside a notice has at most.
const MOST_OCTETS: usize = 1000;

const _: () = prove!(MOST_OCTETS == 1_000);

/// The text, where it is short enough for a notice.
pub(crate) fn short(text: &str) -> &str {
    if text.len() > MOST_OCTETS {
        return "a name that is too long";
    }
    text
}

// Whether a short line can be written to standard error now: a pipe has room for 4,096 octets then.
fn has_room() -> bool {
    let mut errors = [pollfd {
        fd: STANDARD_ERROR,
        events: POLLOUT,
        revents: 0,
    }];
    poll(&mut errors, 0) > 0
}

// The date that the system's clock shows.
fn moment<R: Clock>(runtime: &R) -> Option<HttpDate> {
    let since = SystemTime::now(runtime)
        .ok()?
        .duration_since(UNIX_EPOCH)
        .ok()?;
    HttpDate::from_unix_secs(since.as_secs()).ok()
}
