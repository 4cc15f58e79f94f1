//! The clocks of the system, read every 100 milliseconds.
ghost use Rattle.std.specs.Prelude.{⊤, ◌≡◌, ◌-◌, ◌/◌, IfSome};
ghost use Rattle.std.specs.Time.{instant_nanos, system_time_nanos};

use crate::notices::Notices;
use crate::steady_clock::{ClockNotice, Clocks};
use std::io::Eprint;
use std::thread;
use std::time::{self, Duration, Instant, SystemTime, UNIX_EPOCH};

/// How long a reading waits that isn't the first, in milliseconds.
const PACE: u64 = 100;

const _: () = prove!(PACE == 100);

/// The clocks of the system. A time of day before 1970 can't be read.
#[derive(Drop)]
pub struct SystemClocks<R> {
    runtime: R,
    /// When it was made; none where the monotonic clock couldn't be read.
    made: Option<Instant>,
}

impl<R: time::Clock> SystemClocks<R> {
    /// The clocks of this runtime.
    pub fn new(runtime: R) -> Self {
        let made = Instant::now(&runtime).ok();
        SystemClocks { runtime, made }
    }
}

impl<R: time::Clock + Eprint + Copy> Clocks for SystemClocks<R> {
    // Nothing is known of either.
    ghost days = { λ clocks outcome. ⊤ };

    ghost runs = { λ clocks outcome. ⊤ };

    fn time_of_day(&self) -> Option<u64> {
        let now = SystemTime::now(&self.runtime).ok()?;
        millis_since_1970(now)
    }

    fn run(&self) -> Option<u64> {
        let now = Instant::now(&self.runtime).ok()?;
        millis_between(self.made?, now)
    }

    fn pause(&self) {
        thread::sleep(&self.runtime, Duration::from_millis(PACE));
    }

    fn tell(&self, notice: ClockNotice) {
        let notices = Notices::new(self.runtime);
        match notice {
            ClockNotice::Unread => notices.tell("the clock can't be read"),
            ClockNotice::Leapt => {
                notices.tell("the time of day has leapt; the clock goes on as before");
            }
            ClockNotice::Agrees => notices.tell("the time of day agrees with the clock again"),
        }
    }
}

// How long it was from one moment to another, in whole milliseconds.
pub(crate) fn millis_between(earlier: Instant, later: Instant) -> Option<u64>
    ensures { IfSome result (λ millis.
        millis ≡ (instant_nanos later - instant_nanos earlier) / 1_000_000) }
{
    u64::try_from(later.duration_since(earlier).as_millis()).ok()
}

// The time of day in whole milliseconds since 1970; none where it is before.
fn millis_since_1970(now: SystemTime) -> Option<u64>
    ensures { IfSome result (λ millis.
        millis ≡ (system_time_nanos now - system_time_nanos UNIX_EPOCH) / 1_000_000) }
{
    let since = now.duration_since(UNIX_EPOCH).ok()?;
    u64::try_from(since.as_millis()).ok()
}
