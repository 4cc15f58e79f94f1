//! How many descriptors the process may have.

use crate::notices::Notices;
use libc::types::rlimit;
use libc::{RLIMIT_NOFILE, getrlimit};
use std::io::Eprint;
use std::time::Clock;

/// So many descriptors do for all connections that a server serves at once, and its files.
const DESCRIPTORS_WANTED: u64 = 1100;

const _: () = prove!(DESCRIPTORS_WANTED == 1100);

// Tells an operator where the process may have fewer descriptors. It can't raise the limit: the kit
// has no call for that.
pub(crate) fn tell_few_descriptors<R: Eprint + Clock>(notices: &Notices<R>) {
    let mut limit = rlimit {
        rlim_cur: 0,
        rlim_max: 0,
    };
    if getrlimit(RLIMIT_NOFILE, &mut limit) < 0 {
        return;
    }
    let allowed = limit.rlim_cur;
    if allowed < DESCRIPTORS_WANTED {
        notices.tell(format_args!("at most {allowed} descriptors may be had (ulimit -n)"));
    }
}
