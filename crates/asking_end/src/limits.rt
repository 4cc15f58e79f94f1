//! Limits of requests.

/// The highest number of a request, which has the most octets.
pub const LAST_INVOKE: u32 = 2147483647;

/// The most octets of a request, which is what the calling end offers for a PDU.
pub const REQUEST_LIMIT: usize = 65000;

// Definitions cite these limits, so that each stands here as a number too.
const _: () = prove!(LAST_INVOKE == 2_147_483_647);

const _: () = prove!(REQUEST_LIMIT == 65_000);
