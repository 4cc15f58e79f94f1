//! Limits of the transport.

/// The most octets of a TSDU: what the longest TPKT carries behind its head, the count, the code
/// and the end mark, and three octets more.
pub const TSDU_LIMIT: usize = 65_531;

/// The most octets of a selector.
pub const SELECTOR_LIMIT: usize = 32;

/// The most octets of a TPKT, its head included.
pub const TPKT_LIMIT: usize = 65_535;

/// The most octets of a piece of a stream.
pub const PIECE_LIMIT: usize = 65_536;

// Definitions cite these limits, so that each stands here as a number too.
const _: () = prove!(TSDU_LIMIT == 65_531);

const _: () = prove!(SELECTOR_LIMIT == 32);

const _: () = prove!(TPKT_LIMIT == 65_535);

const _: () = prove!(PIECE_LIMIT == 65_536);
