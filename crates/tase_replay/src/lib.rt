//! Scenarios: a text whose lines are the events of a node, played in order, with what the peers are
//! answered and sent printed.
//!
//! Words are separated by spaces; empty lines and lines that begin with `#` are skipped. A line is
//! one of
//!
//! - `open W KEY`: the peer with this key opens an association at seat W, a number from 1 to
//!   4,294,967,295;
//! - `say W CALL`: the peer of seat W asks something, and `reply W REPLY` is printed;
//! - `take W`: the peer of seat W takes its reports, and `report W REPORT` is printed for each;
//! - `close W`: the association of seat W ends;
//! - `update NAME BODY FLAGS SECONDS MILLIS`: the centre's own systems give a point a value. BODY
//!   is `s` and a state, `d` and a discrete value or `r` and the eight hexadecimal digits of a real
//!   one; FLAGS are two such digits;
//! - `tag NAME TAG vREASON`: the centre's operator tags a device, with a reason as escaped text;
//! - `orders`: the plant takes its orders, and `order NAME VALUE` is printed for each;
//! - `stop`: the node stops; afterwards only `close` lines and lines of links are taken;
//! - `in W HEX`: the link of seat W gives 1 to 16,384 octets, as pairs of hexadecimal digits in
//!   either case;
//! - `idle W`: it gives nothing for now;
//! - `end W`: it gives no more.
//!
//! The last three are the lines of links: behind each `out W HEX` is printed where the link's peer
//! is sent octets, and `ended W END` where its connection has ended. A seat is used by a link or by
//! other lines, not by both.
//!
//! The play ends at the first bad line, and at the first event with which the history would weigh
//! more octets than its node allows; the command's `--limit N` says how many these are.
#![tactic(auto)]

mod entries;
mod laws;
mod links;
mod playing;
mod printing;

pub use laws::{calls_are_spelled, lines_are_taken_in_order};
pub use playing::{ReplayEnd, replay};
