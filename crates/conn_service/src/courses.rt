//! The whole course of a connection over the history of a node: which events its seat has, and
//! which octets its peer is sent.

mod laws;

pub use laws::{connections_leave, connections_serve};
