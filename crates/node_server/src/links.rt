//! A connection and its link: what the link gives is taken in, and what waits is sent.

mod laws;
mod link_server;
mod receiving;
mod sending;
mod serving;
mod telling;
mod turning;

pub use laws::{fresh_seats_serve, served_links_are_closed};
pub use receiving::{Intake, PIECE, receive};
pub use sending::{SendsEnd, send_pending};
pub use serving::serve_connection;
