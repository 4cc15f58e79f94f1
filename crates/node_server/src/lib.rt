//! The jobs of a threaded server: what its threads do with seats of one shared node.
#![tactic(auto)]

mod asking;
mod feed_end;
mod feed_reader;
mod feeding;
pub mod jobs;
pub mod links;
pub mod seats;
mod ticking;
pub mod turn;

pub use conn_service::{connection, node};
pub use feed_end::FeedEnd;
pub use feed_reader::{FeedReader, FeedSays, LINE_LIMIT};
pub use feeding::feed_node;
pub use ticking::{TickEnd, tick_node};
