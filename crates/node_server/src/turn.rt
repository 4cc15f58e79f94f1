//! A TASE.2 node as the one object that threads share through one turn: what `share_turn` proves of
//! any object holds of the node, over one history for all threads.

mod turn_node;

pub use turn_node::{NodeSetup, TurnNode, share, threads_may_share};
