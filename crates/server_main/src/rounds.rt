//! What all rounds of a server did together.

mod laws;

pub use laws::rounds_are_done;
