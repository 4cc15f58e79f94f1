//! An event of an association, with its answer.
use tase_views::{Answer, Event};

/// An event of an association, and what the node answers it.
#[derive(Drop)]
pub struct AnsweredEvent {
    pub event: Event,
    pub answer: Answer,
}
