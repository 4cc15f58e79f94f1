//! How the run of an asking end ends.
use crate::AskEnd;

/// How the run of an asking end ends.
#[derive(Clone, Copy, Debug, PartialEq, Eq)]
pub enum RunEnd<E> {
    /// The asking end has ended so; or its link gave no more.
    Ended(AskEnd<E>),
    /// The link has failed.
    LinkFault,
    /// The sink has failed.
    SinkFault,
}
