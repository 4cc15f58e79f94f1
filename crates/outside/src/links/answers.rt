//! The answers of a link in memory, which are there for clauses alone. The last one knows those
//! before it, and each knows what the other node had to say, by snapshots: these take no memory, so
//! a link may be asked without end.
ghost use Rattle.std.specs.Prelude.{◌≡◌, [], ◌∷◌, ◌++◌};
ghost use Rattle.outside.specs.Links.Answered.{answer_given, answers_given};

use crate::links::link::Recv;
use crate::links::script::Script;
use std::snapshot::Snapshot;

/// An answer of recv: how it ended; what was left of the script before it, and how many octets
/// fitted; how many octets were sent before it; whether the call directly before it was a send that
/// took nothing.
#[derive(Drop)]
pub(crate) struct Answer {
    pub(crate) end: Recv,
    pub(crate) script: Snapshot<Script>,
    pub(crate) room: usize,
    pub(crate) sent: usize,
    pub(crate) after_nothing: bool,
}

/// All answers so far.
#[derive(Drop)]
pub(crate) enum Answers {
    NoneYet,
    /// These, and one more.
    More(Snapshot<Answers>, Answer),
}

impl Answers {
    /// The answers with one more.
    pub(crate) fn with(&self, answer: Answer) -> Answers
        ensures { answers_given result ≡ answers_given self.now ++ answer_given answer ∷ [] }
    {
        Answers::More(Snapshot::of(self), answer)
    }
}
