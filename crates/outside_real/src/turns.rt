//! What an operator is told of something that goes on for a while.
ghost use Rattle.std.specs.Prelude.{◌≡◌};
ghost use Rattle.outside_real.specs.Turns.{turn_between};

/// A notice that is due, of something that goes on for a while.
#[derive(Clone, Copy, Debug, PartialEq, Eq)]
pub enum Turn {
    /// It goes on from here.
    Begins,
    /// It goes on no more.
    Ends,
}

// The notice that is due where something went on or not before, and does or doesn't now: one when
// it begins, one when it ends, and none between.
pub(crate) fn notice_due(was: bool, is: bool) -> Option<Turn>
    ensures { result ≡ turn_between was is }
{
    match (was, is) {
        (false, true) => Some(Turn::Begins),
        (true, false) => Some(Turn::Ends),
        _ => None,
    }
}
