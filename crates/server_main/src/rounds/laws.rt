//! What holds of all rounds of a server.
ghost use Rattle.server_main.specs.Run.Gathering.{SharedNode};
ghost use Rattle.server_main.specs.Run.Rounds.{ServingState, ServesOn};
ghost use Rattle.server_main.specs.declared.run.serving.ServingEnd.{ServingEnd};
ghost use Rattle.share_turn.specs.Public.{IsOf};
ghost use Rattle.server_main.specs.Rounds.Rounds.{RoundsDone};

use outside::links::Link;

/// Whatever rounds a server makes up to its end, its own seat asks for orders alone, at most once
/// for each call of accept; the plant has the lines of all orders that the seat was given, unless a
/// write failed; the links that were turned away were closed and retired with nothing sent, and as
/// many jobs were started as other links were given.
pub fn rounds_are_done<L: Link, S, C>()
    ensures { (node : SharedNode) (before after : ServingState L S C) (end : ServingEnd)
        → IsOf node before.now.seat → ServesOn L.told node before after end
        → RoundsDone node before after end }
{}
