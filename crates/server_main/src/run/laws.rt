//! What holds of all that was gathered.
ghost use Rattle.std.specs.Prelude.{List};
ghost use Rattle.share_turn.specs.Public.{IsOf};
ghost use Rattle.node_server.specs.NodeCalls.{NodeSeat};
ghost use Rattle.server_main.specs.Run.Gathering.{SharedNode, ServedLink, FeedRun, TicksRun};
ghost use Rattle.server_main.specs.Run.Gathering.{GathersJobs, ClaimsJobs};
ghost use Rattle.node_server.specs.declared.jobs.parts.JobParts.{JobParts};
ghost use Rattle.server_main.specs.Run.Accepting.{Accepting, AcceptsOnce};
ghost use Rattle.server_main.specs.Run.Serving.{IsServing};
ghost use Rattle.server_main.specs.declared.run.accepting.Accepted.{Accepted};

use outside::links::Link;

/// A seat that gathered the feed's job, then the clock's, then those of links claims all their
/// numbers.
pub fn jobs_are_claimed()
    ensures { (node : SharedNode) (own after : NodeSeat) (feed : FeedRun) (ticks : TicksRun)
        (served : List ServedLink) → IsOf node own → GathersJobs node own after feed ticks served
        → ClaimsJobs node own after feed ticks served }
{}

/// Whatever comes of a call of accept, behind the jobs that were started first those are pending
/// that serve new links: with room for the seats of all of them, and their links out. So what was
/// started can be gathered.
pub fn accepting_keeps_serving<L: Link, S, C>()
    ensures { (node : SharedNode) (first : List (JobParts L S C)) (before after : Accepting L S C)
        (end : Accepted) → IsServing L.told node first before
        → AcceptsOnce L.told node before after end → IsServing L.told node first after }
{}
