//! What holds of every run, whatever the outside tells.
ghost use Rattle.std.specs.Prelude.{ℕ, Some};
ghost use Rattle.outside.specs.Names.Outside.{OutsideTold};
ghost use Rattle.commands.specs.declared.io.status.Status.{Status};
ghost use Rattle.commands.specs.Words.Words.{Task};
ghost use Rattle.tase_tool.specs.Running.{RunsTask};
ghost use Rattle.tase_tool.specs.Statuses.{MayEndWith};

/// A command that reads texts ends with one of the statuses that it may have, whether the outside
/// tells of its inputs or not: a replay and a load with 0, 3, 4, 5 or 7, a listing and a decoding
/// with 0, 3, 4 or 7, a verification with 0, 3, 4, 6 or 7.
pub fn commands_end_so()
    ensures { (task : Task) (before after : OutsideTold) (refused refused_after : ℕ)
        (status : Status) → RunsTask (Some task) before after refused refused_after status
        → MayEndWith task status }
{}
