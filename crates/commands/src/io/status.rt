//! How a command ended.
ghost use Rattle.std.specs.Prelude.{◌≡◌};

use std::process::ExitCode;

/// How a command ended; its number is the exit status of the program.
#[derive(Clone, Copy, Debug, PartialEq, Eq)]
pub enum Status {
    /// 0: all inputs were read to their ends and all output is whole.
    Done,
    /// 2: the words are no command.
    Usage,
    /// 3: an input has a bad line or is too long, or its octets break a rule; the last line printed
    /// says which.
    Input,
    /// 4: an object outside failed, or couldn't be opened.
    Outside,
    /// 5: an event was refused since the history would have weighed more than its limit; the last
    /// line printed has both numbers.
    Full,
    /// 6: a check found a difference, or what a node offers differs from a table; the last lines
    /// printed say how.
    Differs,
    /// 7: memory ran out.
    Memory,
    /// 8: a client has ended before its script was played, or a listing before all was listed, by
    /// what its peer gave; the last line printed says how.
    Peer,
}

impl Status {
    ghost use Rattle.commands.specs.Io.Statuses.{code_of};

    /// The exit status.
    pub fn code(self) -> u8
        ensures { result ≡ code_of self }
    {
        match self {
            Status::Done => 0,
            Status::Usage => 2,
            Status::Input => 3,
            Status::Outside => 4,
            Status::Full => 5,
            Status::Differs => 6,
            Status::Memory => 7,
            Status::Peer => 8,
        }
    }
}

impl From<Status> for ExitCode {
    ghost use Rattle.std.specs.Process.{exit_status};
    ghost use Rattle.commands.specs.Io.Statuses.{code_of};

    ghost from_gives = { λ status code. exit_status code ≡ code_of status };

    fn from(status: Status) -> ExitCode {
        ExitCode::from(status.code())
    }
}
