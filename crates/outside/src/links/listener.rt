//! What gives the links of nodes that connect.
ghost use Rattle.std.specs.Prelude.{◌≡◌};
ghost use Rattle.outside.specs.Links.Listeners.{ListenerTold, AcceptsLink, MayRetire};
ghost use Rattle.outside.specs.Links.Listeners.{RetiredIsWithin, link_given, is_failed_accept};
ghost use Rattle.outside.specs.Links.Listeners.{with_retired};

use crate::links::link::Link;

/// How a call of accept ended.
#[derive(Debug, Drop)]
pub enum Accept<L> {
    /// A link, which is new.
    Link(L),
    /// No node has connected yet.
    Idle,
    /// No link will come any more.
    End,
    /// A fault, which was counted.
    Failed,
}

/// Gives a link for each node that connects, and takes back each once it was served. The faults of
/// a link aren't its own.
pub trait Listener {
    type Link: Link + Drop;

    /// What it tells of its links, its calls and its faults.
    ghost told: { Self → ListenerTold };

    /// Gives the next link, which is new to its caller.
    fn accept(&mut self) -> Accept<Self::Link>
        ensures accepts { AcceptsLink (told self.old) (told self.new)
            (link_given Self.Link.told result) (is_failed_accept result) }
        ensures within { RetiredIsWithin (told self.new) };

    /// Takes back a link that was served. It takes no memory.
    fn retire(&mut self, link: Self::Link)
        requires { MayRetire (told self.old) }
        ensures retires { told self.new ≡ with_retired (told self.old) (Self.Link.told link) }
        ensures within { RetiredIsWithin (told self.new) };

    /// The number of faults so far. It stands still at the type's end. No more links were retired
    /// than accept gave.
    fn faults(&self) -> u64
        ensures faults { result ≡ (told self.now).faults }
        ensures within { RetiredIsWithin (told self.now) };
}
