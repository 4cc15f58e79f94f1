//! A link to another node.
ghost use Rattle.std.specs.Prelude.{◌≡◌, ◌<◌, length};
ghost use Rattle.outside.specs.Links.Links.{LinkTold, ReceivesPiece, SendsPiece, closed_link};

use crate::WriteEnd;

/// How a call of recv ended.
#[derive(Clone, Copy, Debug, PartialEq, Eq)]
pub enum Recv {
    /// So many octets, at the front of the buffer.
    Got(usize),
    /// Nothing has come yet.
    Idle,
    /// Nothing more will come.
    End,
    /// A fault, which was counted. Nothing was received.
    Failed,
}

/// Octets to and from another node, such as over a connection of TCP. A call doesn't wait long for
/// that node.
pub trait Link {
    /// What it tells of its answers, its octets, its sends, its close and its faults.
    ghost told: { Self → LinkTold };

    /// Receives at least one octet and at most as many as fit, or says that none have come yet, or
    /// that none will. A link that was closed answers the end.
    fn recv(&mut self, buf: &mut [u8]) -> Recv
        requires { 0 < length buf.old }
        ensures { ReceivesPiece (told self.old) (told self.new) result buf.new };

    /// Takes octets from the front of the piece. `Took(0)`: nothing was taken now, since the other
    /// node doesn't read; later there may be room.
    fn send(&mut self, piece: &[u8]) -> WriteEnd
        requires { 0 < length piece.now }
        ensures { SendsPiece (told self.old) (told self.new) result piece.now };

    /// Closes it: from now on recv answers the end.
    fn close(&mut self)
        ensures { told self.new ≡ closed_link (told self.old) };

    /// The number of faults so far. It stands still at the type's end.
    fn faults(&self) -> u64
        ensures { result ≡ (told self.now).faults };

    /// Lets an operator know, where there is one, what became of this link. Nothing else changes.
    fn note(&self, words: &str);
}
