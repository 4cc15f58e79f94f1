//! What a client works on.
ghost use Rattle.std.specs.Prelude.{◌<◌, length};
ghost use Rattle.asking_end.specs.Service.Terminals.{TerminalTold, ReceivesAt, SendsAt, ShowsAt};
ghost use Rattle.asking_end.specs.Service.Terminals.{link_terminal};

use outside::links::{Link, Recv};
use outside::{Sink, SinkFailed, WriteEnd, write_all};

/// A link to the peer of a client, and a sink for the lines that the client shows. What it tells
/// may say what the sink had when the link was asked for more, so that what is to be shown by then
/// isn't shown later.
pub trait Terminal {
    /// What it tells of its link, of its sink, and of the sink at each recv.
    ghost told: { Self → TerminalTold };

    /// Receives octets of the link: at least one and at most as many as fit, or says that none have
    /// come yet, or that none will.
    fn recv(&mut self, buf: &mut [u8]) -> Recv
        requires { 0 < length buf.old }
        ensures { ReceivesAt (told self.old) (told self.new) result buf.new };

    /// Has the link take octets from the front of the piece.
    fn send(&mut self, piece: &[u8]) -> WriteEnd
        requires { 0 < length piece.now }
        ensures { SendsAt (told self.old) (told self.new) result piece.now };

    /// Writes lines to the sink, all of them, up to a write that fails.
    fn show(&mut self, lines: &[u8]) -> Result<(), SinkFailed>
        ensures { ShowsAt (told self.old) (told self.new) lines.now result };
}

/// The terminal of whatever link and sink. It doesn't remember what the sink had at each recv.
pub struct LinkTerminal<L, K> {
    pub link: L,
    pub sink: K,
}

impl<L: Link, K: Sink> Terminal for LinkTerminal<L, K> {
    ghost told = { λ t. link_terminal (L.told t.link) (K.told t.sink) };

    fn recv(&mut self, buf: &mut [u8]) -> Recv {
        self.link.recv(buf)
    }

    fn send(&mut self, piece: &[u8]) -> WriteEnd {
        self.link.send(piece)
    }

    fn show(&mut self, lines: &[u8]) -> Result<(), SinkFailed> {
        write_all(&mut self.sink, lines)
    }
}
