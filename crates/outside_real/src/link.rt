//! A connection as a link.
ghost use Rattle.std.specs.Prelude.{true, false, ◌≡◌, ◌<◌, length};
ghost use Rattle.outside.specs.Links.Links.{LinkTold, ReceivesPiece, SendsPiece, closed_link};
ghost use Rattle.outside_real.specs.LinkAttempts.{Sent};
ghost use Rattle.outside_real.specs.Links.{link_told};
ghost use Rattle.outside_real.specs.RealLinks.{RealLinkState, ReceivesAs, SendsAs, ClosesAs};
ghost use Rattle.outside_real.specs.RealLinks.{new_real_link};

use crate::socket::{SocketAttempt, receive, send};
use outside::links::{Link, Recv};
use outside::{WriteEnd, count_fault};
use std::marker::Model;

/// A link that tells its faults alone. After an end or a fault of recv, each recv answers the end
/// and asks the connection no more. A link that gave no octet for 30 seconds since it was accepted
/// ends.
#[derive(Drop)]
pub struct RealLink<T> {
    socket: T,
    was_heard: bool,
    is_over: bool,
    is_closed: bool,
    faults: u64,
}

impl<T> Model for RealLink<T> {
    ghost use Rattle.outside_real.specs.RealLinks.{RealLinkState};

    ghost Value = { RealLinkState T };

    ghost view = { λ s. record {
      socket = s.socket;
      was_heard = s.was_heard;
      is_over = s.is_over;
      is_closed = s.is_closed;
      faults = s.faults;
    } };
}

impl<T> RealLink<T> {
    /// A link over this connection, with no faults so far.
    pub fn new(socket: T) -> Self
        ensures { result ≡ new_real_link socket }
    {
        RealLink {
            socket,
            was_heard: false,
            is_over: false,
            is_closed: false,
            faults: 0,
        }
    }
}

impl<T: SocketAttempt> Link for RealLink<T> {
    ghost told = { λ link. link_told link.is_closed link.faults };

    fn recv(&mut self, buf: &mut [u8]) -> Recv
        requires { 0 < length buf.old }
        ensures receives { ReceivesPiece (link_told self.old.is_closed self.old.faults)
            (link_told self.new.is_closed self.new.faults) result buf.new }
        ensures attempts { ReceivesAs T.reads T.waits T.ages self.old self.new buf.old buf.new
            result }
    {
        if self.is_over || self.is_closed {
            return Recv::End;
        }
        match receive(&mut self.socket, buf, self.was_heard) {
            Recv::Got(count) => {
                self.was_heard = true;
                Recv::Got(count)
            }
            Recv::Idle => Recv::Idle,
            Recv::End => {
                self.is_over = true;
                Recv::End
            }
            Recv::Failed => {
                self.is_over = true;
                self.faults = count_fault(self.faults, true);
                Recv::Failed
            }
        }
    }

    fn send(&mut self, piece: &[u8]) -> WriteEnd
        requires { 0 < length piece.now }
        ensures sends { SendsPiece (link_told self.old.is_closed self.old.faults)
            (link_told self.new.is_closed self.new.faults) result piece.now }
        ensures attempts { SendsAs T.writes self.old self.new piece.now result }
    {
        match send(&mut self.socket, piece) {
            WriteEnd::Took(count) => WriteEnd::Took(count),
            WriteEnd::Failed => {
                self.faults = count_fault(self.faults, true);
                WriteEnd::Failed
            }
        }
    }

    fn close(&mut self)
        ensures closes { link_told self.new.is_closed self.new.faults
            ≡ closed_link (link_told self.old.is_closed self.old.faults) }
        ensures shuts { ClosesAs T.shuts self.old self.new }
    {
        self.socket.shut();
        self.is_closed = true;
    }

    fn faults(&self) -> u64 {
        self.faults
    }

    fn note(&self, words: &str) {
        self.socket.note(words);
    }
}
