//! A link that may meet others.
ghost use Rattle.std.specs.Prelude.{◌≡◌, ◌<◌, length};
ghost use Rattle.outside.specs.Links.Links.{ReceivesPiece, SendsPiece, closed_link};

use crate::holding::board::Event;
use crate::holding::watch::Watch;
use outside::WriteEnd;
use outside::links::{Link, Recv};
use std::marker::Model;
use std::time;

/// A link that notes its close, and where links meet waits for the others.
#[derive(Drop)]
pub struct HeldLink<L, R> {
    link: L,
    recvs: u64,
    is_closed: bool,
    watch: Watch<R>,
}

// What contracts see: the link inside.
impl<L, R> Model for HeldLink<L, R> {
    ghost Value = { L };

    ghost view = { λ s. s.link };
}

impl<L, R> HeldLink<L, R> {
    pub(crate) fn new(link: L, watch: Watch<R>) -> Self
        ensures { result ≡ link }
    {
        HeldLink {
            link,
            recvs: 0,
            is_closed: false,
            watch,
        }
    }

    pub(crate) fn into_link(self) -> L
    where
        R: Drop,
        ensures { result ≡ self }
    {
        let HeldLink {
            link,
            recvs: _,
            is_closed: _,
            watch: _,
        } = self;
        link
    }
}

impl<L: Link, R: time::Clock> Link for HeldLink<L, R> {
    ghost told = { λ s. L.told s };

    fn recv(&mut self, buf: &mut [u8]) -> Recv
        requires { 0 < length buf.old }
        ensures { ReceivesPiece (L.told self.old) (L.told self.new) result buf.new }
    {
        self.watch.meet(self.recvs);
        self.recvs = self.recvs.saturating_add(1);
        self.link.recv(buf)
    }

    fn send(&mut self, piece: &[u8]) -> WriteEnd
        requires { 0 < length piece.now }
        ensures { SendsPiece (L.told self.old) (L.told self.new) result piece.now }
    {
        self.link.send(piece)
    }

    fn close(&mut self)
        ensures { L.told self.new ≡ closed_link (L.told self.old) }
    {
        self.link.close();
        if !self.is_closed {
            self.is_closed = true;
            self.watch.note(Event::Close);
        }
    }

    fn faults(&self) -> u64 {
        self.link.faults()
    }

    fn note(&self, words: &str) {
        self.link.note(words);
    }
}
