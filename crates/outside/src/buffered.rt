//! A sink that gathers octets for another.
ghost use Rattle.std.specs.Prelude.{◌≡◌, ℕ, ◌+◌, ◌<◌, ◌≤◌, List, [], ◌++◌, length, drop, IfOk};
ghost use Rattle.std.specs.Prelude.{IfErr, vec_len, vec_capacity};
ghost use Rattle.outside.specs.declared.buffered.TheConstants.{ROOM};
ghost use Rattle.outside.specs.Sink.{SinkTold, Writes};
ghost use Rattle.outside.specs.Buffered.{buffered_told, HandsOn, Finishes};

use crate::sink::{Sink, SinkFailed, WriteEnd, write_front};
use std::alloc::Global;
use std::marker::Model;

/// So many octets are gathered at most.
pub const ROOM: usize = 65_536;

/// A sink that gathers what is written to it, and hands it on to its own sink in pieces of up to
/// 65,536 octets.
#[derive(Drop)]
pub struct BufferedSink<K> {
    sink: K,
    gathered: Vec<u8>,
}

// What contracts see: the sink behind it, and the octets gathered for that.
impl<K> Model for BufferedSink<K> {
    ghost Value = { K × List ℕ };

    ghost view = { λ s. (s.sink, s.gathered.items) };

    // The room was taken when it was made, and no more is ever held.
    ghost invariant = { λ s. (vec_len s.gathered ≤ ROOM) × (ROOM ≤ vec_capacity s.gathered) };
}

impl<K> BufferedSink<K> {
    /// Takes the room. Where there is none, the sink comes back.
    pub fn new(alloc: Global, sink: K) -> Result<Self, K>
        ensures ok { IfOk result (λ buffered. buffered ≡ (sink, [])) }
        ensures err { IfErr result (λ back. back ≡ sink) }
    {
        match Vec::with_capacity(alloc, ROOM) {
            Ok(gathered) => Ok(BufferedSink { sink, gathered }),
            Err(_) => Err(sink),
        }
    }

    /// How many octets are gathered that didn't go out yet: at most 65,536.
    pub fn held(&self) -> usize
        ensures held { result ≡ length self.now.1 }
        ensures room { result ≤ ROOM }
    {
        self.gathered.len()
    }

    /// The sink behind it. What is gathered is lost.
    pub fn into_sink(self) -> K
        ensures { result ≡ self.0 }
    {
        let BufferedSink { sink, gathered: _ } = self;
        sink
    }

    // Gathers a piece for which there is room.
    fn gather(&mut self, piece: &[u8])
        requires { length self.old.1 + length piece.now ≤ ROOM }
        ensures { self.new ≡ (self.old.0, self.old.1 ++ piece.now) }
    {
        self.gathered.extend_from_slice(piece).unwrap();
    }
}

impl<K: Sink> BufferedSink<K> {
    /// Hands on all that is gathered. After a fault it keeps what didn't go out.
    pub fn hand_on(&mut self) -> Result<(), SinkFailed>
        ensures { HandsOn (K.told self.old.0) (K.told self.new.0) self.old.1 self.new.1 result }
    {
        let (sent, end) = write_front(&mut self.sink, &self.gathered);
        drop_front(&mut self.gathered, sent);
        end
    }

    /// Hands on all that is gathered, and gives back the sink behind it. What didn't go out after a
    /// fault is lost.
    pub fn finish(self) -> (K, Result<(), SinkFailed>)
        ensures { Finishes (K.told self.0) (K.told result.0) self.1 result.1 }
    {
        let mut buffered = self;
        let end = buffered.hand_on();
        (buffered.into_sink(), end)
    }

    // A write with nothing gathered: a piece that has no room goes straight on.
    fn write_first(&mut self, piece: &[u8]) -> WriteEnd
        requires piece { 0 < length piece.now }
        requires empty { self.old.1 ≡ [] }
        ensures { Writes (buffered_told (K.told self.old.0) self.old.1)
            (buffered_told (K.told self.new.0) self.new.1) result piece.now }
    {
        if piece.len() > ROOM {
            return self.sink.write(piece);
        }
        self.gather(piece);
        WriteEnd::Took(piece.len())
    }
}

impl<K: Sink> Sink for BufferedSink<K> {
    ghost told = { λ s. buffered_told (K.told s.0) s.1 };

    fn write(&mut self, piece: &[u8]) -> WriteEnd
        requires { 0 < length piece.now }
        ensures writes { Writes (buffered_told (K.told self.old.0) self.old.1)
            (buffered_told (K.told self.new.0) self.new.1) result piece.now }
        ensures gathers { length self.old.1 + length piece.now ≤ ROOM
            → self.new ≡ (self.old.0, self.old.1 ++ piece.now) }
    {
        if piece.len() <= ROOM - self.held() {
            self.gather(piece);
            return WriteEnd::Took(piece.len());
        }
        match self.hand_on() {
            Ok(()) => self.write_first(piece),
            Err(SinkFailed) => WriteEnd::Failed,
        }
    }

    fn faults(&self) -> u64 {
        self.sink.faults()
    }
}

// Drops the front of so many octets.
fn drop_front(octets: &mut Vec<u8>, count: usize)
    requires { count ≤ vec_len octets.old }
    ensures items { octets.new.items ≡ drop count octets.old.items }
    ensures capacity { vec_capacity octets.new ≡ vec_capacity octets.old }
{
    let rest = octets.len() - count;
    octets.copy_within(count.., 0);
    octets.truncate(rest);
}
