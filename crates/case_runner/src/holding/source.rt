//! A source that waits.
ghost use Rattle.std.specs.Prelude.{◌≡◌, ◌<◌, length};
ghost use Rattle.outside.specs.Source.{ReadsSource};

use crate::holding::watch::Watch;
use outside::{ReadEnd, Source};
use std::marker::Model;
use std::time;

/// A source whose first read, where it is held, waits until all links were served.
#[derive(Drop)]
pub struct HeldSource<S, R> {
    source: S,
    is_held: bool,
    watch: Watch<R>,
}

// What contracts see: the source inside.
impl<S, R> Model for HeldSource<S, R> {
    ghost Value = { S };

    ghost view = { λ s. s.source };
}

impl<S, R> HeldSource<S, R> {
    pub(crate) fn new(source: S, is_held: bool, watch: Watch<R>) -> Self
        ensures { result ≡ source }
    {
        HeldSource {
            source,
            is_held,
            watch,
        }
    }

    pub(crate) fn into_source(self) -> S
    where
        R: Drop,
        ensures { result ≡ self }
    {
        let HeldSource {
            source,
            is_held: _,
            watch: _,
        } = self;
        source
    }
}

impl<S: Source, R: time::Clock> Source for HeldSource<S, R> {
    ghost told = { λ s. S.told s };

    fn read(&mut self, buf: &mut [u8]) -> ReadEnd
        requires { 0 < length buf.old }
        ensures { ReadsSource (S.told self.old) (S.told self.new) result buf.new }
    {
        if self.is_held {
            self.is_held = false;
            self.watch.await_service();
        }
        self.source.read(buf)
    }

    fn faults(&self) -> u64 {
        self.source.faults()
    }
}
