//! A listener whose calls are noted.
ghost use Rattle.std.specs.Prelude.{◌≡◌};
ghost use Rattle.outside.specs.Links.Listeners.{AcceptsLink, MayRetire, RetiredIsWithin};
ghost use Rattle.outside.specs.Links.Listeners.{link_given, is_failed_accept, with_retired};

use crate::holding::board::Event;
use crate::holding::link::HeldLink;
use crate::holding::watch::Watch;
use outside::links::{Accept, Listener};
use std::marker::Model;
use std::time;

/// A listener that notes each accept. One that gives no link takes a millisecond.
#[derive(Drop)]
pub struct HeldListener<N, R> {
    listener: N,
    watch: Watch<R>,
}

// What contracts see: the listener inside.
impl<N, R> Model for HeldListener<N, R> {
    ghost Value = { N };

    ghost view = { λ s. s.listener };
}

impl<N, R> HeldListener<N, R> {
    pub(crate) fn new(listener: N, watch: Watch<R>) -> Self
        ensures { result ≡ listener }
    {
        HeldListener { listener, watch }
    }

    pub(crate) fn into_listener(self) -> N
    where
        R: Drop,
        ensures { result ≡ self }
    {
        let HeldListener { listener, watch: _ } = self;
        listener
    }
}

impl<N: Listener, R: time::Clock + Copy> Listener for HeldListener<N, R> {
    type Link = HeldLink<N::Link, R>;

    ghost told = { λ s. N.told s };

    fn accept(&mut self) -> Accept<HeldLink<N::Link, R>>
        ensures accepts { AcceptsLink (N.told self.old) (N.told self.new)
            (link_given (λ link. N.Link.told link) result) (is_failed_accept result) }
        ensures within { RetiredIsWithin (N.told self.new) }
    {
        let accept = self.listener.accept();
        self.watch.note(Event::Accept);
        match accept {
            Accept::Link(link) => Accept::Link(HeldLink::new(link, self.watch.share())),
            Accept::Idle => {
                self.watch.rest();
                Accept::Idle
            }
            Accept::End => {
                self.watch.rest();
                Accept::End
            }
            Accept::Failed => {
                self.watch.note(Event::FailedAccept);
                Accept::Failed
            }
        }
    }

    fn retire(&mut self, link: HeldLink<N::Link, R>)
        requires { MayRetire (N.told self.old) }
        ensures retires { N.told self.new ≡ with_retired (N.told self.old) (N.Link.told link) }
        ensures within { RetiredIsWithin (N.told self.new) }
    {
        self.listener.retire(link.into_link());
    }

    fn faults(&self) -> u64 {
        self.listener.faults()
    }
}
