//! The links that a listener gives, each with a job that serves it.
ghost use Rattle.std.specs.Prelude.{◌≡◌, ◌<◌};
ghost use Rattle.std.specs.Arc.{arc_value};
ghost use Rattle.outside.specs.Links.Listeners.{MayRetire, RetiredIsWithin};
ghost use Rattle.share_turn.specs.Public.{IsOf};
ghost use Rattle.server_main.specs.Run.Starting.{StartsAs};
ghost use Rattle.server_main.specs.declared.run.starting.JobInput.TheVariants as inputs;
ghost use Rattle.server_main.specs.Run.Accepting.{accepting, AcceptsOnce, SettlesLink};
ghost use Rattle.server_main.specs.Run.Accepting.{IsLinkInput, RetiresUnserved};

use crate::run::seats::LinkSeats;
use crate::run::starting::{JobInput, Starter};
use job_threads::ThreadSpawner;
use node_server::jobs::NodeJob;
use node_server::turn::TurnNode;
use outside::Source;
use outside::links::{Accept, Clock, Link, Listener, Start};
use share_turn::Seat;
use std::sync::Wait;
use std::thread::Threads;

/// How one call of accept ended.
#[derive(Clone, Copy, Debug, PartialEq, Eq)]
pub enum Accepted {
    /// A link was given, and a job serves it.
    Serving,
    /// A link was given, and no thread could be made for it, which the spawner has counted. It was
    /// closed and retired with nothing sent.
    TurnedAway,
    /// No link was given now, or none will be.
    NoLink,
    /// The listener failed; its count of faults rose.
    Fault,
    /// There was no memory for the link's seat. Accept wasn't called.
    NoRoom,
    /// There was no memory for the link's job. It was closed and retired with nothing sent.
    Memory,
}

impl<'a, R: Threads + Wait + Copy + Send + 'static> Starter<'a, R> {
    /// Takes a link, where one is given, and starts a job that serves it. Room for its seat is
    /// taken before.
    pub fn accept_once<
        N: Listener,
        S: Source + Send + Drop + 'static,
        C: Clock + Send + Drop + 'static,
    >(
        &self,
        seat: &mut Seat<TurnNode>,
        listener: &mut N,
        spawner: &mut ThreadSpawner<NodeJob<N::Link, S, C>>,
        links: &mut LinkSeats,
    ) -> Accepted
    where
        N::Link: Send + 'static,
        requires of { IsOf (arc_value self.now.shared.now) seat.old }
        requires centre { arc_value self.now.centre.now
            ≡ (arc_value self.now.shared.now).setup.centre }
        requires within { RetiredIsWithin (N.told listener.old) }
        ensures accepts { AcceptsOnce N.Link.told (arc_value self.now.shared.now)
            (accepting seat.old (N.told listener.old) spawner.old.told links.old)
            (accepting seat.new (N.told listener.new) spawner.new.told links.new) result }
    {
        if links.take_room().is_err() {
            return Accepted::NoRoom;
        }
        match listener.accept() {
            Accept::Link(link) => {
                let start = self.start_link(seat, spawner, link);
                settle_link(listener, links, start)
            }
            Accept::Idle => {
                links.give_room();
                Accepted::NoLink
            }
            Accept::End => {
                links.give_room();
                Accepted::NoLink
            }
            Accept::Failed => {
                links.give_room();
                Accepted::Fault
            }
        }
    }

    /// Starts a job that serves the link, which comes back where it isn't started.
    fn start_link<
        L: Link + Send + Drop + 'static,
        S: Source + Send + Drop + 'static,
        C: Clock + Send + Drop + 'static,
    >(
        &self,
        seat: &mut Seat<TurnNode>,
        spawner: &mut ThreadSpawner<NodeJob<L, S, C>>,
        link: L,
    ) -> Start<L>
        requires of { IsOf (arc_value self.now.shared.now) seat.old }
        requires centre { arc_value self.now.centre.now
            ≡ (arc_value self.now.shared.now).setup.centre }
        ensures { StartsAs (λ (l : L). inputs.Link l) (arc_value self.now.shared.now) link seat.old
            seat.new spawner.old.told spawner.new.told result }
    {
        match self.start_job(seat, spawner, JobInput::Link(link)) {
            Start::Started => Start::Started,
            Start::Memory(back) => Start::Memory(link_in(back)),
            Start::Refused(back) => Start::Refused(link_in(back)),
        }
    }
}

/// The link of this input.
fn link_in<L, S, C>(input: JobInput<L, S, C>) -> L
    requires { IsLinkInput input }
    ensures { input ≡ inputs.Link result }
{
    match input {
        JobInput::Link(link) => link,
        JobInput::Feed(_) => unreachable!(),
        JobInput::Clock(_) => unreachable!(),
    }
}

/// Closes a link whose job wasn't started, retires it and notes that it has no seat.
fn settle_link<N: Listener>(
    listener: &mut N,
    links: &mut LinkSeats,
    start: Start<N::Link>,
) -> Accepted
    requires may { MayRetire (N.told listener.old) }
    requires room { 0 < links.old.rooms }
    ensures { SettlesLink N.Link.told (N.told listener.old) (N.told listener.new) links.old
        links.new start result }
{
    match start {
        Start::Started => Accepted::Serving,
        Start::Memory(link) => {
            retire_unserved(listener, links, link);
            Accepted::Memory
        }
        Start::Refused(link) => {
            retire_unserved(listener, links, link);
            Accepted::TurnedAway
        }
    }
}

/// Closes a link that no job serves, retires it and notes that it has no seat.
fn retire_unserved<N: Listener>(listener: &mut N, links: &mut LinkSeats, mut link: N::Link)
    requires may { MayRetire (N.told listener.old) }
    requires room { 0 < links.old.rooms }
    ensures { RetiresUnserved (N.Link.told link) (N.told listener.old) (N.told listener.new)
        links.old links.new }
{
    link.close();
    listener.retire(link);
    links.note(None);
}
