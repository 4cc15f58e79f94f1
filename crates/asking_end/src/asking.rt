//! The calling end of an association, which asks its peer what an agenda wants asked.
ghost use Rattle.std.specs.Prelude.{◌≡◌, ℕ, ◌≤◌, List, [], ◌++◌, Option, length, Some, Ok};
ghost use Rattle.std.specs.Prelude.{IfOk, OnOk, OnErr, unwrap_or};
ghost use Rattle.tpkt_cotp.specs.declared.limits.TheConstants.{PIECE_LIMIT};
ghost use Rattle.asking_end.specs.declared.end.AskEnd.{AskEnd as AnyEnd};
ghost use Rattle.asking_end.specs.declared.end.AskEnd.TheVariants as ends;
ghost use Rattle.asking_end.specs.Agendas.{Becomes};
ghost use Rattle.asking_end.specs.Askers.{asker_of};
ghost use Rattle.asking_end.specs.Callers.{AskerStands, TakesPiece};

use crate::agenda::Agenda;
use crate::asker::Awaiting;
use crate::calling::CallingEnd;
use crate::end::AskEnd;
use ber_values::Oid;
use std::alloc::{AllocError, Global};
use std::marker::Model;

/// The calling end of an association, which asks its peer one call after another, as its agenda
/// says, then concludes and asks for the release.
#[derive(Drop)]
pub struct AskingEnd<A: Agenda> {
    alloc: Global,
    calling: CallingEnd<A, A::End>,
}

impl<A: Agenda> Model for AskingEnd<A> {
    ghost use Rattle.asking_end.specs.declared.calling.CallingEnd.{CallingEnd};

    ghost Value = { CallingEnd A A.End };

    ghost use Rattle.asking_end.specs.Callers.{IsCaller};

    ghost view = { λ a. a.calling };

    ghost invariant = { λ a. IsCaller A.acts a.calling };
}

impl<A: Agenda> AskingEnd<A> {
    /// Calls, by this title, to ask this agenda. It appends what it says before anything has come;
    /// where memory is short, `out` is as before.
    pub fn new(
        alloc: Global,
        title: Option<Oid>,
        agenda: A,
        out: &mut Vec<u8>,
    ) -> Result<AskingEnd<A>, AllocError>
        ensures stands { IfOk result (λ asking. AskerStands A.acts title agenda [] asking) }
        ensures out { OnOk result
            (out.new.items ≡ out.old.items ++ (asker_of A.acts title agenda []).said) }
        ensures err { OnErr result (out.new.items ≡ out.old.items) }
    {
        let calling = CallingEnd::new(alloc, title, agenda, out)?;
        Ok(AskingEnd { alloc, calling })
    }

    /// Takes the next octets that its peer gave, at most 65,536. It appends to `out` what it says,
    /// and to `shown` what it shows, and answers how it has ended, if it has. Behind its end octets
    /// are dropped. After want of memory `out` and `shown` are as before, and it has ended.
    pub fn turn(
        &mut self,
        piece: &[u8],
        out: &mut Vec<u8>,
        shown: &mut Vec<A::Item>,
    ) -> Result<Option<AskEnd<A::End>>, AllocError>
        requires { length piece.now ≤ PIECE_LIMIT }
        ensures ok { (title : Option (List ℕ)) (agenda : A) (octets : List ℕ)
            → AskerStands A.acts title agenda octets self.old
            → OnOk result (TakesPiece A.acts title agenda octets piece.now
            out.old.items out.new.items shown.old.items shown.new.items self.new) }
        ensures end { IfOk result (λ end. end ≡ self.new.end) }
        // Also where memory ran out, its agenda is what it has become by what it heard.
        ensures agenda { Becomes A.acts self.old.asker.agenda self.new.asker.agenda }
        // Once it has ended nothing changes.
        ensures over { (end : AnyEnd A.End) → self.old.end ≡ Some end → result ≡ Ok (Some end) }
        ensures still { (end : AnyEnd A.End) → self.old.end ≡ Some end → self.new ≡ self.old }
        ensures silent { (end : AnyEnd A.End) → self.old.end ≡ Some end
            → out.new.items ≡ out.old.items }
        ensures unshown { (end : AnyEnd A.End) → self.old.end ≡ Some end
            → shown.new.items ≡ shown.old.items }
        ensures err { OnErr result (self.new.end ≡ Some ends.Memory) }
        ensures same { OnErr result (out.new.items ≡ out.old.items) }
        ensures hidden { OnErr result (shown.new.items ≡ shown.old.items) }
    {
        match self.calling.end {
            Some(end) => Ok(Some(end)),
            None => {
                self.calling.feed(piece)?;
                self.calling.hear_all(self.alloc, out, shown)?;
                Ok(self.calling.end)
            }
        }
    }

    /// How it ends where its link gives no more: as it has ended already, or by its peer.
    pub fn peer_end(&self) -> AskEnd<A::End>
        ensures { result ≡ unwrap_or self.now.end ends.PeerEnd }
    {
        self.calling.end.unwrap_or(AskEnd::PeerEnd)
    }

    /// How it has ended, if it has.
    pub fn end(&self) -> Option<AskEnd<A::End>>
        ensures { result ≡ self.now.end }
    {
        self.calling.end
    }

    /// Its agenda, as it stands.
    pub fn agenda(&self) -> &A
        ensures { result.now ≡ self.now.asker.agenda }
    {
        &self.calling.asker.agenda
    }

    /// What is awaited.
    pub fn awaiting(&self) -> Awaiting
        ensures { result ≡ self.now.asker.awaiting }
    {
        self.calling.asker.awaiting
    }

    /// The number of the request that was said last, 0 before the first.
    pub fn last(&self) -> u32
        ensures { result ≡ self.now.asker.last }
    {
        self.calling.asker.last
    }
}
