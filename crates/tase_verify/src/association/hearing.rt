//! What octets tell the called end of an association.
ghost use Rattle.std.specs.Prelude.{◌≡◌, ◌∷◌, [], ◌++◌, ◌≤◌, ◌<◌, ℕ, true, false, List, length};
ghost use Rattle.std.specs.Prelude.{IfOk, OnOk};
ghost use Rattle.tpkt_cotp.specs.declared.limits.TheConstants.{PIECE_LIMIT};
ghost use Rattle.stack_assoc.specs.Courses.{is_offered, IsCourseSettled};
ghost use Rattle.stack_assoc.specs.Steps.{left_of};
ghost use Rattle.tase_verify.specs.Association.Hearing.{HearsSome, HearsAll, HearsOn, HasHeard};
ghost use Rattle.tase_verify.specs.Association.Hearing.{is_offering, offered_in};

use mms_services::Initiate;
use stack_assoc::{Stack, StackIn};
use std::alloc::{AllocError, Global};
use tpkt_cotp::PIECE_LIMIT;

/// What the called end of an association has heard.
#[derive(Drop)]
pub(crate) struct Heard {
    pub(crate) stack: Stack,
    /// What was handed out.
    pub(crate) inputs: Vec<StackIn>,
    /// What is answered at once.
    pub(crate) confirm: Vec<u8>,
    /// Whether a rule is broken behind what was handed out.
    pub(crate) broken: bool,
}

/// Hears all that octets tell.
pub(crate) fn hear(alloc: Global, octets: &[u8]) -> Result<Heard, AllocError>
    ensures { IfOk result (HasHeard octets.now) }
{
    let mut heard = Heard {
        stack: Stack::called(alloc)?,
        inputs: Vec::new(alloc),
        confirm: Vec::new(alloc),
        broken: false,
    };
    heard.read_on(alloc)?;
    let mut rest = octets;
    while !rest.is_empty() {
        let (piece, more) = rest.split_at(rest.len().min(PIECE_LIMIT));
        heard.hear_piece(alloc, piece)?;
        rest = more;
    }
    Ok(heard)
}

impl Heard {
    /// Hears what octets tell with those before them.
    fn hear_piece(&mut self, alloc: Global, piece: &[u8]) -> Result<(), AllocError>
        requires small { length piece.now ≤ PIECE_LIMIT }
        requires settled { IsCourseSettled self.old.stack }
        requires free { is_offered self.old.stack.standing ≡ false }
        ensures hears { (octets : List ℕ) → HearsSome octets self.old
            → OnOk result (HearsAll (octets ++ piece.now) self.new) }
        ensures free { OnOk result (is_offered self.new.stack.standing ≡ false) }
    {
        self.stack.feed(piece)?;
        self.read_on(alloc)
    }

    /// Hears all that is left of what was fed.
    fn read_on(&mut self, alloc: Global) -> Result<(), AllocError>
        requires free { is_offered self.old.stack.standing ≡ false }
        ensures hears { (octets : List ℕ) → HearsSome octets self.old
            → OnOk result (HearsAll octets self.new) }
        ensures free { OnOk result (is_offered self.new.stack.standing ≡ false) }
    {
        while self.hear_next(alloc)? {}
        Ok(())
    }

    /// Hears the next that is handed out, if there is one.
    fn hear_next(&mut self, alloc: Global) -> Result<bool, AllocError>
        requires free { is_offered self.old.stack.standing ≡ false }
        ensures hears { (octets : List ℕ) → HearsSome octets self.old
            → IfOk result (λ more. HearsOn more octets self.new) }
        ensures free { OnOk result (is_offered self.new.stack.standing ≡ false) }
        ensures shorter { IfOk result (λ more. more ≡ true
            → left_of self.new.stack < left_of self.old.stack) }
    {
        match self.stack.next(&mut self.confirm)? {
            Ok(Some(input)) => {
                self.keep(alloc, input)?;
                Ok(true)
            }
            Ok(None) => {
                self.broken = false;
                Ok(false)
            }
            Err(_) => {
                self.broken = true;
                Ok(false)
            }
        }
    }

    /// Keeps what was handed out. An offer is refused, and the refusal forgotten, so that the stack
    /// goes on.
    fn keep(&mut self, alloc: Global, input: StackIn) -> Result<(), AllocError>
        requires offered { is_offered self.old.stack.standing ≡ is_offering input }
        ensures inputs { OnOk result (self.new.inputs.items
            ≡ self.old.inputs.items ++ input ∷ []) }
        ensures stack { OnOk result (self.new.stack
            ≡ record self.old.stack { standing = self.new.stack.standing }) }
        ensures confirm { self.new.confirm.items ≡ self.old.confirm.items }
        ensures free { OnOk result (is_offered self.new.stack.standing ≡ false) }
    {
        if is_offering(&input) {
            let mut refusal = Vec::new(alloc);
            self.stack.refuse(&mut refusal)?;
        }
        self.inputs.push(input)?;
        Ok(())
    }
}

/// Whether an offer was handed out.
fn is_offering(input: &StackIn) -> bool
    ensures { result ≡ is_offering input.now }
{
    match input {
        StackIn::Offer { .. } | StackIn::BadOffer => true,
        _ => false,
    }
}

/// The parameters of the first offer, where it may be accepted.
pub(crate) fn offered_in(inputs: &[StackIn]) -> Option<Initiate>
    ensures { result ≡ offered_in inputs.now }
{
    for input in inputs {
        match input {
            StackIn::Offer { initiate, .. } => return Some(*initiate),
            StackIn::BadOffer => return None,
            _ => {}
        }
    }
    None
}
