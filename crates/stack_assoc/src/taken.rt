//! What the transport gave that isn't told yet.
ghost use Rattle.std.specs.Prelude.{◌≡◌, IfOk, Some};
ghost use Rattle.tpkt_cotp.specs.Sound.{IsSoundMessage, IsSize};
ghost use Rattle.stack_assoc.specs.Arrivals.{size_in};
ghost use Rattle.stack_assoc.specs.Taking.{results_heard, opening_seen, opening_told};

use crate::messages::{Heard, StackFault};
use presentation_profile::{Results, results_of};
use std::alloc::{AllocError, Global};
use tpkt_cotp::{ConnectConfirm, ConnectRequest};

/// What begins a connection of the transport.
#[derive(Drop)]
pub(crate) enum Opening {
    Request(ConnectRequest),
    Confirm(ConnectConfirm),
}

/// What comes behind it.
#[derive(Drop)]
pub(crate) enum Following {
    /// The transport has ended.
    Gone,
    Tsdu { place: u64, octets: Vec<u8> },
}

/// What came of the transport.
#[derive(Clone, Copy)]
pub(crate) enum Came {
    /// A message, or there was one already.
    Message,
    /// No whole message is left.
    Nothing,
    Fault(StackFault),
}

/// What a message says that isn't told yet.
#[derive(Drop)]
pub(crate) enum Said {
    /// There is none.
    Nothing,
    Gone,
    /// A message, and the result for each offer of a connect.
    Heard(Heard, Results),
    Broken(StackFault),
}

/// The result for each offer of a connect, and none of another message.
pub(crate) fn results_heard(alloc: Global, heard: &Heard) -> Result<Results, AllocError>
    ensures { IfOk result (λ results. results ≡ results_heard heard.now) }
{
    match heard {
        Heard::Connect(connecting) => results_of(alloc, connecting.contexts.as_slice()),
        _ => Ok(Results::new(alloc)),
    }
}

impl Opening {
    /// The size of TPDUs that it names, as a power of two.
    pub(crate) fn size(&self) -> Option<u8>
        requires { IsSoundMessage (opening_seen self.now) }
        ensures value { size_in (opening_told self.now) ≡ Some result }
        ensures sized { IsSize result }
    {
        match self {
            Opening::Request(request) => request.parameters.size,
            Opening::Confirm(confirm) => confirm.parameters.size,
        }
    }
}
