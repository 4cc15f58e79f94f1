//! Whole messages of the transport, as they come out of a stream.
ghost use Rattle.std.specs.Prelude.{◌≡◌, IfOk, IfSome, OnOk, OnErr, option_copied, option_map};
ghost use Rattle.tpkt_cotp.specs.Selectors.{IsSelector};
ghost use Rattle.tpkt_cotp.specs.Sound.{AreSoundParameters, IsSoundTpdu};
ghost use Rattle.tpkt_cotp.specs.Found.{parameters_of, tpdu_seen};
ghost use Rattle.tpkt_cotp.specs.Streams.{message_of, part_after};
ghost use Rattle.tpkt_cotp.specs.Seen.{message_seen};

use crate::parameters::Found;
use crate::selector::Selector;
use crate::tpdu::{ConnectConfirm, ConnectRequest, Parameters};
use crate::tpkt::Tpdu;
use std::alloc::{AllocError, Global};
use std::mem;

/// What a stream hands out.
#[derive(Debug, Drop)]
pub enum TransportIn {
    /// A connect request.
    Connect(ConnectRequest),
    /// A connect confirm.
    Connected(ConnectConfirm),
    /// The other end has disconnected, or refused to connect.
    Gone,
    /// A whole TSDU, and the place of its first TPKT: octets of the stream before it, at most
    /// 2^64 - 1.
    Tsdu { place: u64, octets: Vec<u8> },
}

fn selector_from(alloc: Global, found: Option<&[u8]>) -> Result<Option<Selector>, AllocError>
    requires { IfSome (option_copied found) IsSelector }
    ensures { IfOk result (λ selector. selector ≡ option_copied found.entry) }
{
    match found {
        None => Ok(None),
        Some(octets) => Ok(Some(Selector::new(Vec::from_slice(alloc, octets)?))),
    }
}

fn parameters_from(alloc: Global, found: Found) -> Result<Parameters, AllocError>
    requires { AreSoundParameters (parameters_of found) }
    ensures { IfOk result (λ parameters. parameters ≡ parameters_of found.entry) }
{
    Ok(Parameters {
        size: found.size,
        calling: selector_from(alloc, found.calling)?,
        called: selector_from(alloc, found.called)?,
    })
}

/// Takes a TPDU behind the octets of its TSDU that came before: the message that it ends, if any.
/// `start` is the place where the message begins.
pub(crate) fn take_tpdu(
    alloc: Global,
    start: u64,
    part: &mut Vec<u8>,
    tpdu: Tpdu,
) -> Result<Option<TransportIn>, AllocError>
    requires { IsSoundTpdu (tpdu_seen tpdu) }
    ensures message { IfOk result (λ message. option_map message_seen message
        ≡ message_of start part.old.items (tpdu_seen tpdu.entry)) }
    ensures part { OnOk result (part.new.items ≡ part_after part.old.items (tpdu_seen tpdu.entry)) }
    ensures err { OnErr result (part.new.items ≡ part.old.items) }
{
    match tpdu {
        Tpdu::Request { source, parameters } => {
            let parameters = parameters_from(alloc, parameters)?;
            part.clear();
            Ok(Some(TransportIn::Connect(ConnectRequest { source, parameters })))
        }
        Tpdu::Confirm {
            target,
            source,
            parameters,
        } => {
            let parameters = parameters_from(alloc, parameters)?;
            part.clear();
            Ok(Some(TransportIn::Connected(ConnectConfirm {
                target,
                source,
                parameters,
            })))
        }
        Tpdu::Disconnect => {
            part.clear();
            Ok(Some(TransportIn::Gone))
        }
        Tpdu::Part {
            last: false,
            part: more,
        } => {
            part.extend_from_slice(more)?;
            Ok(None)
        }
        Tpdu::Part {
            last: true,
            part: more,
        } => {
            part.extend_from_slice(more)?;
            let octets = mem::replace(part, Vec::new(alloc));
            Ok(Some(TransportIn::Tsdu {
                place: start,
                octets,
            }))
        }
    }
}
