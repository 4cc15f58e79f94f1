//! The end of a connection, in words.
ghost use Rattle.std.specs.Prelude.{Some};
ghost use Rattle.conn_service.specs.EndTexts.{end_text};

use stack_assoc::listing::{layer_name, why_name};
use std::fmt::{self, Display, Formatter};
use tase_conn::ConnEnd;

/// How a connection ended, shown as a word, with its numbers and names behind it.
#[derive(Clone, Copy, Debug, Drop)]
pub struct EndWords(pub ConnEnd);

impl Display for EndWords {
    ghost output = { λ words. Some (end_text words.0) };

    fn fmt<W: fmt::Write>(&self, f: &mut Formatter<W>) -> fmt::Result {
        match self.0 {
            ConnEnd::Finished => f.write_str("finished"),
            ConnEnd::PeerEnd => f.write_str("peerend"),
            ConnEnd::Declined => f.write_str("declined"),
            ConnEnd::Refused(fault) => {
                let (layer, why) = (layer_name(fault.layer), why_name(fault.why));
                let place = fault.place;
                write!(f, "refused {layer} {place} {why}")
            }
            ConnEnd::TooLong { len, detail } => write!(f, "toolong {len} {detail}"),
            ConnEnd::Overflow { pending, limit } => write!(f, "overflow {pending} {limit}"),
            ConnEnd::LinkFault => f.write_str("link"),
            ConnEnd::Stopped => f.write_str("stopped"),
            ConnEnd::Full { weight, limit } => write!(f, "full {weight} {limit}"),
            ConnEnd::Memory => f.write_str("memory"),
        }
    }
}
