//! What the connect of an association fixed.
ghost use Rattle.std.specs.Prelude.{◌≡◌, ◌≤◌, IfSome};
ghost use Rattle.stack_assoc.specs.Wire.Setups.{cut_size};

use presentation_profile::Results;
use tpkt_cotp::Selector;

/// What a connect fixed of what is said after it.
#[derive(Debug, Drop)]
pub struct AssociationSetup {
    /// The most octets of a TPDU: 128 to 1,024.
    pub size: u16,
    /// The session selector that was called.
    pub session: Option<Selector>,
    /// The presentation selector that was called.
    pub presentation: Option<Selector>,
    /// The result for each context that was offered, in order.
    pub results: Results,
    /// The id of ACSE's context.
    pub acse: u32,
    /// The id of MMS's context.
    pub mms: u32,
}

/// The most octets of a TPDU, where this power of two was offered or none was (ISO 8073, TPDU
/// size): at most 1,024.
pub fn cut_size(offered: Option<u8>) -> u16
    requires { IfSome offered (λ power. (7 ≤ power) × (power ≤ 13)) }
    ensures value { result ≡ cut_size offered }
    ensures sized { (128 ≤ result) × (result ≤ 1024) }
{
    match offered {
        Some(7) => 128,
        Some(8) => 256,
        Some(9) => 512,
        _ => 1024,
    }
}
