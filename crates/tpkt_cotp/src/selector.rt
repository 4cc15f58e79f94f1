//! Selectors: which user of the transport is meant (ISO 8073, transport-selector).
ghost use Rattle.std.specs.Prelude.{◌≡◌, ◌↔◌, IsTrue, bytes_eq};
ghost use Rattle.std.specs.Cmp.{partial_equiv_from_equiv};
ghost use Rattle.std.specs.Cmp.Lexicographic.{nat_list_eq_equiv};
ghost use Rattle.tpkt_cotp.specs.Selectors.{IsSelector};

use std::alloc::AllocError;
use std::marker::Model;

/// A selector: one to 32 octets.
#[derive(Debug, Drop)]
pub struct Selector {
    octets: Vec<u8>,
}

impl Model for Selector {
    ghost use Rattle.std.specs.Prelude.{ℕ, List};
    ghost use Rattle.tpkt_cotp.specs.Selectors.{IsSelector};

    ghost Value = { List ℕ };

    ghost view = { λ selector. selector.octets.items };

    ghost invariant = { λ selector. IsSelector selector.octets.items };
}

impl Selector {
    /// The selector of these octets.
    pub fn new(octets: Vec<u8>) -> Self
        requires { IsSelector octets.items }
        ensures { result ≡ octets.items }
    {
        Selector { octets }
    }

    /// Its octets.
    pub fn octets(&self) -> &[u8]
        ensures value { result.now ≡ self.now }
        ensures sized { IsSelector self.now }
    {
        self.octets.as_slice()
    }
}

impl Clone for Selector {
    ghost is_clone = { λ selector copy. copy ≡ selector };

    fn clone(&self) -> Result<Selector, AllocError> {
        Ok(Selector {
            octets: self.octets.clone()?,
        })
    }
}

impl PartialEq for Selector {
    ghost eq = { bytes_eq };

    ghost laws = { partial_equiv_from_equiv nat_list_eq_equiv };

    fn eq(&self, other: &Selector) -> bool
        ensures value { result ≡ bytes_eq self.now other.now }
        ensures same { IsTrue result ↔ (self.now ≡ other.now) }
    {
        self.octets.as_slice() == other.octets.as_slice()
    }
}

impl Eq for Selector {
    ghost laws = { nat_list_eq_equiv };
}
