//! Numbers as octets, the highest octet first.
ghost use Rattle.std.specs.Prelude.{◌≡◌, ◌≤◌, length};
ghost use Rattle.ber_values.specs.Octets.{number_of};

/// The number that at most eight octets are.
pub(crate) fn unsigned_number(octets: &[u8]) -> u64
    requires { length octets.now ≤ 8 }
    ensures { result ≡ number_of octets.now }
{
    let mut number = 0u64;
    for octet in octets {
        number = number * 256 + u64::from(*octet);
    }
    number
}
