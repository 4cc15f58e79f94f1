//! Lengths of what is written, capped so that their sums don't wrap.
ghost use Rattle.std.specs.Prelude.{◌≡◌, ◌+◌, ◌≤◌, length, pos};
ghost use Rattle.ber_values.specs.Lengths.{capped, part_size};
ghost use Rattle.ber_values.specs.Writing.{integer_octets};

use crate::integer::{size_of_integer, size_of_number};
use crate::writing::size_of_length;

/// The most that a length is said to be: what is that long or longer has this length.
pub const MOST_LENGTH: usize = 0xFFFF_FFFF;

/// The most octets of a body that the layers of an association write: with all that they put
/// around it, it fits a TSDU.
pub const MOST_BODY: usize = 65_400;

// Definitions cite this limit, so that it stands here as a number too.
const _: () = prove!(MOST_BODY == 65_400);

/// The sum of two lengths.
pub fn add_len(first: usize, second: usize) -> usize
    requires first { first ≤ MOST_LENGTH }
    requires second { second ≤ MOST_LENGTH }
    ensures { result ≡ capped (first + second) }
{
    MOST_LENGTH.min(first + second)
}

/// The length of an element with a tag of one octet, by that of its contents.
#[tactic(auto, using(crate::proofs::Capped::part_sizes), unfolding(crate::specs::Lengths::part_size, crate::specs::Writing::length_octets))]
pub fn part_len(contents: usize) -> usize
    requires { contents ≤ MOST_LENGTH }
    ensures { result ≡ capped (part_size contents) }
{
    if contents < 128 {
        return 2 + contents;
    }
    let size = size_of_length(contents);
    MOST_LENGTH.min(2 + usize::from(size) + contents)
}

/// The length of an integer's contents.
pub fn integer_len(value: i64) -> usize
    ensures value { result ≡ length (integer_octets value) }
    ensures few { result ≤ 8 }
{
    size_of_integer(value)
}

/// The length of the contents of an integer that isn't negative.
pub fn natural_len(value: u64) -> usize
    ensures value { result ≡ length (integer_octets (pos value)) }
    ensures few { result ≤ 8 }
{
    size_of_number(value)
}
