//! Captures: octets written down as lines of hexadecimal digits.
#![tactic(auto)]

ghost use Rattle.std.specs.Prelude.{◌≡◌, Ok, Err, IfOk, IsOk, IsErr, MatchResult};
ghost use Rattle.capture_text.specs.Captures.{capture_in};

mod lines;
mod pieces;

pub use pieces::{Pieces, read_pieces};
use std::alloc::{AllocError, Global};

/// The octets of a capture as `read_pieces` hands them out, all at once; or the number of its first
/// bad line, which is told whether memory is left or not.
pub fn read_capture(alloc: Global, text: &[u8]) -> Result<Result<Vec<u8>, u64>, AllocError>
    ensures read { IfOk result (λ read. MatchResult read
        (λ octets. capture_in text.now ≡ Ok octets.items)
        (λ line. capture_in text.now ≡ Err line)) }
    ensures memory { IsErr result → IsOk (capture_in text.now) }
{
    match read_pieces(text) {
        Ok(pieces) => Ok(Ok(join_pieces(alloc, pieces)?)),
        Err(line) => Ok(Err(line)),
    }
}

/// The octets of all pieces, one piece behind another.
pub fn join_pieces(alloc: Global, pieces: Pieces<'_>) -> Result<Vec<u8>, AllocError>
    ensures { IfOk result (λ octets. octets.items ≡ pieces.entry) }
{
    let mut pieces = pieces;
    let mut octets = Vec::new(alloc);
    let mut piece = [0; 256];
    loop {
        let count = pieces.next(&mut piece);
        if count == 0 {
            return Ok(octets);
        }
        octets.extend_from_slice(&piece[..count])?;
    }
}
