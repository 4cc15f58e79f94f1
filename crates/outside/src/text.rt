//! A whole text, read from a source.
ghost use Rattle.std.specs.Prelude.{◌≡◌, ℕ, List, length};
ghost use Rattle.outside.specs.Text.{ReadsText};

use crate::source::{ReadEnd, Source};
use std::alloc::{AllocError, Global};

/// So many octets are read at a time.
pub const PIECE: usize = 65_536;

/// Why a text wasn't read.
#[derive(Clone, Copy, Debug, PartialEq, Eq)]
pub enum TextEnd {
    /// The source failed; its count of faults rose.
    Failed,
    /// More octets were left than the limit allows.
    Long,
}

/// Reads all octets that are left, if they are at most `limit`. The end and a fault are the last
/// that it reads, and it takes at most the limit and one piece.
pub fn read_text<S: Source>(
    alloc: Global,
    source: &mut S,
    limit: u64,
) -> Result<Result<Vec<u8>, TextEnd>, AllocError>
    ensures { (octets : List ℕ) × ReadsText (S.told source.old)
        (S.told source.new) limit result octets }
{
    let mut piece = vec![in alloc; 0u8; PIECE]?;
    read_pieces(alloc, source, &mut piece, limit)
}

// Reads all octets that are left, if they are at most `limit`, each piece into this room.
fn read_pieces<S: Source>(
    alloc: Global,
    source: &mut S,
    piece: &mut [u8],
    limit: u64,
) -> Result<Result<Vec<u8>, TextEnd>, AllocError>
    requires { length piece.old ≡ PIECE }
    ensures { (octets : List ℕ) × ReadsText (S.told source.old)
        (S.told source.new) limit result octets }
{
    let mut text: Vec<u8> = Vec::new(alloc);
    loop {
        match source.read(piece) {
            ReadEnd::Got(count) => {
                if count as u64 > limit - text.len() as u64 {
                    return Ok(Err(TextEnd::Long));
                }
                text.extend_from_slice(&piece[..count])?;
            }
            ReadEnd::End => return Ok(Ok(text)),
            ReadEnd::Failed => return Ok(Err(TextEnd::Failed)),
        }
    }
}
