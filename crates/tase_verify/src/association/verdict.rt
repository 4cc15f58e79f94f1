//! What becomes of the octets that an association was sent.
ghost use Rattle.std.specs.Prelude.{◌≡◌, ◌+◌, ◌<◌, ◌≤◌, ◌^◌, [], length, slice_get};
ghost use Rattle.tase_verify.specs.Association.Verdicts.{common, verdict_between, verdict_from};

use capture_text::Pieces;

/// What a check of an association comes to.
#[derive(Clone, Copy, Debug, PartialEq, Eq)]
pub enum Verdict {
    /// The octets are those that the association is sent.
    Equal,
    /// They are the same up to this place, where these octets stand, or none any more.
    Differs {
        place: u64,
        got: Option<u8>,
        want: Option<u8>,
    },
    /// The event with this number, counted from 0 and without takes, isn't what its link asks
    /// there, or there is none where one is asked.
    Stray {
        number: u64,
    },
}

/// What octets come to, where others are wanted. It takes no memory.
pub(crate) fn compare(got: Pieces<'_>, want: &[u8]) -> Verdict
    ensures { result ≡ verdict_between got.entry want.now }
{
    let mut pieces = got;
    let mut piece = [0; 256];
    let mut rest = want;
    loop {
        let count = pieces.next(&mut piece);
        if count == 0 {
            return verdict_at_end(want.len() - rest.len(), rest);
        }
        let found = &piece[..count];
        let same = common(found, rest);
        if same < count {
            return difference(want.len() - rest.len(), same, found, rest);
        }
        let (_, behind) = rest.split_at(count);
        rest = behind;
    }
}

/// What octets come to that are the same up to a place, where these are wanted and none are left.
fn verdict_at_end(place: usize, want: &[u8]) -> Verdict
    ensures { result ≡ verdict_from place [] want.now }
{
    match want {
        [] => Verdict::Equal,
        [next, ..] => Verdict::Differs {
            place: place as u64,
            got: None,
            want: Some(*next),
        },
    }
}

/// The difference behind so many octets, which begin at a place and are the same.
fn difference(place: usize, same: usize, got: &[u8], want: &[u8]) -> Verdict
    requires { place + same < 2 ^ 64 }
    ensures { result ≡ Verdict.Differs (place + same) (slice_get got.now same)
        (slice_get want.now same) }
{
    Verdict::Differs {
        place: (place + same) as u64,
        got: octet_at(got, same),
        want: octet_at(want, same),
    }
}

fn octet_at(octets: &[u8], place: usize) -> Option<u8>
    ensures { result ≡ slice_get octets.now place }
{
    octets.get(place).copied()
}

/// How many octets both begin with.
fn common(got: &[u8], want: &[u8]) -> usize
    ensures value { result ≡ common got.now want.now }
    ensures got { result ≤ length got.now }
    ensures want { result ≤ length want.now }
{
    let mut place = 0;
    while place < got.len() && place < want.len() && got[place] == want[place] {
        place += 1;
    }
    place
}
