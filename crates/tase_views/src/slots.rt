//! Whether a peer has a transfer set.
ghost use Rattle.std.specs.Prelude.{◌≡◌};
ghost use Rattle.tase_views.specs.Outcomes as causes;

use bilateral::Centre;

/// Whether one of a peer's tables offers a transfer set with this number, which counts from 0. It
/// looks at the peer's tables and takes no memory.
pub fn has_slot(centre: &Centre, peer: u32, slot: u32) -> bool
    ensures { result ≡ causes.has_slot centre.now peer slot }
{
    if peer >= centre.peers() {
        return false;
    }
    let mut there = false;
    for variant in 0..centre.variants(peer) {
        there = there || slot < centre.variant(peer, variant).slots;
    }
    there
}
