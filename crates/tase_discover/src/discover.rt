//! A calling end that lists what a peer offers.
ghost use Rattle.std.specs.Prelude.{◌≡◌, ◌≤◌, ◌<◌, ◌++◌, ℕ, List, [], length, Some, Ok, IfOk, OnOk};
ghost use Rattle.std.specs.Prelude.{Option, OnErr, unwrap_or, ◌-◌, nat_le, is_some, IfSome, slice_get};
ghost use Rattle.std.specs.Arc.{arc_value};
ghost use Rattle.tpkt_cotp.specs.declared.limits.TheConstants.{PIECE_LIMIT};
ghost use Rattle.bilateral.specs.Rows.{table_of};
ghost use Rattle.asking_end.specs.declared.end.AskEnd.{AskEnd as AnyEnd};
ghost use Rattle.asking_end.specs.declared.end.AskEnd.TheVariants as ends;
ghost use Rattle.asking_end.specs.Askers.{asker_of};
ghost use Rattle.asking_end.specs.Callers.{AskerStands, TakesPiece};
ghost use Rattle.tase_discover.specs.declared.end.ListingEnd.{ListingEnd as ListEnd};
ghost use Rattle.tase_discover.specs.Listings as own;
ghost use Rattle.tase_discover.specs.Listers.{TableListing, listing_of};
ghost use Rattle.tase_discover.specs.Acts.{listing_acts};

use crate::end::ListingEnd;
use crate::listing::Listing;
use asking_end::{AskEnd, AskingEnd};
use ber_values::Oid;
use bilateral::Centre;
use mms_data::Name;
use std::alloc::{AllocError, Global};
use std::marker::Model;
use std::sync::Arc;

/// A calling end that lists the names and types that a peer offers, and holds them against the
/// first table of the peer with a number.
#[derive(Drop)]
pub struct Discover {
    asking: AskingEnd<Listing>,
}

impl Model for Discover {
    ghost use Rattle.asking_end.specs.declared.calling.CallingEnd.{CallingEnd};
    ghost use Rattle.tase_discover.specs.declared.end.ListingEnd.{ListingEnd};
    ghost use Rattle.tase_discover.specs.Listers.{TableListing};

    ghost Value = { CallingEnd TableListing ListingEnd };

    ghost view = { λ d. d.asking };
}

impl Discover {
    /// Calls, by the title of the peer's table. It appends what it says before anything has come;
    /// where memory is short, `out` is as before.
    pub fn new(
        alloc: Global,
        centre: &Arc<Centre>,
        peer: u32,
        out: &mut Vec<u8>,
    ) -> Result<Discover, AllocError>
        requires { peer < length (arc_value centre.now).tables }
        ensures stands { IfOk result (λ d. AskerStands listing_acts
            (table_of (arc_value centre.now) peer).title
            (listing_of (own.first_table (arc_value centre.now) peer)) [] d) }
        ensures out { OnOk result (out.new.items ≡ out.old.items
            ++ (asker_of listing_acts (table_of (arc_value centre.now) peer).title
            (listing_of (own.first_table (arc_value centre.now) peer)) []).said) }
        ensures err { OnErr result (out.new.items ≡ out.old.items) }
    {
        let listing = Listing::new(alloc, centre, peer)?;
        let title = title_of(centre, peer)?;
        let asking = AskingEnd::new(alloc, title, listing, out)?;
        Ok(Discover { asking })
    }

    /// Takes the next octets that its peer gave, at most 65,536. It appends to `out` what it says,
    /// and to `shown` the lines that it shows, and answers how it has ended, if it has. Behind its
    /// end octets are dropped. After want of memory `out` and `shown` are as before, and it has
    /// ended.
    pub fn turn(
        &mut self,
        piece: &[u8],
        out: &mut Vec<u8>,
        shown: &mut Vec<u8>,
    ) -> Result<Option<AskEnd<ListingEnd>>, AllocError>
        requires { length piece.now ≤ PIECE_LIMIT }
        ensures ok { (title : Option (List ℕ)) (listing : TableListing) (octets : List ℕ)
            → AskerStands listing_acts title listing octets self.old
            → OnOk result (TakesPiece listing_acts title listing octets piece.now
            out.old.items out.new.items shown.old.items shown.new.items self.new) }
        ensures end { IfOk result (λ end. end ≡ self.new.end) }
        // Once it has ended nothing changes.
        ensures over { (end : AnyEnd ListEnd) → self.old.end ≡ Some end
            → result ≡ Ok (Some end) }
        ensures still { (end : AnyEnd ListEnd) → self.old.end ≡ Some end
            → self.new ≡ self.old }
        ensures silent { (end : AnyEnd ListEnd) → self.old.end ≡ Some end
            → out.new.items ≡ out.old.items }
        ensures unshown { (end : AnyEnd ListEnd) → self.old.end ≡ Some end
            → shown.new.items ≡ shown.old.items }
        ensures err { OnErr result (self.new.end ≡ Some ends.Memory) }
        ensures same { OnErr result (out.new.items ≡ out.old.items) }
        ensures hidden { OnErr result (shown.new.items ≡ shown.old.items) }
    {
        self.asking.turn(piece, out, shown)
    }

    /// How it ends where its link gives no more: as it has ended already, or by its peer.
    pub fn peer_end(&self) -> AskEnd<ListingEnd>
        ensures { result ≡ unwrap_or self.now.end ends.PeerEnd }
    {
        self.asking.peer_end()
    }

    /// Its listing, as it stands.
    pub fn listing(&self) -> &Listing
        ensures { result.now ≡ self.now.asker.agenda }
    {
        self.asking.agenda()
    }

    /// Whether all came, and nothing differs from the table.
    pub fn is_same(&self) -> bool
        ensures { result ≡ own.is_same self.now.asker.agenda.table
            self.now.asker.agenda.seen }
    {
        self.listing().is_same()
    }

    /// The names that came.
    pub fn names(&self) -> &[Name]
        ensures { result.now ≡ self.now.asker.agenda.seen.names }
    {
        self.listing().names()
    }

    /// How many names came.
    pub fn count(&self) -> usize
        ensures { result ≡ length self.now.asker.agenda.seen.names }
    {
        self.names().len()
    }

    /// The last two names, of which the last came last.
    pub fn last_names(&self) -> Option<(&Name, &Name)>
        ensures some { is_some result ≡ nat_le 2 (length self.now.asker.agenda.seen.names) }
        ensures before { IfSome result (λ two. slice_get self.now.asker.agenda.seen.names
            (length self.now.asker.agenda.seen.names - 2) ≡ Some two.0.now) }
        ensures last { IfSome result (λ two. slice_get self.now.asker.agenda.seen.names
            (length self.now.asker.agenda.seen.names - 1) ≡ Some two.1.now) }
    {
        let names = self.names();
        let count = names.len();
        if count < 2 {
            return None;
        }
        Some((&names[count - 2], &names[count - 1]))
    }

    /// The number of the request that was said last, 0 before the first.
    pub fn last(&self) -> u32
        ensures { result ≡ self.now.asker.last }
    {
        self.asking.last()
    }
}

/// The title of the peer's table.
pub(crate) fn title_of(centre: &Centre, peer: u32) -> Result<Option<Oid>, AllocError>
    requires { peer < length centre.now.tables }
    ensures { IfOk result (λ title. title ≡ (table_of centre.now peer).title) }
{
    match &centre.table(peer).title {
        Some(title) => Ok(Some(title.clone()?)),
        None => Ok(None),
    }
}
