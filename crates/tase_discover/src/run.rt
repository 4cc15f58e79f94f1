//! A run of a listing over a link and a sink.
ghost use Rattle.std.specs.Prelude.{◌<◌, ℕ, List, Option, length, IfOk};
ghost use Rattle.std.specs.Arc.{arc_value};
ghost use Rattle.bilateral.specs.Rows.{table_of};
ghost use Rattle.outside.specs.Links.LinkAnswers.{LinkAnswers};
ghost use Rattle.asking_end.specs.Links.LinkUses.{HasHeard};
ghost use Rattle.asking_end.specs.Service.Talks.{IsTalk};
ghost use Rattle.asking_end.specs.Service.Runs.{TalksOver};
ghost use Rattle.tase_discover.specs.Listings as own;
ghost use Rattle.tase_discover.specs.Listers.{TableListing, listing_of};
ghost use Rattle.tase_discover.specs.Acts.{listing_acts};

use crate::discover::title_of;
use crate::end::ListingEnd;
use crate::listing::Listing;
use asking_end::service::{RunEnd, Talk, Terminal, run_asking};
use bilateral::Centre;
use std::alloc::{AllocError, Global};
use std::sync::{Arc, Wait};

/// A talk that lists what the peer with this number offers.
pub fn listing_talk(
    alloc: Global,
    centre: &Arc<Centre>,
    peer: u32,
) -> Result<Talk<Listing>, AllocError>
    requires { peer < length (arc_value centre.now).tables }
    ensures { IfOk result (IsTalk listing_acts (table_of (arc_value centre.now) peer).title
        (listing_of (own.first_table (arc_value centre.now) peer))) }
{
    let listing = Listing::new(alloc, centre, peer)?;
    let title = title_of(centre, peer)?;
    Talk::new(alloc, title, listing)
}

/// Lists what a peer offers over a link and a sink, until the association ends or one of these
/// fails.
pub fn run_discover<R: Wait, T: Terminal>(
    rt: &R,
    talk: &mut Talk<Listing>,
    terminal: &mut T,
) -> RunEnd<ListingEnd>
    ensures { (title : Option (List ℕ)) (listing : TableListing) (first : LinkAnswers)
        → IsTalk listing_acts title listing talk.old → HasHeard (T.told terminal.old).link first
        → TalksOver listing_acts title listing (T.told terminal.old) (T.told terminal.new) first
        result talk.new.asking }
{
    run_asking(rt, talk, terminal)
}
