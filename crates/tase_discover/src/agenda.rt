//! A listing as the agenda of a calling end.
use crate::end::ListingEnd;
use crate::listing::Listing;
use asking_end::{Agenda, Next};
use std::alloc::{AllocError, Global};
use tase_views::{Call, Reply, Report};

impl Agenda for Listing {
    ghost use Rattle.tase_discover.specs.Acts.{listing_acts};

    type Item = u8;

    type End = ListingEnd;

    ghost acts = { listing_acts };

    fn begin(&mut self) -> Next<ListingEnd> {
        Next::Ask
    }

    fn hear_reply(
        &mut self,
        alloc: Global,
        _number: u32,
        reply: &Reply,
        shown: &mut Vec<u8>,
    ) -> Result<Next<ListingEnd>, AllocError> {
        self.hear(alloc, reply, shown)
    }

    fn show_report(
        &self,
        _alloc: Global,
        _report: &Report,
        _shown: &mut Vec<u8>,
    ) -> Result<(), AllocError> {
        Ok(())
    }

    fn hear_report(&mut self, _report: &Report) -> Next<ListingEnd> {
        Next::Wait
    }

    fn call(&self, _alloc: Global) -> Result<Option<Call>, AllocError> {
        self.next_call()
    }
}
