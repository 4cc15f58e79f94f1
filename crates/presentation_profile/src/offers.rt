//! The presentation contexts that a connect offers (ISO 8823-1, 8.2).
ghost use Rattle.std.specs.Prelude.{◌≡◌, ◌+◌, ◌<◌, ◌≤◌, ◌^◌, ◌++◌, length, flat_map, IfOk};
ghost use Rattle.std.specs.Prelude.{OnOk, OnErr, IsTrue, ◌↔◌};
ghost use Rattle.std.specs.List.{All};
ghost use Rattle.std.specs.List.{slice_range};
ghost use Rattle.plain_text.specs.Extends.{Extends};
ghost use Rattle.ber_values.specs.Stops.{Answers};
ghost use Rattle.ber_values.specs.Lists.{count_in};
ghost use Rattle.ber_values.specs.Readers.{IsReadBy, taken_from};
ghost use Rattle.presentation_profile.specs.Offers.{transfers, offer_contents, offer, offers};
ghost use Rattle.presentation_profile.specs.Offers.{names_ber, NamesNext};
ghost use Rattle.presentation_profile.specs.Written.{offered_octets, offer_octets, offers_octets};
ghost use Rattle.presentation_profile.specs.Written.{ber_octets, IsOffered, AreOffers};

use ber_values::{
    BerFault, Oid, Part, Stop, natural_len, octets_from, or_undo, part_len, settle, short, surplus,
    take_end, take_part, write_head, write_natural, write_oid,
};
use item_list::ItemList;
use std::alloc::{AllocError, Global};

/// The most contexts that are offered.
pub const MOST_OFFERS: usize = 16;

/// The largest id of a context.
pub const LARGEST_ID: u32 = 65_535;

// Definitions cite these limits, so that each stands here as a number too.
const _: () = prove!(MOST_OFFERS == 16);

const _: () = prove!(LARGEST_ID == 65_535);

/// An offer of a presentation context: its id, the name of its abstract syntax, and whether BER is
/// among its transfer syntaxes.
#[derive(Debug, Drop)]
pub struct Offered {
    pub id: u32,
    pub abstract_name: Oid,
    pub ber: bool,
}

/// Offers in order.
pub type Offers = ItemList<Offered>;

/// BER's name, joint-iso-itu-t asn1(1) basic-encoding(1).
pub(crate) const BER: [u8; 2] = [0x51, 1];

/// The tag of a sequence.
const SEQUENCE: u8 = 0x30;

/// The tag of the list of offers.
pub(crate) const OFFERS: u8 = 0xA4;

/// The offers that begin at `at` in octets that end at `end`, and the place after them: 1 to
/// [`MOST_OFFERS`] of them, with ids from 1 to [`LARGEST_ID`] (ISO 8823-1,
/// Presentation-context-definition-list). Or else where the octets break a rule first, and which.
pub fn read_offers(
    alloc: Global,
    bytes: &[u8],
    at: usize,
    end: usize,
) -> Result<Result<(Offers, usize), BerFault>, AllocError>
    requires start { at ≤ end }
    requires stop { end ≤ length bytes.now }
    ensures exact { IfOk result (λ read. IsReadBy offers
        (taken_from at (slice_range bytes.now at end)) at (slice_range bytes.now at end) read) }
    ensures within { IfOk result (λ read. IfOk read (λ x. (at < x.1) × (x.1 ≤ end))) }
{
    offers_from(alloc, &bytes[at..end], at)
}

fn offers_from(
    alloc: Global,
    octets: &[u8],
    at: usize,
) -> Result<Result<(Offers, usize), BerFault>, AllocError>
    requires { at + length octets.now < 2 ^ 64 }
    ensures exact { IfOk result (λ read. IsReadBy offers (taken_from at octets.now) at octets.now
        read) }
    ensures within { IfOk result (λ read. IfOk read
        (λ x. (at < x.1) × (x.1 ≤ at + length octets.now))) }
{
    settle(take_offers(alloc, octets, at))
}

/// The offers at the front of octets, of which the first has the place `at`, and the place after
/// them.
#[tactic(auto, unfolding(crate::specs::Offers::offers, ber_values::specs::Parts::part_in))]
pub fn take_offers(alloc: Global, octets: &[u8], at: usize) -> Result<(Offers, usize), Stop>
    requires { at + length octets.now < 2 ^ 64 }
    ensures exact { Answers (taken_from at octets.now) result (offers.reading at octets.now) }
    ensures within { IfOk result (λ x. (at < x.1) × (x.1 ≤ at + length octets.now)) }
{
    let part = take_part(octets, at, OFFERS)?;
    let offered = offers_in(alloc, &part)?;
    Ok((offered, part.head.next))
}

/// The offers that the contents of an element are.
fn offers_in(alloc: Global, part: &Part<'_>) -> Result<Offers, Stop>
    requires { part.now.head.body + length part.now.contents.now < 2 ^ 64 }
    ensures { Answers (λ os. os) result
        ((count_in 1 MOST_OFFERS offer).reading part.now.head part.now.contents.now) }
{
    let mut offered = Offers::new(alloc);
    let mut at = part.head.body;
    let mut rest = part.contents;
    while !rest.is_empty() {
        if offered.len() == MOST_OFFERS {
            return Err(Stop::Fault(surplus(at)));
        }
        let (one, next) = take_offer(alloc, rest, at)?;
        offered.push(one)?;
        rest = octets_from(rest, at, next);
        at = next;
    }
    if offered.len() == 0 {
        return Err(Stop::Fault(short(at)));
    }
    Ok(offered)
}

/// The offer at the front of octets, and the place after it.
#[tactic(auto, unfolding(crate::specs::Offers::offer, ber_values::specs::Parts::part_in))]
fn take_offer(alloc: Global, octets: &[u8], at: usize) -> Result<(Offered, usize), Stop>
    requires { at + length octets.now < 2 ^ 64 }
    ensures exact { Answers (taken_from at octets.now) result (offer.reading at octets.now) }
    ensures within { IfOk result (λ x. (at < x.1) × (x.1 ≤ at + length octets.now)) }
{
    let part = take_part(octets, at, SEQUENCE)?;
    let offered = offer_from(alloc, &part)?;
    Ok((offered, part.head.next))
}

/// Whether this names BER.
fn names_ber(name: &[u8]) -> bool
    ensures { result ≡ names_ber name.now }
{
    name == BER.as_slice()
}

/// Whether BER is among the transfer syntaxes in this element.
fn read_transfers(part: &Part<'_>) -> Result<bool, BerFault>
    requires { part.now.head.body + length part.now.contents.now < 2 ^ 64 }
    ensures { result ≡ transfers.reading part.now.head part.now.contents.now }
{
    let mut ber = false;
    let mut at = part.head.body;
    let mut rest = part.contents;
    while !rest.is_empty() {
        let (is_ber, next) = read_transfer(rest, at)?;
        ber = ber | is_ber;
        rest = octets_from(rest, at, next);
        at = next;
    }
    Ok(ber)
}

/// Whether the name at the front of octets is BER's, and the place after it.
#[tactic(auto, unfolding(ber_values::specs::Parts::part_in))]
fn read_transfer(octets: &[u8], at: usize) -> Result<(bool, usize), BerFault>
    requires { at + length octets.now < 2 ^ 64 }
    ensures exact { NamesNext at octets.now result }
    ensures within { IfOk result (λ x. (at < x.1) × (x.1 ≤ at + length octets.now)) }
{
    let part = take_part(octets, at, 6)?;
    let name = part.oid_octets()?;
    Ok((names_ber(name), part.head.next))
}

/// The offer in this element.
#[tactic(auto, unfolding(crate::specs::Offers::offer_contents, ber_values::specs::Parts::all_in, ber_values::specs::Parts::part_in, ber_values::specs::Grammars::then_in, ber_values::specs::Grammars::map_in))]
fn offer_from(alloc: Global, part: &Part<'_>) -> Result<Offered, Stop>
    requires { part.now.head.body + length part.now.contents.now < 2 ^ 64 }
    ensures { Answers (λ o. o) result (offer_contents.reading part.now.head part.now.contents.now) }
{
    let id_part = take_part(part.contents, part.head.body, 2)?;
    let id = id_part.unsigned_within(1, LARGEST_ID)?;
    let name_part = take_part(id_part.rest, id_part.head.next, 6)?;
    let abstract_name = name_part.oid(alloc)?;
    let transfers_part = take_part(name_part.rest, name_part.head.next, SEQUENCE)?;
    let ber = read_transfers(&transfers_part)?;
    take_end(transfers_part.rest, transfers_part.head.next)?;
    Ok(Offered {
        id,
        abstract_name,
        ber,
    })
}

/// Whether offers may be written: 1 to [`MOST_OFFERS`] of them, with ids from 1 to [`LARGEST_ID`],
/// each with BER.
pub fn are_offers(offers: &[Offered]) -> bool
    ensures { IsTrue result ↔ AreOffers offers.now }
{
    !offers.is_empty() && offers.len() <= MOST_OFFERS && all_offered(offers)
}

fn all_offered(offers: &[Offered]) -> bool
    ensures { IsTrue result ↔ All IsOffered offers.now }
{
    offers.iter().all(is_offered)
}

/// Whether an offer has an id that may be written, and BER.
fn is_offered(offer: &Offered) -> bool
    ensures { IsTrue result ↔ IsOffered offer.now }
{
    1 <= offer.id && offer.id <= LARGEST_ID && offer.ber
}

/// How many octets [`write_offers`] appends.
pub fn offers_len(offers: &Offers) -> usize
    requires { AreOffers offers.now }
    ensures value { result ≡ length (offers_octets offers.now) }
    ensures few { result ≤ 900 }
{
    part_len(each_len(offers.as_slice()))
}

/// The length of the contents of a list of offers.
fn each_len(offers: &[Offered]) -> usize
    requires { length offers.now ≤ MOST_OFFERS }
    ensures value { result ≡ length (flat_map offer_octets offers.now) }
    ensures few { result ≤ 832 }
{
    let mut len = 0;
    for offer in offers {
        len += offer_len(offer);
    }
    len
}

fn offer_len(offer: &Offered) -> usize
    ensures value { result ≡ length (offer_octets offer.now) }
    ensures few { result ≤ 52 }
{
    2 + offered_len(offer)
}

/// The length of the contents of an offer.
fn offered_len(offer: &Offered) -> usize
    ensures value { result ≡ length (offered_octets offer.now) }
    ensures few { result ≤ 50 }
{
    let id = natural_len(u64::from(offer.id));
    let name = offer.abstract_name.octets().len();
    10 + id + name
}

/// Appends 1 to [`MOST_OFFERS`] offers, each of which has BER and is written with it alone. After
/// want of memory `out` is as before.
pub fn write_offers(out: &mut Vec<u8>, offers: &Offers) -> Result<(), AllocError>
    requires { AreOffers offers.now }
    ensures ok { OnOk result (out.new.items ≡ out.old.items ++ offers_octets offers.now) }
    ensures err { OnErr result (out.new.items ≡ out.old.items) }
{
    let mark = out.len();
    let done = put_offers(out, offers);
    or_undo(out, mark, done)
}

pub(crate) fn put_offers(out: &mut Vec<u8>, offers: &Offers) -> Result<(), AllocError>
    requires { AreOffers offers.now }
    ensures ok { OnOk result (out.new.items ≡ out.old.items ++ offers_octets offers.now) }
    ensures err { OnErr result (Extends out.old.items out.new.items) }
{
    write_head(out, OFFERS, each_len(offers.as_slice()))?;
    put_each(out, offers.as_slice())?;
    Ok(())
}

/// Appends offers, one after another.
#[tactic(auto, using(crate::proofs::Sizes::extended))]
fn put_each(out: &mut Vec<u8>, offers: &[Offered]) -> Result<(), AllocError>
    ensures ok { OnOk result
        (out.new.items ≡ out.old.items ++ flat_map offer_octets offers.now) }
    ensures err { OnErr result (Extends out.old.items out.new.items) }
{
    for offer in offers {
        put_offer(out, offer)?;
    }
    Ok(())
}

fn put_offer(out: &mut Vec<u8>, offer: &Offered) -> Result<(), AllocError>
    ensures ok { OnOk result (out.new.items ≡ out.old.items ++ offer_octets offer.now) }
    ensures err { OnErr result (Extends out.old.items out.new.items) }
{
    write_head(out, SEQUENCE, offered_len(offer))?;
    put_offered(out, offer)?;
    Ok(())
}

/// Appends the contents of an offer.
#[tactic(auto, unfolding(crate::specs::Written::offered_octets))]
fn put_offered(out: &mut Vec<u8>, offer: &Offered) -> Result<(), AllocError>
    ensures ok { OnOk result (out.new.items ≡ out.old.items ++ offered_octets offer.now) }
    ensures err { OnErr result (Extends out.old.items out.new.items) }
{
    write_natural(out, 2, u64::from(offer.id))?;
    write_oid(out, 6, &offer.abstract_name)?;
    put_ber(out)?;
    Ok(())
}

/// Appends BER's name as the only transfer syntax.
#[tactic(auto, unfolding(crate::specs::Written::ber_octets, ber_values::specs::Writing::length_octets))]
fn put_ber(out: &mut Vec<u8>) -> Result<(), AllocError>
    ensures ok { OnOk result (out.new.items ≡ out.old.items ++ ber_octets) }
    ensures err { OnErr result (out.new.items ≡ out.old.items) }
{
    out.extend_from_slice(&[SEQUENCE, 4, 6, 2, BER[0], BER[1]])
}
