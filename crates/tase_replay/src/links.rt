//! The links of peers in a scenario: what a line gives to one, and its connection.
ghost use Rattle.std.specs.Prelude.{◌≡◌, ◌==◌, ◌<◌, ℕ, List, [], ◌∷◌, ◌++◌, Some, None, IfOk};
ghost use Rattle.std.specs.Prelude.{IfSome, OnOk, OnErr, length, reverse, nat_eq, option_map};
ghost use Rattle.std.specs.Prelude.{if◌then◌else◌};
ghost use Rattle.std.specs.HashMap.{get};
ghost use Rattle.std.specs.Arc.{arc_value};
ghost use Rattle.plain_text.specs.Numbers.{if_passes};
ghost use Rattle.plain_text.specs.Words.{words};
ghost use Rattle.conn_service.specs.TaseConn.Map.Inputs.{Item, IsLinkInput, piece as a_piece};
ghost use Rattle.conn_service.specs.TaseConn.Places.{IsPlaced, GainsItem};
ghost use Rattle.conn_service.specs.TaseConn.Taken.{TakesIn};
ghost use Rattle.conn_service.specs.TaseConn.Talking.{IsResting};
ghost use Rattle.conn_service.specs.Courses.Serving.{Serves};
ghost use Rattle.conn_service.specs.Attending.{Attends};
ghost use Rattle.tase_replay.specs.Links as spec;
ghost use Rattle.tase_replay.specs.Links.{given_seen, item_seen, IsFit};
ghost use Rattle.tase_replay.specs.Play.{Scene, first_scene};
ghost use Rattle.tase_replay.specs.Standing.{AreSeatsUsed, NotesUse, Finds, Begun, IsAwaiting};
ghost use Rattle.tase_replay.specs.Standing.{noted_with, place_going};

use crate::entries::read_seat;
use bilateral::Centre;
use conn_service::attend;
use conn_service::connection::Conn;
use conn_service::node::Node;
use hex::FromHexError;
use plain_text::next_word;
use std::alloc::{AllocError, Global};
use std::collections::HashMap;
use std::sync::Arc;
use tase_views::Entry;

/// The octets that a line gives to a link, at most.
const LINE_OCTETS: usize = 16_384;

// Definitions cite this limit, so that it stands here as a number too.
const _: () = prove!(LINE_OCTETS == 16_384);

/// What a line gives to a link.
#[derive(Drop)]
pub(crate) enum LinkItem {
    /// Some octets.
    Piece(Vec<u8>),
    /// Nothing for now.
    Idle,
    /// Nothing any more.
    End,
}

/// An item that the link of a seat gives.
#[derive(Drop)]
pub(crate) struct LineItem {
    pub(crate) who: u64,
    pub(crate) item: LinkItem,
}

/// Whether a line with this first word is a link's.
pub(crate) fn is_link_word(verb: &[u8]) -> bool
    ensures { result ≡ spec.is_link_word verb.now }
{
    verb == b"in".as_slice() || verb == b"idle".as_slice() || verb == b"end".as_slice()
}

/// What a link's line gives, where it is one of the forms. `text` is the line behind its first
/// word.
pub(crate) fn read_given(
    alloc: Global,
    verb: &[u8],
    text: &[u8],
) -> Result<Option<LineItem>, AllocError>
    ensures given { IfOk result (λ found.
        option_map given_seen found ≡ spec.given_of (verb.now ∷ words text.now)) }
    ensures fits { IfOk result (λ found. IfSome found (λ given. IsFit given.item)) }
{
    if verb == b"in".as_slice() {
        read_piece_given(alloc, text)
    } else if verb == b"idle".as_slice() {
        Ok(read_item_given(text, LinkItem::Idle))
    } else if verb == b"end".as_slice() {
        Ok(read_item_given(text, LinkItem::End))
    } else {
        Ok(None)
    }
}

/// `W HEX` behind `in`.
fn read_piece_given(alloc: Global, text: &[u8]) -> Result<Option<LineItem>, AllocError>
    ensures given { IfOk result (λ found.
        option_map given_seen found ≡ spec.piece_given (words text.now)) }
    ensures fits { IfOk result (λ found. IfSome found (λ given. IsFit given.item)) }
{
    let Some((seat, rest)) = next_word(text) else {
        return Ok(None);
    };
    let Some((digits, rest)) = next_word(rest) else {
        return Ok(None);
    };
    if next_word(rest).is_some() {
        return Ok(None);
    }
    let Some(who) = read_seat(seat) else {
        return Ok(None);
    };
    let Some(item) = read_piece(alloc, digits)? else {
        return Ok(None);
    };
    Ok(Some(LineItem { who, item }))
}

/// The 1 to 16,384 octets that pairs of hexadecimal digits in either case are.
fn read_piece(alloc: Global, digits: &[u8]) -> Result<Option<LinkItem>, AllocError>
    ensures piece { IfOk result (λ found.
        option_map item_seen found ≡ spec.piece_in digits.now) }
    ensures fits { IfOk result (λ found. IfSome found IsFit) }
{
    match hex::decode(alloc, digits) {
        Ok(octets) => Ok(if_piece(octets)),
        Err(FromHexError::OutOfMemory) => Err(AllocError),
        Err(FromHexError::InvalidHexCharacter { .. }) => Ok(None),
        Err(FromHexError::OddLength) => Ok(None),
        Err(FromHexError::InvalidStringLength) => Ok(None),
    }
}

fn if_piece(octets: Vec<u8>) -> Option<LinkItem>
    ensures piece { option_map item_seen result
        ≡ option_map a_piece (if_passes spec.is_piece octets.items) }
    ensures fits { IfSome result IsFit }
{
    if octets.is_empty() || octets.len() > LINE_OCTETS {
        None
    } else {
        Some(LinkItem::Piece(octets))
    }
}

/// `W` behind `idle` or `end`.
fn read_item_given(text: &[u8], item: LinkItem) -> Option<LineItem>
    requires { IsFit item }
    ensures given { option_map given_seen result
        ≡ spec.item_given (item_seen item) (words text.now) }
    ensures fits { IfSome result (λ given. IsFit given.item) }
{
    let (seat, rest) = next_word(text)?;
    if next_word(rest).is_some() {
        return None;
    }
    let who = read_seat(seat)?;
    Some(LineItem { who, item })
}

/// What a seat is used for.
#[derive(Clone, Copy)]
enum Use {
    /// By lines of its own.
    Own,
    /// By a link, whose connection stands at this place.
    Link(usize),
}

/// The seats of a scenario: each is used by lines of its own, or by those of a link.
#[derive(Drop)]
pub(crate) struct Seats {
    uses: HashMap<u64, Use>,
    pub(crate) conns: Vec<Conn>,
}

/// What a seat is used for, if it is used.
fn use_of(uses: &HashMap<u64, Use>, who: u64) -> Option<Use>
    ensures { result ≡ get nat_eq uses.now who }
{
    uses.get(&who).copied()
}

/// Notes what a seat is used for.
fn note_use(uses: &mut HashMap<u64, Use>, who: u64, kind: Use) -> Result<(), AllocError>
    ensures { OnOk result ((other : ℕ) → get nat_eq uses.new other
        ≡ (if who == other then Some kind else get nat_eq uses.old other)) }
{
    uses.insert(who, kind)?;
    Ok(())
}

/// Notes that an entry's seat is used by lines of its own.
fn note_entry(uses: &mut HashMap<u64, Use>, entry: Option<Entry>) -> Result<(), AllocError>
    ensures { OnOk result ((who : ℕ) → get nat_eq uses.new who
        ≡ noted_with entry who (get nat_eq uses.old who)) }
{
    match entry {
        Some(entry) => note_use(uses, entry.who, Use::Own),
        None => Ok(()),
    }
}

impl Seats {
    /// No seat is used yet.
    fn new(alloc: Global) -> Seats
        ensures conns { result.conns.items ≡ [] }
        ensures uses { (who : ℕ) → get nat_eq result.uses who ≡ None }
    {
        Seats {
            uses: HashMap::new(alloc),
            conns: Vec::new(alloc),
        }
    }

    /// The seats that a node's history has are used already.
    pub(crate) fn of(alloc: Global, node: &Node) -> Result<Seats, AllocError>
        ensures { IfOk result (λ seats. AreSeatsUsed node.now.setup.centre
            (first_scene (reverse node.now.history)) seats) }
    {
        let mut seats = Seats::new(alloc);
        for place in 0..node.history_len() {
            note_entry(&mut seats.uses, node.entry(place)?)?;
        }
        Ok(seats)
    }

    /// Notes that a line of its own uses a seat. Whether it may: a link doesn't use it.
    pub(crate) fn note_own(&mut self, who: u64) -> Result<bool, AllocError>
        ensures { IfOk result (λ own. NotesUse who self.old own self.new) }
    {
        match use_of(&self.uses, who) {
            Some(Use::Own) => Ok(true),
            Some(Use::Link(_)) => Ok(false),
            None => {
                note_use(&mut self.uses, who, Use::Own)?;
                Ok(true)
            }
        }
    }

    /// The place of the connection of a seat's link, a new one where none has begun; none where
    /// lines of its own use the seat, or the connection has ended.
    pub(crate) fn place_of(
        &mut self,
        alloc: Global,
        centre: &Arc<Centre>,
        who: u64,
    ) -> Result<Option<usize>, AllocError>
        requires sits { (scene : Scene) × AreSeatsUsed (arc_value centre.now) scene self.old }
        ensures found { (scene : Scene) → AreSeatsUsed (arc_value centre.now) scene self.old
            → IfOk result (λ place. Finds (arc_value centre.now) scene who self.new place) }
        ensures within { IfOk result (λ place.
            IfSome place (λ p. p < length self.new.conns.items)) }
    {
        match use_of(&self.uses, who) {
            Some(Use::Own) => Ok(None),
            Some(Use::Link(place)) => Ok(self.going(place)),
            None => Ok(Some(self.begin(alloc, centre, who)?)),
        }
    }

    /// The place of a connection that goes on.
    fn going(&self, place: usize) -> Option<usize>
        requires { place < length self.now.conns.items }
        ensures { result ≡ place_going self.now.conns.items place }
    {
        if self.conns[place].ended().is_some() {
            None
        } else {
            Some(place)
        }
    }

    /// Begins the connection of a seat's link, and tells its place.
    fn begin(&mut self, alloc: Global, centre: &Arc<Centre>, who: u64) -> Result<usize, AllocError>
        ensures { IfOk result (λ place. Begun (arc_value centre.now) who self.old place self.new) }
    {
        let place = self.conns.as_slice().len();
        let conn = Conn::new(alloc, centre.clone()?)?;
        self.conns.push(conn)?;
        note_use(&mut self.uses, who, Use::Link(place))?;
        Ok(place)
    }
}

/// Has a connection take an item in.
fn take_item(conn: &mut Conn, item: &LinkItem) -> Result<(), AllocError>
    requires fits { IsFit item.now }
    requires resting { IsResting conn.old }
    requires placed { IsPlaced conn.old }
    ensures stands { OnOk result (GainsItem (item_seen item.now) conn.old conn.new) }
    ensures same { OnOk result (TakesIn conn.old conn.new) }
{
    match item {
        LinkItem::Piece(octets) => conn.take_in(octets.as_slice()),
        LinkItem::Idle => {
            conn.idle_in();
            Ok(())
        }
        LinkItem::End => {
            conn.end_in();
            Ok(())
        }
    }
}

/// Has a connection take an item in, and the node act on all of it. After want of memory for the
/// item itself all is as it was.
pub(crate) fn receive(
    alloc: Global,
    node: &mut Node,
    who: u64,
    conn: &mut Conn,
    item: &LinkItem,
) -> Result<(), AllocError>
    requires fits { IsFit item.now }
    requires awaits { IsAwaiting node.old.setup.centre (reverse node.old.history) who
        (item_seen item.now) conn.old }
    ensures received { (items : List Item) (said : List ℕ)
        → Serves node.old.setup.centre (reverse node.old.history) who items said None conn.old
        → IsLinkInput (items ++ item_seen item.now ∷ [])
        → OnOk result (Attends node.old.setup (reverse node.old.history) who
        (items ++ item_seen item.now ∷ []) said conn.old (reverse node.new.history) conn.new) }
    ensures unreceived { OnErr result (node.new ≡ node.old) }
    ensures setup { node.new.setup ≡ node.old.setup }
{
    take_item(conn, item)?;
    attend(alloc, node, who, conn);
    Ok(())
}
