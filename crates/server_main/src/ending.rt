//! The end of a server, of several the first.
ghost use Rattle.std.specs.Prelude.{◌≡◌, true, false, Some};
ghost use Rattle.std.specs.List.{list_any};
ghost use Rattle.std.specs.Option.{option_or};
ghost use Rattle.node_server.specs.Feeding.{is_source_fault};
ghost use Rattle.node_server.specs.Ticking.{is_clock_fault};
ghost use Rattle.server_main.specs.Rounds.Rounds.{is_listener_end};
ghost use Rattle.server_main.specs.ServedParts.{is_refused_work, is_listener_work};
ghost use Rattle.server_main.specs.ServedParts.{has_source_fault, has_clock_fault, fails_outside};
ghost use Rattle.server_main.specs.ServedParts.{full_of_rounds, full_of_work, full_of_fed};
ghost use Rattle.server_main.specs.ServedParts.{full_of_feed, full_of_ticked, full_of_ticks};
ghost use Rattle.server_main.specs.ServedParts.{full_of_conn, full_of_link, full_of_links};
ghost use Rattle.server_main.specs.ServedParts.{first_full, bad_line_fed, bad_line_of, EndsBy};
ghost use Rattle.server_main.specs.ServedParts.{is_read_out, has_read_out, is_short_ticks};
ghost use Rattle.server_main.specs.ServedParts.{is_short_clock, is_short_conn, is_short_link};
ghost use Rattle.server_main.specs.ServedParts.{IsAllDone};
ghost use Rattle.server_main.specs.Ending.{EndsPlain, EndsUnfull, EndsInside};

use crate::fullness::Fullness;
use crate::run::{FeedSeat, LinkSeat, Seats, ServingEnd, TickSeat};
use crate::serve_end::ServeEnd;
use crate::work_end::WorkEnd;
use node_server::connection::ConnEnd;
use node_server::{FeedEnd, TickEnd};

/// How a server ends whose work ended so, whose plant failed or not, and whose jobs ended as these
/// seats say.
pub(crate) fn serve_end(work: WorkEnd, plant_failed: bool, seats: &Seats) -> ServeEnd
    ensures { EndsBy work plant_failed seats.now result }
{
    if has_failed(work, plant_failed, seats) {
        return ServeEnd::Outside;
    }
    end_inside(work, seats)
}

/// How it ends where nothing failed outside.
fn end_inside(work: WorkEnd, seats: &Seats) -> ServeEnd
    ensures { EndsInside (first_full work seats.now) work seats.now result }
{
    match find_full(work, seats) {
        Some(full) => ServeEnd::Full {
            weight: full.weight,
            limit: full.limit,
        },
        None => end_unfull(work, seats),
    }
}

/// How it ends where nothing failed outside, and the history isn't full.
fn end_unfull(work: WorkEnd, seats: &Seats) -> ServeEnd
    ensures { EndsUnfull (bad_line_of seats.now.feed) work seats.now result }
{
    match bad_line_in(seats.feed) {
        Some(line) => ServeEnd::BadFeed { line },
        None => end_plain(work, seats),
    }
}

/// How it ends where, besides, the feed has no bad line.
fn end_plain(work: WorkEnd, seats: &Seats) -> ServeEnd
    ensures { EndsPlain work seats.now result }
{
    if is_done(work, seats) {
        ServeEnd::Done
    } else {
        ServeEnd::Memory
    }
}

/// True exactly where all is done.
fn is_done(work: WorkEnd, seats: &Seats) -> bool
    ensures only { result ≡ true → IsAllDone work false seats.now }
    ensures all { IsAllDone work false seats.now → result ≡ true }
{
    if work != WorkEnd::Ended(ServingEnd::Stopped) {
        return false;
    }
    if !is_read(seats.feed) {
        return false;
    }
    if seats.ticks.is_none() {
        return false;
    }
    if lacks_ticks(seats.ticks) {
        return false;
    }
    !lacks_links(seats.links.seats())
}

/// True exactly where a start was refused at the beginning, or an object failed.
fn has_failed(work: WorkEnd, plant_failed: bool, seats: &Seats) -> bool
    ensures { result ≡ fails_outside work plant_failed seats.now }
{
    if is_refused(work) {
        return true;
    }
    if has_listener_failed(work) {
        return true;
    }
    if plant_failed {
        return true;
    }
    if has_source_failed(seats.feed) {
        return true;
    }
    has_clock_failed(seats.ticks)
}

/// True exactly where a start was refused at the beginning.
fn is_refused(work: WorkEnd) -> bool
    ensures { result ≡ is_refused_work work }
{
    match work {
        WorkEnd::Refused => true,
        WorkEnd::Ended(_) => false,
    }
}

/// True exactly where the listener failed.
fn has_listener_failed(work: WorkEnd) -> bool
    ensures { result ≡ is_listener_work work }
{
    match work {
        WorkEnd::Refused => false,
        WorkEnd::Ended(end) => is_listener_fault(end),
    }
}

/// True exactly where the rounds ended by the listener.
fn is_listener_fault(end: ServingEnd) -> bool
    ensures { result ≡ is_listener_end end }
{
    match end {
        ServingEnd::ListenerFault => true,
        ServingEnd::Stopped => false,
        ServingEnd::PlantFault => false,
        ServingEnd::Full { .. } => false,
        ServingEnd::Memory => false,
    }
}

/// True exactly where the feed's source failed.
fn has_source_failed(feed: Option<FeedSeat>) -> bool
    ensures { result ≡ has_source_fault feed }
{
    match feed {
        Some(fed) => is_source_failed(fed.end),
        None => false,
    }
}

fn is_source_failed(end: FeedEnd) -> bool
    ensures { result ≡ is_source_fault end }
{
    match end {
        FeedEnd::SourceFault => true,
        FeedEnd::Ended => false,
        FeedEnd::StopLine => false,
        FeedEnd::BadLine { .. } => false,
        FeedEnd::LongLine { .. } => false,
        FeedEnd::Stopped => false,
        FeedEnd::Full { .. } => false,
        FeedEnd::Memory => false,
    }
}

/// True exactly where the clock failed.
fn has_clock_failed(ticks: Option<TickSeat>) -> bool
    ensures { result ≡ has_clock_fault ticks }
{
    match ticks {
        Some(ticked) => is_clock_failed(ticked.end),
        None => false,
    }
}

fn is_clock_failed(end: TickEnd) -> bool
    ensures { result ≡ is_clock_fault (Some end) }
{
    match end {
        TickEnd::ClockFault => true,
        TickEnd::Stopped => false,
        TickEnd::Full { .. } => false,
        TickEnd::Memory => false,
    }
}

/// By how much the history is full, by the first that ended so.
fn find_full(work: WorkEnd, seats: &Seats) -> Option<Fullness>
    ensures { result ≡ first_full work seats.now }
{
    match full_in_work(work) {
        Some(full) => Some(full),
        None => find_full_job(seats),
    }
}

/// The same of the feed, the clock and the links.
fn find_full_job(seats: &Seats) -> Option<Fullness>
    ensures { result ≡ option_or (full_of_feed seats.now.feed)
        (option_or (full_of_ticks seats.now.ticks) (full_of_links seats.now.links.seats)) }
{
    match full_in_feed(seats.feed) {
        Some(full) => Some(full),
        None => find_full_behind(seats),
    }
}

/// The same of the clock and the links.
fn find_full_behind(seats: &Seats) -> Option<Fullness>
    ensures { result ≡ option_or (full_of_ticks seats.now.ticks)
        (full_of_links seats.now.links.seats) }
{
    match full_in_ticks(seats.ticks) {
        Some(full) => Some(full),
        None => full_in_links(seats.links.seats()),
    }
}

fn full_in_work(work: WorkEnd) -> Option<Fullness>
    ensures { result ≡ full_of_work work }
{
    match work {
        WorkEnd::Refused => None,
        WorkEnd::Ended(end) => full_in_rounds(end),
    }
}

fn full_in_rounds(end: ServingEnd) -> Option<Fullness>
    ensures { result ≡ full_of_rounds end }
{
    match end {
        ServingEnd::Full { weight, limit } => Some(Fullness { weight, limit }),
        ServingEnd::Stopped => None,
        ServingEnd::ListenerFault => None,
        ServingEnd::PlantFault => None,
        ServingEnd::Memory => None,
    }
}

fn full_in_feed(feed: Option<FeedSeat>) -> Option<Fullness>
    ensures { result ≡ full_of_feed feed }
{
    match feed {
        Some(fed) => full_in_fed(fed.end),
        None => None,
    }
}

fn full_in_fed(end: FeedEnd) -> Option<Fullness>
    ensures { result ≡ full_of_fed end }
{
    match end {
        FeedEnd::Full { weight, limit } => Some(Fullness { weight, limit }),
        FeedEnd::Ended => None,
        FeedEnd::StopLine => None,
        FeedEnd::BadLine { .. } => None,
        FeedEnd::LongLine { .. } => None,
        FeedEnd::SourceFault => None,
        FeedEnd::Stopped => None,
        FeedEnd::Memory => None,
    }
}

fn full_in_ticks(ticks: Option<TickSeat>) -> Option<Fullness>
    ensures { result ≡ full_of_ticks ticks }
{
    match ticks {
        Some(ticked) => full_in_ticked(ticked.end),
        None => None,
    }
}

fn full_in_ticked(end: TickEnd) -> Option<Fullness>
    ensures { result ≡ full_of_ticked end }
{
    match end {
        TickEnd::Full { weight, limit } => Some(Fullness { weight, limit }),
        TickEnd::ClockFault => None,
        TickEnd::Stopped => None,
        TickEnd::Memory => None,
    }
}

/// The same of links, the first of them.
fn full_in_links(links: &[Option<LinkSeat>]) -> Option<Fullness>
    ensures { result ≡ full_of_links links.now }
{
    for link in links {
        match full_in_link(*link) {
            Some(full) => return Some(full),
            None => {}
        }
    }
    None
}

fn full_in_link(link: Option<LinkSeat>) -> Option<Fullness>
    ensures { result ≡ full_of_link link }
{
    match link {
        Some(linked) => full_in_conn(linked.end),
        None => None,
    }
}

fn full_in_conn(end: ConnEnd) -> Option<Fullness>
    ensures { result ≡ full_of_conn end }
{
    match end {
        ConnEnd::Full { weight, limit } => Some(Fullness { weight, limit }),
        ConnEnd::Finished => None,
        ConnEnd::PeerEnd => None,
        ConnEnd::Declined => None,
        ConnEnd::Refused(_) => None,
        ConnEnd::TooLong { .. } => None,
        ConnEnd::Overflow { .. } => None,
        ConnEnd::LinkFault => None,
        ConnEnd::Stopped => None,
        ConnEnd::Memory => None,
    }
}

/// The number of the feed's line that is bad or too long.
fn bad_line_in(feed: Option<FeedSeat>) -> Option<u64>
    ensures { result ≡ bad_line_of feed }
{
    match feed {
        Some(fed) => bad_line_at(fed.end),
        None => None,
    }
}

fn bad_line_at(end: FeedEnd) -> Option<u64>
    ensures { result ≡ bad_line_fed end }
{
    match end {
        FeedEnd::BadLine { line } => Some(line),
        FeedEnd::LongLine { line } => Some(line),
        FeedEnd::Ended => None,
        FeedEnd::StopLine => None,
        FeedEnd::SourceFault => None,
        FeedEnd::Stopped => None,
        FeedEnd::Full { .. } => None,
        FeedEnd::Memory => None,
    }
}

/// True exactly where the feed was told, and read to its end or to its `stop` line.
fn is_read(feed: Option<FeedSeat>) -> bool
    ensures { result ≡ has_read_out feed }
{
    match feed {
        Some(fed) => is_read_to_end(fed.end),
        None => false,
    }
}

fn is_read_to_end(end: FeedEnd) -> bool
    ensures { result ≡ is_read_out end }
{
    match end {
        FeedEnd::Ended => true,
        FeedEnd::StopLine => true,
        FeedEnd::BadLine { .. } => false,
        FeedEnd::LongLine { .. } => false,
        FeedEnd::SourceFault => false,
        FeedEnd::Stopped => false,
        FeedEnd::Full { .. } => false,
        FeedEnd::Memory => false,
    }
}

/// True exactly where memory was wanting for the clock's ticks.
fn lacks_ticks(ticks: Option<TickSeat>) -> bool
    ensures { result ≡ is_short_clock ticks }
{
    match ticks {
        Some(ticked) => is_lack_of_ticks(ticked.end),
        None => false,
    }
}

fn is_lack_of_ticks(end: TickEnd) -> bool
    ensures { result ≡ is_short_ticks end }
{
    match end {
        TickEnd::Memory => true,
        TickEnd::ClockFault => false,
        TickEnd::Stopped => false,
        TickEnd::Full { .. } => false,
    }
}

/// True exactly where memory was wanting for the connection of a link.
fn lacks_links(links: &[Option<LinkSeat>]) -> bool
    ensures { result ≡ list_any is_short_link links.now }
{
    links.iter().any(|link| lacks_link(*link))
}

fn lacks_link(link: Option<LinkSeat>) -> bool
    ensures { result ≡ is_short_link link }
{
    match link {
        Some(linked) => is_lack_of_conn(linked.end),
        None => false,
    }
}

fn is_lack_of_conn(end: ConnEnd) -> bool
    ensures { result ≡ is_short_conn end }
{
    match end {
        ConnEnd::Memory => true,
        ConnEnd::Finished => false,
        ConnEnd::PeerEnd => false,
        ConnEnd::Declined => false,
        ConnEnd::Refused(_) => false,
        ConnEnd::TooLong { .. } => false,
        ConnEnd::Overflow { .. } => false,
        ConnEnd::LinkFault => false,
        ConnEnd::Stopped => false,
        ConnEnd::Full { .. } => false,
    }
}
