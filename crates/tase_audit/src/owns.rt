//! Whether the tables of two centres say the same of a peer.
ghost use Rattle.std.specs.Prelude.{◌≡◌, ◌<◌, ◌↔◌, ◌&&◌, IsTrue, length, map, bytes_eq, ◌==◌, Some};
ghost use Rattle.std.specs.List.{All};
ghost use Rattle.std.specs.Option.{option_eq};
ghost use Rattle.std.specs.Cmp.Lexicographic.{pointwise};
ghost use Rattle.std.specs.Ordering.{int_eq};
ghost use Rattle.tase_points.specs.Same.{same_component};
ghost use Rattle.bilateral.specs.Rows.{IsCentre, place_of_peer, variants_of};
ghost use Rattle.tase_views.specs.OwnTables.{own_point, own_device, own_table};
ghost use Rattle.tase_audit.specs.Owns.{same_command, same_device_row, same_own_device};
ghost use Rattle.tase_audit.specs.Owns.{same_own_point, same_own_table, own_terms, same_terms};
ghost use Rattle.tase_audit.specs.Owns.{same_owns, same_owns_at, HaveSameOwns, AreRowsThere};

use ber_values::Oid;
use bilateral::{Centre, Control, DeviceRow, See, Table};
use sbo_device::CommandKind;
use tase_points::Component;

/// Whether two centres have the peer with this key, and their tables say the same of it: its title,
/// the octets that may wait for it, and in order all that its tables name. Points, devices and
/// peers may have other numbers.
pub fn own_equal(one: &Centre, other: &Centre, key: &[u8]) -> bool
    ensures value { result ≡ same_owns one.now other.now key.now }
    ensures equal { IsTrue result ↔ HaveSameOwns one.now other.now key.now }
{
    same_by_key(one, other, key)
}

/// Whether two centres have the peer with this key, and say the same of it.
fn same_by_key(one: &Centre, other: &Centre, key: &[u8]) -> bool
    ensures { result ≡ same_owns one.now other.now key.now }
{
    match one.find_peer(key) {
        None => false,
        Some(peer) => same_as_peer(one, peer, other, key),
    }
}

/// Whether a centre has the peer with this key, and says of it what another says of one of its own.
fn same_as_peer(one: &Centre, peer: u32, other: &Centre, key: &[u8]) -> bool
    requires { peer < length one.now.tables }
    ensures { result ≡ same_owns_at one.now other.now (Some peer)
        (place_of_peer other.now key.now) }
{
    match other.find_peer(key) {
        None => false,
        Some(place) => same_peer(one, peer, other, place),
    }
}

/// Whether two centres say the same of peers of theirs.
fn same_peer(one: &Centre, peer: u32, other: &Centre, place: u32) -> bool
    requires here { peer < length one.now.tables }
    requires there { place < length other.now.tables }
    ensures { result ≡ same_terms (own_terms one.now peer) (own_terms other.now place) }
{
    let _here = one.peers();
    let _there = other.peers();
    same_heads(one.table(peer), other.table(place)) && same_variants(one, peer, other, place)
}

/// Whether two tables have the same title and pending octets.
fn same_heads(one: &Table, other: &Table) -> bool
    ensures { result
        ≡ (option_eq bytes_eq one.now.title other.now.title)
        && (one.now.pending == other.now.pending) }
{
    same_title(&one.title, &other.title) && one.pending == other.pending
}

fn same_title(one: &Option<Oid>, other: &Option<Oid>) -> bool
    ensures { result ≡ option_eq bytes_eq one.now other.now }
{
    match (one, other) {
        (Some(one), Some(other)) => one == other,
        (None, None) => true,
        _ => false,
    }
}

/// Whether all tables of two peers name the same, in the same order.
fn same_variants(one: &Centre, peer: u32, other: &Centre, place: u32) -> bool
    requires lawful { IsCentre one.now }
    requires too { IsCentre other.now }
    requires here { peer < length one.now.tables }
    requires there { place < length other.now.tables }
    ensures { result ≡ pointwise same_own_table (map (own_table one.now) (variants_of one.now peer))
        (map (own_table other.now) (variants_of other.now place)) }
{
    let count = one.variants(peer);
    if count != other.variants(place) {
        return false;
    }
    for variant in 0..count {
        let table = one.variant(peer, variant);
        let theirs = other.variant(place, variant);
        if !same_table(one, table, other, theirs) {
            return false;
        }
    }
    true
}

/// Whether two tables name the same, in the same order.
fn same_table(one: &Centre, table: &Table, other: &Centre, theirs: &Table) -> bool
    requires here { AreRowsThere one.now table.now }
    requires there { AreRowsThere other.now theirs.now }
    ensures { result ≡ same_own_table (own_table one.now table.now)
        (own_table other.now theirs.now) }
{
    table.domain == theirs.domain
        && table.id == theirs.id
        && same_sees(one, table.sees.as_slice(), other, theirs.sees.as_slice())
        && same_controls(
            one,
            table.controls.as_slice(),
            other,
            theirs.controls.as_slice(),
        )
        && table.slots == theirs.slots
        && table.sets == theirs.sets
}

fn same_sees(one: &Centre, sees: &[See], other: &Centre, theirs: &[See]) -> bool
    requires here { All (λ see. see.point < length one.now.points) sees.now }
    requires there { All (λ see. see.point < length other.now.points) theirs.now }
    ensures { result ≡ pointwise same_own_point (map (own_point one.now) sees.now)
        (map (own_point other.now) theirs.now) }
{
    if sees.len() != theirs.len() {
        return false;
    }
    for place in 0..sees.len() {
        if !same_see(one, &sees[place], other, &theirs[place]) {
            return false;
        }
    }
    true
}

fn same_see(one: &Centre, see: &See, other: &Centre, theirs: &See) -> bool
    requires here { see.now.point < length one.now.points }
    requires there { theirs.now.point < length other.now.points }
    ensures { result ≡ same_own_point (own_point one.now see.now)
        (own_point other.now theirs.now) }
{
    let point = one.point(see.point);
    let their_point = other.point(theirs.point);
    point.name == their_point.name
        && point.kind.is_same(their_point.kind)
        && see.vmd == theirs.vmd
        && same_components(see.layout.as_slice(), theirs.layout.as_slice())
}

fn same_components(one: &[Component], other: &[Component]) -> bool
    ensures { result ≡ pointwise same_component one.now other.now }
{
    if one.len() != other.len() {
        return false;
    }
    for place in 0..one.len() {
        if !one[place].is_same(other[place]) {
            return false;
        }
    }
    true
}

fn same_controls(one: &Centre, controls: &[Control], other: &Centre, theirs: &[Control]) -> bool
    requires here { All (λ control. control.device < length one.now.devices) controls.now }
    requires there { All (λ control. control.device < length other.now.devices) theirs.now }
    ensures { result ≡ pointwise same_own_device (map (own_device one.now) controls.now)
        (map (own_device other.now) theirs.now) }
{
    if controls.len() != theirs.len() {
        return false;
    }
    for place in 0..controls.len() {
        if !same_control(one, &controls[place], other, &theirs[place]) {
            return false;
        }
    }
    true
}

fn same_control(one: &Centre, control: &Control, other: &Centre, theirs: &Control) -> bool
    requires here { control.now.device < length one.now.devices }
    requires there { theirs.now.device < length other.now.devices }
    ensures { result ≡ same_own_device (own_device one.now control.now)
        (own_device other.now theirs.now) }
{
    same_row(one.device(control.device), other.device(theirs.device)) && control.tag == theirs.tag
}

/// Whether two rows of devices are one.
fn same_row(one: &DeviceRow, other: &DeviceRow) -> bool
    ensures { result ≡ same_device_row one.now other.now }
{
    one.name == other.name
        && same_kind(one.kind, other.kind)
        && one.direct == other.direct
        && one.checkback == other.checkback
        && one.span == other.span
}

fn same_kind(one: CommandKind, other: CommandKind) -> bool
    ensures { result ≡ same_command one other }
{
    match (one, other) {
        (CommandKind::Command, CommandKind::Command) => true,
        (
            CommandKind::Setpoint { low, high },
            CommandKind::Setpoint {
                low: least,
                high: most,
            },
        ) => { low == least && high == most }
        _ => false,
    }
}
