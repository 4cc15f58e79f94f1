//! The snapshot of a node.
ghost use Rattle.std.specs.Prelude.{◌≡◌, ◌<◌, ◌≤◌, ◌^◌, ◌==◌, ◌&&◌, [], ◌∷◌, ◌++◌, length, map};
ghost use Rattle.std.specs.Prelude.{flat_map, reverse, slice_get, Some, IfOk, OnOk};
ghost use Rattle.std.specs.List.{All};
ghost use Rattle.mms_data.specs.ObjectName.{IsIdentifier};
ghost use Rattle.data_sets.specs.declared.book.DataSet.{DataSet};
ghost use Rattle.tase_views.specs.History.{last_tick};
ghost use Rattle.tase_views.specs.OwnTables.{OwnTable, domain_name};
ghost use Rattle.tase_views.specs.Weights.{weight_of};
ghost use Rattle.tase_resume.specs.Bases.{settled_past};
ghost use Rattle.tase_resume.specs.Warming as own;
ghost use Rattle.tase_resume.specs.Warming.{of_centre, places_of, warm_entries, define_event};
ghost use Rattle.tase_resume.specs.Snapshots.{IsSnapshot};

use crate::entries::Snapshot;
use ber_values::Visible;
use bilateral::Table;
use data_sets::{SetBook, books_are_lawful};
use mms_data::{Name, Scope};
use node_core::Node;
use std::alloc::{AllocError, Global};
use tase_views::{Call, CallKind, DeviceTag, Entry, Event, EventKind};

/// The snapshot of a node: each table chosen, each point's last value, each tag, the moment, and
/// the data sets of each peer, as a node that stops and starts again is left with.
pub fn snapshot_of(alloc: Global, node: &Node) -> Result<Snapshot, AllocError>
    ensures entries { IfOk result (λ snapshot. snapshot
        ≡ warm_entries node.now.setup.centre (reverse node.now.history)) }
    ensures sound { IfOk result (λ snapshot. weight_of (reverse snapshot) ≤ 2 ^ 31
        → IsSnapshot node.now.setup.centre snapshot) }
{
    node.history_is_lived();
    let _peers = node.centre().peers();
    let mut snapshot = Snapshot::new(alloc);
    put_tables(&mut snapshot, node)?;
    put_values(&mut snapshot, node)?;
    put_tags(&mut snapshot, node)?;
    put_moment(&mut snapshot, node)?;
    put_sets(&mut snapshot, node)?;
    Ok(snapshot)
}

/// Adds an event of the centre's seat.
fn put(out: &mut Snapshot, kind: EventKind) -> Result<(), AllocError>
    ensures { OnOk result (out.new ≡ out.old ++ of_centre kind ∷ []) }
{
    let event = Event::new(kind);
    out.push(Entry { who: 0, event })
}

/// Adds the choice of each peer's table.
fn put_tables(out: &mut Snapshot, node: &Node) -> Result<(), AllocError>
    ensures { let rows = node.now.setup.centre in OnOk result (out.new ≡ out.old
        ++ map of_centre (flat_map (own.table_told rows (settled_past (reverse node.now.history)))
        (places_of rows.tables))) }
{
    for peer in 0..node.centre().peers() {
        put_table(out, node, peer)?;
    }
    Ok(())
}

/// Adds the choice of a peer's table, unless it is the first one.
fn put_table(out: &mut Snapshot, node: &Node, peer: u32) -> Result<(), AllocError>
    requires { peer < length node.now.setup.centre.tables }
    ensures { OnOk result (out.new ≡ out.old ++ map of_centre
        (own.table_told node.now.setup.centre (settled_past (reverse node.now.history)) peer)) }
{
    let variant = node.chosen(peer);
    if variant == 0 {
        return Ok(());
    }
    put(out, EventKind::Table { peer, variant })
}

/// Adds the last value of each point.
fn put_values(out: &mut Snapshot, node: &Node) -> Result<(), AllocError>
    ensures { let rows = node.now.setup.centre in OnOk result (out.new ≡ out.old
        ++ map of_centre (flat_map (own.value_told rows (settled_past (reverse node.now.history)))
        (places_of rows.points))) }
{
    for point in 0..node.centre().points() {
        put_value(out, node, point)?;
    }
    Ok(())
}

/// Adds the last value of a point, if it was given one.
fn put_value(out: &mut Snapshot, node: &Node, point: u32) -> Result<(), AllocError>
    requires { point < length node.now.setup.centre.points }
    ensures { OnOk result (out.new ≡ out.old ++ map of_centre
        (own.value_told node.now.setup.centre (settled_past (reverse node.now.history)) point)) }
{
    match node.last_update(point) {
        Some(value) => put(
            out,
            EventKind::Update {
                point,
                value: *value,
            },
        ),
        None => Ok(()),
    }
}

/// Adds the tag of each device.
fn put_tags(out: &mut Snapshot, node: &Node) -> Result<(), AllocError>
    ensures { let rows = node.now.setup.centre in OnOk result (out.new ≡ out.old
        ++ map of_centre (flat_map (own.tag_told rows (settled_past (reverse node.now.history)))
        (places_of rows.devices))) }
{
    for device in 0..node.centre().devices() {
        put_tag(out, node, device)?;
    }
    Ok(())
}

/// Adds the tag of a device, if it has one or a reason.
fn put_tag(out: &mut Snapshot, node: &Node, device: u32) -> Result<(), AllocError>
    requires { device < length node.now.setup.centre.devices }
    ensures { OnOk result (out.new ≡ out.old ++ map of_centre
        (own.tag_told node.now.setup.centre (settled_past (reverse node.now.history)) device)) }
{
    let tag = node.tag(device);
    let reason = node.tag_reason(device);
    if is_blank(tag, reason) {
        return Ok(());
    }
    let tag = DeviceTag::new(tag, reason.clone()?);
    put(out, EventKind::Tag { device, tag })
}

/// Whether there is no tag, and no reason for it.
fn is_blank(tag: u8, reason: &Visible) -> bool
    ensures { result ≡ ((tag == 0) && (length reason.now == 0)) }
{
    tag == 0 && reason.as_slice().is_empty()
}

/// Adds the moment, unless the clock never stood anywhere.
fn put_moment(out: &mut Snapshot, node: &Node) -> Result<(), AllocError>
    ensures { OnOk result (out.new ≡ out.old ++ map of_centre
        (own.moment_event (last_tick (settled_past (reverse node.now.history))))) }
{
    let now = node.last_tick();
    if now == 0 {
        return Ok(());
    }
    put(out, EventKind::Tick { now })
}

/// Adds the data sets of each peer.
fn put_sets(out: &mut Snapshot, node: &Node) -> Result<(), AllocError>
    ensures { let rows = node.now.setup.centre in OnOk result (out.new ≡ out.old
        ++ map of_centre (flat_map (own.sets_told rows (settled_past (reverse node.now.history)))
        (places_of rows.tables))) }
{
    for peer in 0..node.centre().peers() {
        put_peer_sets(out, node, peer)?;
    }
    Ok(())
}

/// Adds the data sets of a peer, if they stay: where another table waits to come into force, they
/// don't.
fn put_peer_sets(out: &mut Snapshot, node: &Node, peer: u32) -> Result<(), AllocError>
    requires { peer < length node.now.setup.centre.tables }
    ensures { OnOk result (out.new ≡ out.old ++ map of_centre
        (own.sets_told node.now.setup.centre (settled_past (reverse node.now.history)) peer)) }
{
    node.history_is_lived();
    let _peers = node.centre().peers();
    let force = node.force(peer);
    if force != node.chosen(peer) {
        return Ok(());
    }
    let book = node.data_sets(peer);
    if book.count() == 0 {
        return Ok(());
    }
    let table = node.centre().variant(peer, force);
    put(out, EventKind::Open { peer })?;
    put_definitions(out, table, book)?;
    put(out, EventKind::Close)
}

/// Adds the definitions of data sets.
fn put_definitions(out: &mut Snapshot, table: &Table, book: &SetBook) -> Result<(), AllocError>
    requires domain { IsIdentifier table.now.domain }
    requires named { All (λ set. IsIdentifier set.name) book.now.sets }
    ensures { (owned : OwnTable) → owned.domain ≡ table.now.domain → OnOk result (out.new
        ≡ out.old ++ map of_centre (map (define_event owned) book.now.sets)) }
{
    for index in 0..book.count() {
        put_definition(out, table, book, index)?;
    }
    Ok(())
}

/// Adds the definition of the data set at a place.
fn put_definition(
    out: &mut Snapshot,
    table: &Table,
    book: &SetBook,
    index: usize,
) -> Result<(), AllocError>
    requires domain { IsIdentifier table.now.domain }
    requires named { All (λ set. IsIdentifier set.name) book.now.sets }
    requires there { index < length book.now.sets }
    ensures { (owned : OwnTable) (set : DataSet) → owned.domain ≡ table.now.domain
        → slice_get book.now.sets index ≡ Some set → OnOk result (out.new
        ≡ out.old ++ of_centre (define_event owned set) ∷ []) }
{
    books_are_lawful(book);
    let name = book.name(index).unwrap();
    let members = book.members(name).unwrap().clone()?;
    let set = own_name(table, name)?;
    let call = Call::new(CallKind::Define { set, members });
    put(out, EventKind::Request { call })
}

/// A name in the domain of a table.
fn own_name(table: &Table, item: &Visible) -> Result<Name, AllocError>
    requires domain { IsIdentifier table.now.domain }
    requires item { IsIdentifier item.now }
    ensures { (owned : OwnTable) → owned.domain ≡ table.now.domain
        → IfOk result (λ name. name ≡ domain_name owned item.now) }
{
    let domain = table.domain.clone()?;
    Ok(Name::new(Scope::Domain(domain), item.clone()?))
}
