//! What names stand for.
ghost use Rattle.std.specs.Prelude.{◌≡◌, ◌<◌, ◌≤◌, ◌&&◌, ◌||◌, not, Some, None, true, false};
ghost use Rattle.std.specs.Prelude.{is_some, IfSome, option_map, find, bytes_eq, codes, ◌++◌};
ghost use Rattle.std.specs.Prelude.{Contains, length, nat_eq};
ghost use Rattle.std.specs.List.{ends_with};
ghost use Rattle.bilateral.specs.declared.rows.Control.{Control as ControlRow};
ghost use Rattle.bilateral.specs.declared.rows.TheConstants.{SLOT_LIMIT};
ghost use Rattle.bilateral.specs.Rows.{place_of_see};
ghost use Rattle.tase_views.specs.OwnTables.{OwnTable, own_point, own_device, is_scope_of};
ghost use Rattle.tase_views.specs.Objects.{object_named, special_objects, is_named};
ghost use Rattle.tase_views.specs.Objects.{objects_of_device};
ghost use Rattle.tase_views.specs.Objects as objects;
ghost use Rattle.tase_views.specs.Reports as reports;
ghost use Rattle.node_core.specs.Objects.Found.{offered, special_object, object_found, point_named};
ghost use Rattle.node_core.specs.Objects.Found.{TableInForce, IsOfTable, device_objects};
ghost use Rattle.node_core.specs.Objects.Found.{slot_objects};
ghost use Rattle.node_core.specs.Objects.Found.{domain_objects};

use super::in_force::InForce;
use ber_values::Visible;
use bilateral::{Control, See};
use mms_data::{Name, Scope};

/// What a name stands for.
#[derive(Clone, Copy)]
pub enum Found<'a> {
    /// An object of the protocol itself.
    Special(Special),
    /// The next transfer set.
    NextSlot,
    /// A transfer set; the first is 0.
    Slot(u32),
    /// The status of a transfer set.
    SlotStatus(u32),
    /// The control point of a device of the table.
    ControlPoint(&'a Control),
    /// The selection of one that isn't direct.
    Selection(&'a Control),
    /// The tag of a device.
    DeviceTag(&'a Control),
    /// The time-out of a selection.
    Timeout(&'a Control),
    /// The point of a row of the table.
    Point(&'a See),
}

/// An object of the protocol itself.
#[derive(Clone, Copy)]
pub enum Special {
    /// The protocol's version.
    Version,
    /// The features that are supported.
    Features,
    /// The identifier of the peer's table.
    TableId,
    /// Of a report, its transfer set.
    SetName,
    /// Of a report, its moment.
    TimeStamp,
    /// Of a report, its conditions.
    Conditions,
    /// Of a report, an event's code.
    EventCode,
}

/// The object of the protocol itself that a name stands for, for a peer with this domain.
pub fn find_special(domain: &Visible, name: &Name) -> Option<Special>
    ensures { (table : OwnTable) → table.domain ≡ domain.now
        → option_map (special_object table) result
        ≡ option_map (λ o. o.object) (find (is_named table name.now) (special_objects table)) }
{
    let item = name.item().as_slice();
    if is_found_in(domain, name.scope(), true) {
        return special_of_device(item);
    }
    if is_found_in(domain, name.scope(), false) {
        return special_of_domain(item);
    }
    None
}

/// The object of the protocol itself with this name in the whole device.
fn special_of_device(item: &[u8]) -> Option<Special>
    ensures { (table : OwnTable) → option_map (special_object table) result
        ≡ option_map (λ o. o.object)
        (find (λ o. o.vmd && bytes_eq o.item item.now) (special_objects table)) }
{
    if b"TASE2_Version".as_slice() == item {
        Some(Special::Version)
    } else if b"Supported_Features".as_slice() == item {
        Some(Special::Features)
    } else {
        report_variable(item)
    }
}

/// The object of the protocol itself with this name in a domain.
fn special_of_domain(item: &[u8]) -> Option<Special>
    ensures { (table : OwnTable) → option_map (special_object table) result
        ≡ option_map (λ o. o.object)
        (find (λ o. not o.vmd && bytes_eq o.item item.now) (special_objects table)) }
{
    if b"Bilateral_Table_ID".as_slice() == item {
        Some(Special::TableId)
    } else {
        report_variable(item)
    }
}

/// The report variable with this name.
fn report_variable(item: &[u8]) -> Option<Special>
    ensures { (table : OwnTable) → option_map (special_object table) result
        ≡ option_map (λ o. o.object)
        (find (λ o. bytes_eq o.item item.now) (objects.report_variables true)) }
{
    if b"Transfer_Set_Name".as_slice() == item {
        Some(Special::SetName)
    } else if b"Transfer_Set_Time_Stamp".as_slice() == item {
        Some(Special::TimeStamp)
    } else if b"DSConditions_Detected".as_slice() == item {
        Some(Special::Conditions)
    } else if b"Event_Code_Detected".as_slice() == item {
        Some(Special::EventCode)
    } else {
        None
    }
}

// The names of transfer sets.
const SLOT_ITEMS: [&[u8]; 16] = [
    b"DSTrans1",
    b"DSTrans2",
    b"DSTrans3",
    b"DSTrans4",
    b"DSTrans5",
    b"DSTrans6",
    b"DSTrans7",
    b"DSTrans8",
    b"DSTrans9",
    b"DSTrans10",
    b"DSTrans11",
    b"DSTrans12",
    b"DSTrans13",
    b"DSTrans14",
    b"DSTrans15",
    b"DSTrans16",
];

// The names of their status.
const SLOT_STATUS_ITEMS: [&[u8]; 16] = [
    b"DSTrans1$Status",
    b"DSTrans2$Status",
    b"DSTrans3$Status",
    b"DSTrans4$Status",
    b"DSTrans5$Status",
    b"DSTrans6$Status",
    b"DSTrans7$Status",
    b"DSTrans8$Status",
    b"DSTrans9$Status",
    b"DSTrans10$Status",
    b"DSTrans11$Status",
    b"DSTrans12$Status",
    b"DSTrans13$Status",
    b"DSTrans14$Status",
    b"DSTrans15$Status",
    b"DSTrans16$Status",
];

/// The name of a transfer set; the first is 0.
pub fn slot_item(slot: u32) -> &'static [u8]
    requires { slot < SLOT_LIMIT }
    ensures { result.now ≡ objects.slot_item slot }
{
    let items = SLOT_ITEMS.as_slice();
    items[slot as usize]
}

/// The name of a transfer set's status.
pub fn slot_status_item(slot: u32) -> &'static [u8]
    requires { slot < SLOT_LIMIT }
    ensures { result.now ≡ objects.slot_item slot ++ codes "$Status" }
{
    let items = SLOT_STATUS_ITEMS.as_slice();
    items[slot as usize]
}

/// The first of so many transfer sets that has this name, or whose status has it.
fn find_slot<'a>(item: &[u8], slots: u32) -> Option<Found<'a>>
    requires { slots ≤ SLOT_LIMIT }
    ensures named { (t : TableInForce) → option_map (object_found t) result
        ≡ option_map (λ o. o.object)
        (find (λ o. bytes_eq o.item item.now) (slot_objects slots)) }
    ensures there { (t : TableInForce) → t.table.slots ≡ slots → IfSome result (IsOfTable t) }
{
    for slot in 0..slots {
        if slot_item(slot) == item {
            return Some(Found::Slot(slot));
        }
        if slot_status_item(slot) == item {
            return Some(Found::SlotStatus(slot));
        }
    }
    None
}

/// What a name stands for among the objects of a device, of which a table has this row.
fn object_of_device<'a>(table: &InForce<'a>, control: &'a Control, item: &[u8]) -> Option<Found<'a>>
    requires { Contains table.now.table.controls control.now }
    ensures named { option_map (object_found table.now) result ≡ option_map (λ o. o.object)
        (find (λ o. bytes_eq o.item item.now)
        (objects_of_device (own_device table.now.rows control.now))) }
    ensures there { IfSome result (IsOfTable table.now) }
{
    let row = table.device(control);
    let rest = item.strip_prefix(row.name.as_slice())?;
    if rest.is_empty() {
        Some(Found::ControlPoint(control))
    } else if b"_TAG".as_slice() == rest {
        Some(Found::DeviceTag(control))
    } else if row.direct {
        None
    } else if b"_SBO".as_slice() == rest {
        Some(Found::Selection(control))
    } else if b"_TIMEOUT".as_slice() == rest {
        Some(Found::Timeout(control))
    } else {
        None
    }
}

/// Whether a name ends as that of a device's tag, selection or time-out.
fn has_device_end(item: &[u8]) -> bool
    ensures { result ≡ (ends_with nat_eq item.now (codes "_TAG")
        || ends_with nat_eq item.now (codes "_SBO")
        || ends_with nat_eq item.now (codes "_TIMEOUT")) }
{
    item.ends_with(b"_TAG") || item.ends_with(b"_SBO") || item.ends_with(b"_TIMEOUT")
}

/// Whether a name may be that of an object of a device: that of a device of the centre, or one
/// that ends as the names of its other objects do.
fn may_be_device(table: &InForce<'_>, item: &[u8]) -> bool
    ensures { (control : ControlRow) → control.device < length table.now.rows.devices
        → result ≡ false → find (λ o. bytes_eq o.item item.now)
        (objects_of_device (own_device table.now.rows control)) ≡ None }
{
    if table.is_device(item) {
        return true;
    }
    has_device_end(item)
}

/// What a name stands for among the devices of a table.
fn find_device<'a>(table: &InForce<'a>, item: &[u8]) -> Option<Found<'a>>
    ensures named { option_map (object_found table.now) result ≡ option_map (λ o. o.object)
        (find (λ o. bytes_eq o.item item.now)
        (device_objects (offered table.now).devices)) }
    ensures there { IfSome result (IsOfTable table.now) }
{
    let own = table.table();
    if !may_be_device(table, item) {
        return None;
    }
    for control in own.controls.as_slice() {
        if let Some(found) = object_of_device(table, control, item) {
            return Some(found);
        }
    }
    None
}

/// What a name stands for in the domain of a table, but for the protocol's own objects and points.
fn find_in_domain<'a>(table: &InForce<'a>, name: &Name) -> Option<Found<'a>>
    ensures named { option_map (object_found table.now) result
        ≡ option_map (λ o. o.object) (find (is_named (offered table.now) name.now)
        (domain_objects (offered table.now))) }
    ensures there { IfSome result (IsOfTable table.now) }
{
    let own = table.table();
    if !is_found_in(&own.domain, name.scope(), false) {
        return None;
    }
    let item = name.item().as_slice();
    if b"Next_DSTransfer_Set".as_slice() == item {
        return Some(Found::NextSlot);
    }
    match find_device(table, item) {
        Some(found) => Some(found),
        None => find_slot(item, own.slots),
    }
}

/// What a name stands for by a table; nothing else exists.
pub fn find_object<'a>(table: &InForce<'a>, name: &Name) -> Option<Found<'a>>
    ensures named { option_map (object_found table.now) result
        ≡ object_named (offered table.now) name.now }
    ensures there { IfSome result (IsOfTable table.now) }
{
    match find_special(&table.table().domain, name) {
        Some(special) => Some(Found::Special(special)),
        None => match find_in_domain(table, name) {
            Some(found) => Some(found),
            None => match find_point(table, name) {
                Some(see) => Some(Found::Point(see)),
                None => None,
            },
        },
    }
}

/// Whether a name stands for something by a table.
pub fn is_object(table: &InForce<'_>, name: &Name) -> bool
    ensures { result ≡ is_some (object_named (offered table.now) name.now) }
{
    match find_object(table, name) {
        Some(_) => true,
        None => false,
    }
}

/// The row of a table that a name stands for.
fn find_point<'a>(table: &InForce<'a>, name: &Name) -> Option<&'a See>
    ensures named { option_map (λ see. own_point table.now.rows see.now) result
        ≡ point_named (offered table.now) name.now }
    ensures there { IfSome result (λ see. is_some
        (place_of_see table.now.table see.now.point) ≡ true) }
{
    let own = table.table();
    let see = table.find_row(name.item().as_slice())?;
    is_found_in(&own.domain, name.scope(), see.vmd).then_some(see)
}

/// Whether a data set may have a name as its member: that of a point or of a report variable.
pub fn is_member(table: &InForce<'_>, name: &Name) -> bool
    ensures { result ≡ objects.is_member (object_named (offered table.now) name.now) }
{
    match find_object(table, name) {
        Some(Found::Special(special)) => is_report_variable(special),
        Some(Found::Point(_)) => true,
        Some(
            Found::NextSlot
            | Found::Slot(_)
            | Found::SlotStatus(_)
            | Found::ControlPoint(_)
            | Found::Selection(_)
            | Found::DeviceTag(_)
            | Found::Timeout(_),
        )
        | None => false,
    }
}

/// Whether an object of the protocol itself is a report variable: a data set may have it as its
/// member, and a report tells it of itself.
pub fn is_report_variable(special: Special) -> bool
    ensures member { (table : OwnTable)
        → result ≡ objects.is_member (Some (special_object table special)) }
    ensures told { (table : OwnTable)
        → result ≡ reports.is_variable (Some (special_object table special)) }
{
    match special {
        Special::Version | Special::Features | Special::TableId => false,
        Special::SetName | Special::TimeStamp | Special::Conditions | Special::EventCode => true,
    }
}

/// Whether a scope is where a point is found, for a peer with this domain.
pub fn is_found_in(domain: &Visible, scope: &Scope, vmd: bool) -> bool
    ensures { (table : OwnTable) → table.domain ≡ domain.now
        → result ≡ is_scope_of table scope.now vmd }
{
    match scope {
        Scope::Vmd => vmd,
        Scope::Domain(name) => !vmd && name == domain,
        Scope::Association => false,
    }
}
