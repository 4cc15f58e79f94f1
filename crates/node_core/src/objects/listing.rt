//! Lists of names.
ghost use Rattle.std.specs.Prelude.{◌≡◌, ◌<◌, ◌&&◌, true, false, length, map, filter, Some, None};
ghost use Rattle.std.specs.Prelude.{if◌then◌else◌, IfOk, not, option_map, [], ◌∷◌, ◌++◌, OnOk};
ghost use Rattle.std.specs.Prelude.{◌≤◌, Bool};
ghost use Rattle.std.specs.List.{All};
ghost use Rattle.std.specs.Ordering.{int_eq};
ghost use Rattle.ber_values.specs.Visible.{IsVisible};
ghost use Rattle.mms_data.specs.ObjectName.{IsIdentifier};
ghost use Rattle.bilateral.specs.declared.rows.TheConstants.{SLOT_LIMIT};
ghost use Rattle.bilateral.specs.Rows.{IsDevice};
ghost use Rattle.tase_views.specs.OwnTables.{OwnTable, OwnTables, own_point, is_scope_of};
ghost use Rattle.tase_views.specs.Objects.{objects, special_objects, report_variables};
ghost use Rattle.tase_views.specs.Objects.{objects_of_device};
ghost use Rattle.tase_views.specs.View.{View, held};
ghost use Rattle.tase_views.specs.Answers.{set_names};
ghost use Rattle.tase_views.specs.NameLists as lists;
ghost use Rattle.tase_views.specs.Replies.{IsReply};
ghost use Rattle.node_core.specs.Objects.Found.{offered, device_objects, slot_objects};
ghost use Rattle.node_core.specs.Objects.Found.{domain_objects};
ghost use Rattle.node_core.specs.Slots.SetsKept.{IsBook};

use super::in_force::InForce;
use super::naming::{is_found_in, slot_item, slot_status_item};
use ber_values::Visible;
use bilateral::{DeviceRow, See};
use data_sets::SetBook;
use mms_data::Scope;
use std::alloc::{AllocError, Global};
use tase_views::{
    ACCESS_DENIED, ACCESS_ERRORS, DOMAINS, NAMED_VARIABLE_LISTS, NAMED_VARIABLES, NAMES_LIMIT,
    NON_EXISTENT, ObjectNames, ReplyKind,
};

/// The names of the objects of a class in a scope that there are for a peer, from the one after
/// `after` on (ISO 9506-2, `GetNameList`).
pub fn list_names(
    alloc: Global,
    table: &InForce<'_>,
    book: &SetBook,
    class: i64,
    scope: &Scope,
    after: &Option<Visible>,
) -> Result<ReplyKind, AllocError>
    requires named { All (λ set. IsIdentifier set.name) book.now.sets }
    ensures value { (tables : OwnTables) (view : View) → offered table.now ≡ held tables view
        → IsBook tables view book.now → IfOk result (λ reply. reply
        ≡ lists.names_listed (held tables view) (objects (held tables view))
        (set_names tables view) class scope.now after.now) }
    ensures lawful { IfOk result IsReply }
{
    let domain = &table.table().domain;
    if is_foreign(domain, scope) {
        return Ok(ReplyKind::Error {
            class: ACCESS_ERRORS,
            code: NON_EXISTENT,
        });
    }
    if is_class(class, NAMED_VARIABLES) {
        let of_devices = device_names(alloc, table)?;
        let mut names = variables(alloc, table, &of_devices, scope, after)?;
        return first_of(alloc, names.as_mut_slice());
    }
    if is_class(class, DOMAINS) && is_vmd(scope) {
        let mut names = one_domain(alloc, domain, after)?;
        return first_of(alloc, names.as_mut_slice());
    }
    if is_class(class, NAMED_VARIABLE_LISTS) {
        let mut names = sets(alloc, domain, book, scope, after)?;
        return first_of(alloc, names.as_mut_slice());
    }
    Ok(ReplyKind::Error {
        class: ACCESS_ERRORS,
        code: ACCESS_DENIED,
    })
}

/// The names of the variables that there are for a peer in a scope, all of them, in the order of
/// octets.
pub fn listed_names(
    alloc: Global,
    table: &InForce<'_>,
    scope: &Scope,
) -> Result<ObjectNames, AllocError>
    ensures value { IfOk result (λ names. names ≡ lists.in_order
        (lists.variables_in (offered table.now) (objects (offered table.now)) scope.now)) }
    ensures named { IfOk result (All IsIdentifier) }
{
    let _lawful = table.table();
    let of_devices = device_names(alloc, table)?;
    let mut names = variables(alloc, table, &of_devices, scope, &None)?;
    in_order(alloc, names.as_mut_slice())
}

/// Names in the order of octets.
fn in_order(alloc: Global, names: &mut [&[u8]]) -> Result<ObjectNames, AllocError>
    requires { All IsIdentifier (map (λ name. name.now) names.old) }
    ensures value { IfOk result (λ ordered. ordered
        ≡ lists.in_order (map (λ name. name.now) names.old)) }
    ensures named { IfOk result (All IsIdentifier) }
{
    names.sort_unstable();
    let ordered = copies(alloc, names)?;
    Ok(ordered)
}

/// Whether a class is this one.
fn is_class(class: i64, wanted: i64) -> bool
    ensures { result ≡ int_eq class wanted }
{
    class == wanted
}

/// Whether a scope is another domain.
fn is_foreign(domain: &Visible, scope: &Scope) -> bool
    ensures { (table : OwnTable) → table.domain ≡ domain.now
        → result ≡ lists.is_foreign table scope.now }
{
    match scope {
        Scope::Vmd => false,
        Scope::Domain(name) => name != domain,
        Scope::Association => false,
    }
}

fn is_vmd(scope: &Scope) -> bool
    ensures { result ≡ lists.is_vmd scope.now }
{
    matches!(scope, Scope::Vmd)
}

/// Whether a list that goes on after a name has this one.
fn is_after(after: &Option<Visible>, name: &[u8]) -> bool
    ensures { result ≡ lists.is_after after.now name.now }
{
    match after {
        Some(after) => after.as_slice() < name,
        None => true,
    }
}

/// The names of the data sets of a peer with this domain in a scope that stand in a list.
fn sets<'a>(
    alloc: Global,
    domain: &Visible,
    book: &'a SetBook,
    scope: &Scope,
    after: &Option<Visible>,
) -> Result<Vec<&'a [u8]>, AllocError>
    ensures { (table : OwnTable) → table.domain ≡ domain.now → IfOk result (λ names.
        map (λ name. name.now) names.items
        ≡ (if is_scope_of table scope.now false
        then filter (lists.is_after after.now) (map (λ set. set.name) book.now.sets) else [])) }
{
    if is_found_in(domain, scope, false) {
        all_sets(alloc, book, after)
    } else {
        Ok(Vec::new(alloc))
    }
}

/// The names of data sets that stand in a list.
fn all_sets<'a>(
    alloc: Global,
    book: &'a SetBook,
    after: &Option<Visible>,
) -> Result<Vec<&'a [u8]>, AllocError>
    ensures { IfOk result (λ names. map (λ name. name.now) names.items
        ≡ filter (lists.is_after after.now) (map (λ set. set.name) book.now.sets)) }
{
    let mut names = Vec::new(alloc);
    for index in 0..book.count() {
        let name = book.name(index).unwrap();
        push_after(&mut names, after, name.as_slice())?;
    }
    Ok(names)
}

/// The names of the protocol's own objects for a peer with this domain in a scope that stand in a
/// list.
fn specials<'a>(
    alloc: Global,
    domain: &Visible,
    scope: &Scope,
    after: &Option<Visible>,
) -> Result<Vec<&'a [u8]>, AllocError>
    ensures { (table : OwnTable) → table.domain ≡ domain.now → IfOk result (λ names.
        map (λ name. name.now) names.items ≡ filter (lists.is_after after.now)
        (map (λ o. o.item)
        (filter (λ o. is_scope_of table scope.now o.vmd) (special_objects table)))) }
{
    if is_found_in(domain, scope, true) {
        return specials_of_device(alloc, after);
    }
    if is_found_in(domain, scope, false) {
        return specials_of_domain(alloc, after);
    }
    Ok(Vec::new(alloc))
}

/// The names of the protocol's own objects in the whole device that stand in a list.
fn specials_of_device<'a>(
    alloc: Global,
    after: &Option<Visible>,
) -> Result<Vec<&'a [u8]>, AllocError>
    ensures { (table : OwnTable) → IfOk result (λ names. map (λ name. name.now) names.items
        ≡ filter (lists.is_after after.now)
        (map (λ o. o.item) (filter (λ o. o.vmd) (special_objects table)))) }
{
    let mut names = Vec::new(alloc);
    push_after(&mut names, after, b"TASE2_Version")?;
    push_after(&mut names, after, b"Supported_Features")?;
    push_report_variables(&mut names, after)?;
    Ok(names)
}

/// The names of the protocol's own objects in a domain that stand in a list.
fn specials_of_domain<'a>(
    alloc: Global,
    after: &Option<Visible>,
) -> Result<Vec<&'a [u8]>, AllocError>
    ensures { (table : OwnTable) → IfOk result (λ names. map (λ name. name.now) names.items
        ≡ filter (lists.is_after after.now)
        (map (λ o. o.item) (filter (λ o. not o.vmd) (special_objects table)))) }
{
    let mut names = Vec::new(alloc);
    push_after(&mut names, after, b"Bilateral_Table_ID")?;
    push_report_variables(&mut names, after)?;
    Ok(names)
}

/// Appends the names of the report variables that stand in a list.
fn push_report_variables<'a>(
    names: &mut Vec<&'a [u8]>,
    after: &Option<Visible>,
) -> Result<(), AllocError>
    ensures { OnOk result (map (λ name. name.now) names.new.items
        ≡ map (λ name. name.now) names.old.items
        ++ filter (lists.is_after after.now) (map (λ o. o.item) (report_variables true))) }
{
    push_after(names, after, b"Transfer_Set_Name")?;
    push_after(names, after, b"Transfer_Set_Time_Stamp")?;
    push_after(names, after, b"DSConditions_Detected")?;
    push_after(names, after, b"Event_Code_Detected")?;
    Ok(())
}

/// The names of the objects of a table's devices, in its order.
fn device_names(alloc: Global, table: &InForce<'_>) -> Result<ObjectNames, AllocError>
    ensures { IfOk result (λ names. names
        ≡ map (λ o. o.item) (device_objects (offered table.now).devices)) }
{
    let mut names = ObjectNames::new(alloc);
    for control in table.table().controls.as_slice() {
        let row = table.device(control);
        push_device_names(alloc, &mut names, row)?;
    }
    Ok(names)
}

/// Appends the names of the objects of a device.
fn push_device_names(
    alloc: Global,
    names: &mut ObjectNames,
    row: &DeviceRow,
) -> Result<(), AllocError>
    requires { IsDevice row.now }
    ensures { OnOk result ((tag : Bool) → names.new ≡ names.old ++ map (λ o. o.item)
        (objects_of_device (record { row = row.now; tag = tag }))) }
{
    names.push(name_with(alloc, &row.name, b"")?)?;
    names.push(name_with(alloc, &row.name, b"_TAG")?)?;
    if row.direct {
        return Ok(());
    }
    names.push(name_with(alloc, &row.name, b"_SBO")?)?;
    names.push(name_with(alloc, &row.name, b"_TIMEOUT")?)?;
    Ok(())
}

/// A device's name with an end.
pub fn name_with(alloc: Global, name: &Visible, end: &[u8]) -> Result<Visible, AllocError>
    requires { IsVisible (name.now ++ end.now) }
    ensures { IfOk result (λ joined. joined ≡ name.now ++ end.now) }
{
    let mut octets = Vec::from_slice(alloc, name.as_slice())?;
    octets.extend_from_slice(end)?;
    Ok(Visible::new(octets))
}

/// Appends the names in a table's domain that stand in a list, where the scope is its domain: that
/// of the next transfer set, these of its devices, those of its transfer sets.
fn push_domain<'a>(
    names: &mut Vec<&'a [u8]>,
    table: &InForce<'_>,
    of_devices: &'a ObjectNames,
    scope: &Scope,
    after: &Option<Visible>,
) -> Result<(), AllocError>
    requires { of_devices.now ≡ map (λ o. o.item) (device_objects (offered table.now).devices) }
    ensures { OnOk result (map (λ name. name.now) names.new.items
        ≡ map (λ name. name.now) names.old.items ++ filter (lists.is_after after.now)
        (lists.variables_in (offered table.now) (domain_objects (offered table.now)) scope.now)) }
{
    let own = table.table();
    if !is_found_in(&own.domain, scope, false) {
        return Ok(());
    }
    push_after(names, after, b"Next_DSTransfer_Set")?;
    push_names(names, of_devices, after)?;
    push_slots(names, own.slots, after)?;
    Ok(())
}

/// Appends those of some names that stand in a list.
fn push_names<'a>(
    names: &mut Vec<&'a [u8]>,
    more: &'a ObjectNames,
    after: &Option<Visible>,
) -> Result<(), AllocError>
    ensures { OnOk result (map (λ name. name.now) names.new.items
        ≡ map (λ name. name.now) names.old.items ++ filter (lists.is_after after.now) more.now) }
{
    for name in more.as_slice() {
        push_after(names, after, name.as_slice())?;
    }
    Ok(())
}

/// Appends the names of so many transfer sets, and of their status, that stand in a list.
fn push_slots<'a>(
    names: &mut Vec<&'a [u8]>,
    slots: u32,
    after: &Option<Visible>,
) -> Result<(), AllocError>
    requires { slots ≤ SLOT_LIMIT }
    ensures { OnOk result (map (λ name. name.now) names.new.items
        ≡ map (λ name. name.now) names.old.items ++ filter (lists.is_after after.now)
        (map (λ o. o.item) (slot_objects slots))) }
{
    for slot in 0..slots {
        push_after(names, after, slot_item(slot))?;
        push_after(names, after, slot_status_item(slot))?;
    }
    Ok(())
}

/// Appends a name, if it stands in a list.
fn push_after<'a>(
    names: &mut Vec<&'a [u8]>,
    after: &Option<Visible>,
    name: &'a [u8],
) -> Result<(), AllocError>
    ensures { OnOk result (map (λ name. name.now) names.new.items
        ≡ map (λ name. name.now) names.old.items
        ++ filter (lists.is_after after.now) (name.now ∷ [])) }
{
    if !is_after(after, name) {
        return Ok(());
    }
    names.push(name)?;
    Ok(())
}

/// The names of the variables that there are for a peer in a scope that stand in a list: those of
/// the protocol itself, of the peer's devices, of its transfer sets and of its points.
fn variables<'a: 'n, 'n>(
    alloc: Global,
    table: &InForce<'a>,
    of_devices: &'n ObjectNames,
    scope: &Scope,
    after: &Option<Visible>,
) -> Result<Vec<&'n [u8]>, AllocError>
    requires { of_devices.now ≡ map (λ o. o.item) (device_objects (offered table.now).devices) }
    ensures { IfOk result (λ names. map (λ name. name.now) names.items
        ≡ filter (lists.is_after after.now)
        (lists.variables_in (offered table.now) (objects (offered table.now)) scope.now)) }
{
    let own = table.table();
    let mut names = specials(alloc, &own.domain, scope, after)?;
    push_domain(&mut names, table, of_devices, scope, after)?;
    for see in own.sees.as_slice() {
        if let Some(name) = listed_name(table, scope, after, see) {
            names.push(name)?;
        }
    }
    Ok(names)
}

/// The name of a row's point, if it stands in a list.
fn listed_name<'a>(
    table: &InForce<'a>,
    scope: &Scope,
    after: &Option<Visible>,
    see: &See,
) -> Option<&'a [u8]>
    requires { see.now.point < length table.now.rows.points }
    ensures { option_map (λ name. name.now) result
        ≡ (if is_scope_of (offered table.now) scope.now see.now.vmd
        && lists.is_after after.now (own_point table.now.rows see.now).name
        then Some (own_point table.now.rows see.now).name else None) }
{
    let name = table.point(see.point).name.as_slice();
    let domain = &table.table().domain;
    (is_found_in(domain, scope, see.vmd) && is_after(after, name)).then_some(name)
}

/// The domain's name, if it stands in a list.
fn one_domain<'a>(
    alloc: Global,
    domain: &'a Visible,
    after: &Option<Visible>,
) -> Result<Vec<&'a [u8]>, AllocError>
    ensures { IfOk result (λ names. map (λ name. name.now) names.items
        ≡ filter (lists.is_after after.now) (domain.now ∷ [])) }
{
    let mut names = Vec::new(alloc);
    if is_after(after, domain.as_slice()) {
        names.push(domain.as_slice())?;
    }
    Ok(names)
}

/// The first of these names in the order of octets, and whether some are left.
fn first_of(alloc: Global, names: &mut [&[u8]]) -> Result<ReplyKind, AllocError>
    requires { All IsIdentifier (map (λ name. name.now) names.old) }
    ensures value { IfOk result (λ reply. reply
        ≡ lists.first_of (lists.in_order (map (λ name. name.now) names.old))) }
    ensures lawful { IfOk result IsReply }
{
    names.sort_unstable();
    let shown = NAMES_LIMIT.min(names.len());
    Ok(ReplyKind::NamesAre {
        names: copies(alloc, &names[..shown])?,
        more: NAMES_LIMIT < names.len(),
    })
}

fn copies(alloc: Global, names: &[&[u8]]) -> Result<ObjectNames, AllocError>
    requires { All IsIdentifier (map (λ name. name.now) names.now) }
    ensures { IfOk result (λ copied. copied ≡ map (λ name. name.now) names.now) }
{
    let mut copied = ObjectNames::new(alloc);
    for name in names {
        copied.push(Visible::new(Vec::from_slice(alloc, name)?))?;
    }
    Ok(copied)
}
