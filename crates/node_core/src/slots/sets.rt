//! The data sets of a peer: replies about them.
ghost use Rattle.std.specs.Prelude.{◌≡◌, ◌<◌, ◌≤◌, ◌^◌, ◌&&◌, ◌||◌, ◌↔◌, not, ℕ, IsTrue, IfSome};
ghost use Rattle.std.specs.Prelude.{length, is_some, nat_le, nat_lt, bytes_eq};
ghost use Rattle.std.specs.Prelude.{IfOk, IsOk};
ghost use Rattle.std.specs.List.{list_all};
ghost use Rattle.std.specs.Option.{option_copied};
ghost use Rattle.mms_data.specs.declared.object_name.Scope.TheVariants.{Domain as InDomain};
ghost use Rattle.mms_data.specs.ObjectName.{same_scope};
ghost use Rattle.bilateral.specs.Words.Words as identifiers;
ghost use Rattle.data_sets.specs.Books.{members_in};
ghost use Rattle.tase_views.specs.OwnTables.{OwnTables};
ghost use Rattle.tase_views.specs.Objects as objects;
ghost use Rattle.tase_views.specs.View.{View, held};
ghost use Rattle.tase_views.specs.Sets as sets;
ghost use Rattle.tase_views.specs.Slots.{sets_in, members_of};
ghost use Rattle.tase_views.specs.Answers as answers;
ghost use Rattle.tase_views.specs.Replies.{IsReply};
ghost use Rattle.node_core.specs.Objects.Found.{offered};
ghost use Rattle.node_core.specs.Slots.SetsKept.{IsBook, is_named_in, is_in_book, left_behind};
ghost use Rattle.node_core.specs.Slots.SetsKept.{left_by};
ghost use Rattle.node_core.specs.Slots.SlotsKept.{IsBank};
ghost use Rattle.node_core.specs.Slots.SlotsKept as banks;

use crate::objects::{InForce, is_member};
use ber_values::Visible;
use bilateral::words::is_identifier;
use data_sets::{MOST_MEMBERS, Members, SetBook, books_are_lawful};
use mms_data::{Name, Names, Scope};
use std::alloc::AllocError;
use tase_views::{
    ACCESS_DENIED, ACCESS_ERRORS, DEFINITION_ERRORS, EXISTS, NON_EXISTENT, OTHER, RESOURCE_ERRORS,
    ReplyKind, UNDEFINED,
};
use transfer_sets::{Looks, SlotBank, Wish};

/// The reply to the definition of a data set (ISO 9506-2, `DefineNamedVariableList`).
pub fn define_reply(table: &InForce<'_>, book: &SetBook, set: &Name, members: &Names) -> ReplyKind
    ensures value { (tables : OwnTables) (view : View) → offered table.now ≡ held tables view
        → IsBook tables view book.now → result ≡ answers.define_replied
        (sets.define_fault (held tables view) (sets_in tables view) view set.now members.now) }
    ensures lawful { IsReply result }
{
    let own = table.table();
    if !is_set_name(&own.domain, set) {
        return error(ACCESS_ERRORS, ACCESS_DENIED);
    }
    if has_set(book, set.item()) {
        return error(DEFINITION_ERRORS, EXISTS);
    }
    if is_too_many(own.sets, book.count(), members.len()) {
        return error(RESOURCE_ERRORS, OTHER);
    }
    if !are_members(table, members.as_slice()) {
        return error(DEFINITION_ERRORS, UNDEFINED);
    }
    ReplyKind::Defined
}

/// Whether this is the reply to a definition that has no error.
pub fn is_defined(reply: &ReplyKind) -> bool
    ensures { IsTrue result ↔ (reply.now ≡ ReplyKind.Defined) }
{
    matches!(reply, ReplyKind::Defined)
}

fn error(class: u8, code: u8) -> ReplyKind
    ensures { result ≡ ReplyKind.Error class code }
{
    ReplyKind::Error { class, code }
}

/// Whether a name is one that a data set of a domain may have.
fn is_set_name(domain: &Visible, set: &Name) -> bool
    ensures { result ≡ same_scope set.now.scope (InDomain domain.now)
        && identifiers.is_identifier set.now.item }
{
    is_in_domain(domain, set) && is_identifier(set.item().as_slice())
}

/// Whether a data set has this name.
fn has_set(book: &SetBook, name: &Visible) -> bool
    ensures { result ≡ is_some (members_in book.now.sets name.now) }
{
    book.members(name).is_some()
}

/// Whether one data set more with so many members is too many beside so many, of which there may be
/// `limit`.
fn is_too_many(limit: u32, count: usize, members: usize) -> bool
    ensures { result ≡ (nat_lt MOST_MEMBERS members || nat_le limit count) }
{
    MOST_MEMBERS < members || limit as usize <= count
}

/// Whether a name is of a domain.
fn is_in_domain(domain: &Visible, name: &Name) -> bool
    ensures { result ≡ same_scope name.now.scope (InDomain domain.now) }
{
    match name.scope() {
        Scope::Domain(other) => other == domain,
        Scope::Vmd | Scope::Association => false,
    }
}

/// Whether each name is one that a data set may have as its member.
fn are_members(table: &InForce<'_>, members: &[Name]) -> bool
    ensures { result ≡ list_all
        (λ member. objects.is_member (objects.object_named (offered table.now) member))
        members.now }
{
    members.iter().all(|member| is_member(table, member))
}

/// The members of the data set that a name is that of.
pub fn find_set<'a>(domain: &Visible, book: &'a SetBook, set: &Name) -> Option<&'a Members>
    ensures value { (tables : OwnTables) (view : View) → (held tables view).domain ≡ domain.now
        → IsBook tables view book.now → option_copied result ≡ members_of tables view set.now }
    ensures some { IfSome result (λ members. 0 < length members.now) }
{
    books_are_lawful(book);
    if is_in_domain(domain, set) {
        book.members(set.item())
    } else {
        None
    }
}

/// The reply to a request for the members of a data set
/// (ISO 9506-2, `GetNamedVariableListAttributes`).
pub fn members_reply(domain: &Visible, book: &SetBook, set: &Name) -> Result<ReplyKind, AllocError>
    ensures value { (tables : OwnTables) (view : View) → (held tables view).domain ≡ domain.now
        → IsBook tables view book.now → IfOk result (λ kind. kind
        ≡ answers.set_replied ReplyKind.MembersAre (members_of tables view set.now)) }
    ensures lawful { IfOk result IsReply }
{
    match find_set(domain, book, set) {
        Some(members) => Ok(ReplyKind::MembersAre(members.clone()?)),
        None => Ok(error(ACCESS_ERRORS, NON_EXISTENT)),
    }
}

/// The reply to a deletion (ISO 9506-2, `DeleteNamedVariableList`). A name is matched if it is that
/// of a data set which is there behind the deletions by the names before it, and this one is
/// deleted unless an enabled one of the first so many transfer sets wishes it. There is no memory
/// for more names than a reply can count.
pub fn delete_reply(
    domain: &Visible,
    book: &SetBook,
    slots: &SlotBank,
    count: u32,
    names: &Names,
    looks: &mut Looks,
) -> Result<ReplyKind, AllocError>
    requires { count ≤ length slots.now }
    ensures value { (tables : OwnTables) (view : View) (ordinal : ℕ)
        → (held tables view).domain ≡ domain.now → (held tables view).slots ≡ count
        → IsBook tables view book.now → IsBank tables view slots.now → IfOk result (λ kind. kind
        ≡ answers.delete_replied (answers.deletion_of tables view ordinal names.now)) }
    ensures counted { length names.now < 2 ^ 32 → IsOk result }
    ensures lawful { IfOk result IsReply }
{
    let names = names.as_slice();
    if names.len() > u32::MAX as usize {
        return Err(AllocError);
    }
    let mut matched = 0u32;
    let mut deleted = 0u32;
    for place in 0..names.len() {
        let name = &names[place];
        if is_left(domain, book, slots, count, name, &names[..place], looks) {
            matched += 1;
            if !is_kept(domain, slots, count, name.item(), looks) {
                deleted += 1;
            }
        }
    }
    Ok(ReplyKind::Deleted { matched, deleted })
}

/// Whether a name is that of a data set which is there behind deletions by the names before it.
fn is_left(
    domain: &Visible,
    book: &SetBook,
    slots: &SlotBank,
    count: u32,
    name: &Name,
    before: &[Name],
    looks: &mut Looks,
) -> bool
    requires { count ≤ length slots.now }
    ensures { result ≡ is_in_book domain.now
        (left_by (banks.is_kept domain.now count slots.now) domain.now before.now book.now)
        name.now }
{
    is_in_domain(domain, name)
        && is_set_left(domain, book, slots, count, name.item(), before, looks)
}

/// Whether a data set has this name behind deletions by these names.
fn is_set_left(
    domain: &Visible,
    book: &SetBook,
    slots: &SlotBank,
    count: u32,
    set: &Visible,
    names: &[Name],
    looks: &mut Looks,
) -> bool
    requires { count ≤ length slots.now }
    ensures { result ≡ is_some (members_in
        (left_by (banks.is_kept domain.now count slots.now) domain.now names.now book.now).sets
        set.now) }
{
    if is_gone(domain, slots, count, set, names, looks) {
        return false;
    }
    has_set(book, set)
}

/// Whether deletions by these names take the data set with this name away.
fn is_gone(
    domain: &Visible,
    slots: &SlotBank,
    count: u32,
    set: &Visible,
    names: &[Name],
    looks: &mut Looks,
) -> bool
    requires { count ≤ length slots.now }
    ensures { result ≡ is_named_in domain.now names.now set.now
        && not (banks.is_kept domain.now count slots.now set.now) }
{
    is_among(domain, set, names) && !is_kept(domain, slots, count, set, looks)
}

/// Whether the data set with this name is among those that are named.
fn is_among(domain: &Visible, set: &Visible, names: &[Name]) -> bool
    ensures { result ≡ is_named_in domain.now names.now set.now }
{
    names
        .iter()
        .any(|name| is_in_domain(domain, name) && name.item() == set)
}

/// Whether an enabled one of the first so many transfer sets wishes this data set of a domain.
fn is_kept(domain: &Visible, slots: &SlotBank, count: u32, set: &Visible, looks: &mut Looks) -> bool
    requires { count ≤ length slots.now }
    ensures { result ≡ banks.is_kept domain.now count slots.now set.now }
{
    for slot in 0..count {
        if is_wish_for(slots.look(looks, slot).wish(), domain, set) {
            return true;
        }
    }
    false
}

/// Whether an enabled transfer set with this wish sends this data set of a domain.
fn is_wish_for(wish: &Wish, domain: &Visible, set: &Visible) -> bool
    ensures { result ≡ wish.now.status && bytes_eq wish.now.set_domain domain.now
        && bytes_eq wish.now.set_name set.now }
{
    wish.status && wish.set_domain == *domain && wish.set_name == *set
}

/// Deletes the data sets of a domain that are named, but for those that an enabled one of the first
/// so many transfer sets wishes.
pub fn delete_sets(
    domain: &Visible,
    book: &mut SetBook,
    slots: &SlotBank,
    count: u32,
    names: &[Name],
    looks: &mut Looks,
)
    requires { count ≤ length slots.now }
    ensures { book.new
        ≡ left_by (banks.is_kept domain.now count slots.now) domain.now names.now book.old }
{
    for name in names {
        delete_set(domain, book, slots, count, name, looks);
    }
}

fn delete_set(
    domain: &Visible,
    book: &mut SetBook,
    slots: &SlotBank,
    count: u32,
    name: &Name,
    looks: &mut Looks,
)
    requires { count ≤ length slots.now }
    ensures { book.new ≡ left_behind (banks.is_kept domain.now count slots.now) domain.now
        book.old name.now }
{
    if is_to_delete(domain, slots, count, name, looks) {
        book.delete(name.item());
    }
}

/// Whether a deletion by this name takes the data set with it away.
fn is_to_delete(
    domain: &Visible,
    slots: &SlotBank,
    count: u32,
    name: &Name,
    looks: &mut Looks,
) -> bool
    requires { count ≤ length slots.now }
    ensures { result ≡ same_scope name.now.scope (InDomain domain.now)
        && not (banks.is_kept domain.now count slots.now name.now.item) }
{
    is_in_domain(domain, name) && !is_kept(domain, slots, count, name.item(), looks)
}
