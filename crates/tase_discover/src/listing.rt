//! The listing of what a peer offers, as the agenda of a calling end.
ghost use Rattle.std.specs.Prelude.{◌≡◌, ◌<◌, ◌++◌, length, IfOk, OnOk, OnErr, IfSome, Some};
ghost use Rattle.std.specs.Prelude.{option_map};
ghost use Rattle.std.specs.Option.{option_copied};
ghost use Rattle.std.specs.Arc.{arc_value};
ghost use Rattle.plain_text.specs.Extends.{Extends};
ghost use Rattle.mms_data.specs.declared.object_name.Scope.TheVariants as scopes;
ghost use Rattle.mms_data.specs.ObjectName.{IsScope, IsIdentifier};
ghost use Rattle.tase_views.specs.declared.call.CallKind.TheVariants as calls;
ghost use Rattle.node_core.specs.Objects.Found.{table_at, offered};
ghost use Rattle.asking_end.specs.Sayings.{IsAskable};
ghost use Rattle.tase_discover.specs.Listings as own;
ghost use Rattle.tase_discover.specs.Listers.{listing_of};

use crate::end::{ListingEnd, Stage};
use crate::hearing::hear_shown;
use crate::pages::last_item;
use crate::seen::Seen;
use asking_end::Next;
use ber_values::Visible;
use bilateral::Centre;
use mms_data::{Name, Scope};
use node_core::objects::InForce;
use std::alloc::{AllocError, Global};
use std::marker::Model;
use std::sync::Arc;
use tase_views::{Call, CallKind, NAMED_VARIABLES, Reply};

/// The names that a peer offers and their types, as they are listed and held against the first
/// table of a peer of one's own tables.
#[derive(Drop)]
pub struct Listing {
    centre: Arc<Centre>,
    peer: u32,
    seen: Seen,
}

impl Model for Listing {
    ghost use Rattle.std.specs.Arc.{arc_value};
    ghost use Rattle.tase_discover.specs.Listings.{first_table};
    ghost use Rattle.tase_discover.specs.Kept.{seen_of};
    ghost use Rattle.tase_discover.specs.Listers.{TableListing, IsListing};

    ghost Value = { TableListing };

    ghost view = { λ l. record {
      table = first_table (arc_value l.centre) l.peer;
      seen = seen_of l.seen;
    } };

    ghost invariant = { λ l. IsListing (arc_value l.centre) l.peer l.seen };
}

impl Listing {
    /// A listing that hasn't begun, of what the peer with this number offers.
    pub fn new(alloc: Global, centre: &Arc<Centre>, peer: u32) -> Result<Listing, AllocError>
        requires { peer < length (arc_value centre.now).tables }
        ensures { IfOk result (λ l. l ≡ listing_of (own.first_table (arc_value centre.now) peer)) }
    {
        let shared = centre.clone()?;
        let tables: &Centre = centre;
        let domain = domain_of(&first_in_force(tables, peer))?;
        Ok(Listing {
            centre: shared,
            peer,
            seen: Seen {
                domain,
                stage: Stage::Device,
                names: Vec::new(alloc),
                judged: Vec::new(alloc),
                alike: false,
            },
        })
    }

    /// Hears a reply to what was asked, and appends the lines that it shows. After want of memory
    /// the listing and `shown` are as before.
    pub(crate) fn hear(
        &mut self,
        alloc: Global,
        reply: &Reply,
        shown: &mut Vec<u8>,
    ) -> Result<Next<ListingEnd>, AllocError>
        ensures listing { OnOk result (self.new ≡ record self.old {
          seen = (own.reply_heeded self.old.table self.old.seen reply.now).seen;
        }) }
        ensures next { IfOk result (λ next. next
            ≡ (own.reply_heeded self.old.table self.old.seen reply.now).next) }
        ensures shown { OnOk result (shown.new.items ≡ shown.old.items
            ++ own.reply_shown self.old.table self.old.seen reply.now) }
        ensures err { OnErr result (self.new ≡ self.old) }
        ensures cut { OnErr result (Extends shown.old.items shown.new.items) }
    {
        let tables: &Centre = &self.centre;
        let table = first_in_force(tables, self.peer);
        hear_shown(alloc, &table, &mut self.seen, reply, shown)
    }

    /// What is asked: the names that follow, or the type of the next one.
    pub(crate) fn next_call(&self) -> Result<Option<Call>, AllocError>
        ensures value { IfOk result (λ call. call
            ≡ own.listing_call self.now.table self.now.seen) }
        ensures askable { IfOk result (λ call. IfSome call IsAskable) }
    {
        match self.seen.stage {
            Stage::Device => names_call(&Scope::Vmd, self.names()),
            Stage::Domain => names_call(&self.seen.domain, self.names()),
            Stage::Types => type_call(self.seen.name_asked()),
        }
    }

    /// Whether all came, and nothing differs from the table.
    pub fn is_same(&self) -> bool
        ensures { result ≡ own.is_same self.now.table self.now.seen }
    {
        self.seen.is_done() && self.seen.alike
    }

    /// The names that came.
    pub fn names(&self) -> &[Name]
        ensures { result.now ≡ self.now.seen.names }
    {
        self.seen.names.as_slice()
    }
}

/// The first table of a peer.
fn first_in_force(centre: &Centre, peer: u32) -> InForce<'_>
    requires { peer < length centre.now.tables }
    ensures { result ≡ table_at centre.now peer 0 }
{
    let _lawful = centre.peers();
    InForce::new(centre, peer, 0)
}

/// The scope of the domain of a table.
fn domain_of(table: &InForce<'_>) -> Result<Scope, AllocError>
    ensures scope { IfOk result (λ scope. scope ≡ scopes.Domain (offered table.now).domain) }
    ensures named { IfOk result IsScope }
{
    let domain = table.table().domain.clone()?;
    Ok(Scope::Domain(domain))
}

/// The call for the names of a scope behind the last that came of it.
fn names_call(scope: &Scope, names: &[Name]) -> Result<Option<Call>, AllocError>
    requires { IsScope scope.now }
    ensures value { IfOk result (λ call. call ≡ Some (calls.NameList NAMED_VARIABLES scope.now
        (own.last_item scope.now names.now))) }
    ensures askable { IfOk result (λ call. IfSome call IsAskable) }
{
    let after = copy_of(last_item(scope, names))?;
    let call = Call::new(CallKind::NameList {
        class: NAMED_VARIABLES,
        scope: scope.clone()?,
        after,
    });
    Ok(Some(call))
}

/// A copy of a name's item, if there is one.
fn copy_of(item: Option<&Visible>) -> Result<Option<Visible>, AllocError>
    requires { IfSome item (λ octets. IsIdentifier octets.now) }
    ensures copy { IfOk result (λ copy. copy ≡ option_copied item.entry) }
    ensures named { IfOk result (λ copy. IfSome copy IsIdentifier) }
{
    match item {
        Some(item) => Ok(Some(item.clone()?)),
        None => Ok(None),
    }
}

/// The call for the type of a name, if there is one.
fn type_call(name: Option<&Name>) -> Result<Option<Call>, AllocError>
    ensures value { IfOk result (λ call. call
        ≡ option_map (λ n. calls.TypeOf n) (option_copied name.entry)) }
    ensures askable { IfOk result (λ call. IfSome call IsAskable) }
{
    match name {
        Some(name) => {
            let _named = name.item();
            Ok(Some(Call::new(CallKind::TypeOf {
                name: name.clone()?,
            })))
        }
        None => Ok(None),
    }
}
