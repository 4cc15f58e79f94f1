//! How far a listing has come.
ghost use Rattle.std.specs.Prelude.{◌≡◌, ◌<◌, false, IfOk, IfSome, OnOk, OnErr, length};
ghost use Rattle.std.specs.List.{All};
ghost use Rattle.std.specs.Option.{option_copied, option_map_or};
ghost use Rattle.mms_data.specs.declared.object_name.Scope.TheVariants as scopes;
ghost use Rattle.mms_data.specs.ObjectName.{IsScope, IsIdentifier};
ghost use Rattle.mms_data.specs.Types.SameShape.{same_shape};
ghost use Rattle.node_core.specs.Objects.Found.{offered};
ghost use Rattle.tase_discover.specs.Listings as own;
ghost use Rattle.tase_discover.specs.Kept.{seen_of, mark_of, IsUndone, Grows, IsAsBefore};

use crate::end::{ListingEnd, Stage};
use crate::pages::{are_too_many, fallen_in, push_names};
use asking_end::Next;
use ber_values::Visible;
use mms_data::types::Shape;
use mms_data::{Name, Scope};
use node_core::objects::{InForce, type_of};
use std::alloc::{AllocError, Global};
use tase_views::{Reply, ReplyKind};

/// How far a listing has come: the names that came, and for each whose type came whether it was the
/// table's.
#[derive(Drop)]
pub(crate) struct Seen {
    /// The scope of the domain whose names are listed.
    pub domain: Scope,
    pub stage: Stage,
    pub names: Vec<Name>,
    pub judged: Vec<bool>,
    /// Once all came, whether nothing differs from the table.
    pub alike: bool,
}

/// How far a listing was before it heard a reply.
#[derive(Clone, Copy)]
pub(crate) struct Mark {
    stage: Stage,
    names: usize,
    judged: usize,
}

impl Seen {
    /// How far it is.
    pub(crate) fn mark(&self) -> Mark
        ensures { result ≡ mark_of self.now }
    {
        Mark {
            stage: self.stage,
            names: self.names.as_slice().len(),
            judged: self.judged.as_slice().len(),
        }
    }

    /// Makes it as it was.
    pub(crate) fn undo(&mut self, mark: Mark)
        ensures { IsUndone mark self.old self.new }
    {
        self.stage = mark.stage;
        self.names.truncate(mark.names);
        self.judged.truncate(mark.judged);
    }

    /// Hears a reply to what was asked. After want of memory all is as before.
    pub(crate) fn hear(
        &mut self,
        alloc: Global,
        table: &InForce<'_>,
        reply: &Reply,
    ) -> Result<Next<ListingEnd>, AllocError>
        requires domain { self.old.domain ≡ scopes.Domain (offered table.now).domain }
        requires scope { IsScope self.old.domain }
        ensures seen { OnOk result (seen_of self.new
            ≡ (own.reply_heeded (offered table.now) (seen_of self.old) reply.now).seen) }
        ensures next { IfOk result (λ next. next
            ≡ (own.reply_heeded (offered table.now) (seen_of self.old) reply.now).next) }
        ensures grows { OnOk result (Grows self.old self.new) }
        ensures err { OnErr result (IsAsBefore self.old self.new) }
    {
        match reply.kind() {
            ReplyKind::NamesAre { names, more } => self.hear_names(names.as_slice(), *more),
            ReplyKind::TypeIs(shape) => self.hear_type(alloc, table, shape),
            ReplyKind::Identified
            | ReplyKind::Results { .. }
            | ReplyKind::Written(_)
            | ReplyKind::Defined
            | ReplyKind::MembersAre(_)
            | ReplyKind::Deleted { .. }
            | ReplyKind::Error { .. }
            | ReplyKind::Reject { .. } => Ok(Next::End(ListingEnd::Other)),
        }
    }

    /// Hears a page of names.
    fn hear_names(&mut self, items: &[Visible], more: bool) -> Result<Next<ListingEnd>, AllocError>
        requires scope { IsScope self.old.domain }
        requires named { All IsIdentifier items.now }
        ensures seen { OnOk result (seen_of self.new
            ≡ (own.page_at self.old.stage self.old.domain (seen_of self.old) items.now more).seen) }
        ensures next { IfOk result (λ next. next
            ≡ (own.page_at self.old.stage self.old.domain (seen_of self.old) items.now more).next) }
        ensures grows { OnOk result (Grows self.old self.new) }
        ensures err { OnErr result (IsAsBefore self.old self.new) }
    {
        match self.stage {
            Stage::Device => self.hear_page(items, more),
            Stage::Domain => self.hear_page(items, more),
            Stage::Types => Ok(Next::End(ListingEnd::Other)),
        }
    }

    /// Hears a page of the names that are listed.
    fn hear_page(&mut self, items: &[Visible], more: bool) -> Result<Next<ListingEnd>, AllocError>
        requires scope { IsScope self.old.domain }
        requires named { All IsIdentifier items.now }
        ensures seen { OnOk result (seen_of self.new
            ≡ (own.page_heeded self.old.domain (seen_of self.old) items.now more).seen) }
        ensures next { IfOk result (λ next. next
            ≡ (own.page_heeded self.old.domain (seen_of self.old) items.now more).next) }
        ensures grows { OnOk result (Grows self.old self.new) }
        ensures err { OnErr result (IsAsBefore self.old self.new) }
    {
        match self.find_fallen(items) {
            Some(place) => {
                self.take(&items[..place + 1])?;
                Ok(Next::End(ListingEnd::Unordered))
            }
            None => self.hear_ordered(items, more),
        }
    }

    /// The place of the first item of a page that doesn't stand above the one before it.
    fn find_fallen(&self, items: &[Visible]) -> Option<usize>
        ensures place { result ≡ own.first_fallen
            (own.last_item (own.scope_of self.now.domain self.now.stage) self.now.names.items)
            items.now }
        ensures within { IfSome result (λ place. place < length items.now) }
    {
        let names = self.names.as_slice();
        match self.stage {
            Stage::Device => fallen_in(&Scope::Vmd, names, items),
            Stage::Domain => fallen_in(&self.domain, names, items),
            Stage::Types => fallen_in(&self.domain, names, items),
        }
    }

    /// Hears a page whose names are in order.
    fn hear_ordered(
        &mut self,
        items: &[Visible],
        more: bool,
    ) -> Result<Next<ListingEnd>, AllocError>
        requires scope { IsScope self.old.domain }
        requires named { All IsIdentifier items.now }
        ensures seen { OnOk result (seen_of self.new
            ≡ (own.page_ordered self.old.domain (seen_of self.old) items.now more).seen) }
        ensures next { IfOk result (λ next. next
            ≡ (own.page_ordered self.old.domain (seen_of self.old) items.now more).next) }
        ensures grows { OnOk result (Grows self.old self.new) }
        ensures err { OnErr result (IsAsBefore self.old self.new) }
    {
        if are_too_many(self.names.as_slice().len(), items.len()) {
            self.take(items)?;
            return Ok(Next::End(ListingEnd::TooMany));
        }
        if !more {
            self.take(items)?;
            return Ok(self.end_scope());
        }
        if items.is_empty() {
            return Ok(Next::End(ListingEnd::Other));
        }
        self.take(items)?;
        Ok(Next::Ask)
    }

    /// Takes the names of items. After want of memory all is as before.
    fn take(&mut self, items: &[Visible]) -> Result<(), AllocError>
        requires scope { IsScope self.old.domain }
        requires named { All IsIdentifier items.now }
        ensures seen { OnOk result (seen_of self.new
            ≡ own.names_with self.old.domain (seen_of self.old) items.now) }
        ensures grows { OnOk result (Grows self.old self.new) }
        ensures err { OnErr result (IsAsBefore self.old self.new) }
    {
        match self.stage {
            Stage::Device => push_names(&mut self.names, &Scope::Vmd, items),
            Stage::Domain => push_names(&mut self.names, &self.domain, items),
            Stage::Types => push_names(&mut self.names, &self.domain, items),
        }
    }

    /// Goes on to the names of the domain, or to the types.
    fn end_scope(&mut self) -> Next<ListingEnd>
        ensures seen { seen_of self.new
            ≡ (own.scope_ended self.old.stage (seen_of self.old)).seen }
        ensures next { result ≡ (own.scope_ended self.old.stage (seen_of self.old)).next }
        ensures grows { Grows self.old self.new }
    {
        match self.stage {
            Stage::Device => {
                self.stage = Stage::Domain;
                Next::Ask
            }
            Stage::Domain => self.begin_types(),
            Stage::Types => self.begin_types(),
        }
    }

    /// Goes on to the types, if there are names.
    fn begin_types(&mut self) -> Next<ListingEnd>
        ensures seen { seen_of self.new ≡ (own.types_begun (seen_of self.old)).seen }
        ensures next { result ≡ (own.types_begun (seen_of self.old)).next }
        ensures grows { Grows self.old self.new }
    {
        self.stage = Stage::Types;
        if self.names.is_empty() {
            Next::Conclude
        } else {
            Next::Ask
        }
    }

    /// Hears a type.
    fn hear_type(
        &mut self,
        alloc: Global,
        table: &InForce<'_>,
        shape: &Shape,
    ) -> Result<Next<ListingEnd>, AllocError>
        ensures seen { OnOk result (seen_of self.new
            ≡ (own.type_at self.old.stage (offered table.now) (seen_of self.old) shape.now).seen) }
        ensures next { IfOk result (λ next. next
            ≡ (own.type_at self.old.stage (offered table.now) (seen_of self.old) shape.now).next) }
        ensures grows { OnOk result (Grows self.old self.new) }
        ensures err { OnErr result (IsAsBefore self.old self.new) }
    {
        match self.stage {
            Stage::Device => Ok(Next::End(ListingEnd::Other)),
            Stage::Domain => Ok(Next::End(ListingEnd::Other)),
            Stage::Types => self.judge(alloc, table, shape),
        }
    }

    /// Hears the type of the next name.
    fn judge(
        &mut self,
        alloc: Global,
        table: &InForce<'_>,
        shape: &Shape,
    ) -> Result<Next<ListingEnd>, AllocError>
        ensures seen { OnOk result (seen_of self.new
            ≡ (own.type_heeded (offered table.now) (seen_of self.old) shape.now).seen) }
        ensures next { IfOk result (λ next. next
            ≡ (own.type_heeded (offered table.now) (seen_of self.old) shape.now).next) }
        ensures grows { OnOk result (Grows self.old self.new) }
        ensures err { OnErr result (IsAsBefore self.old self.new) }
    {
        let Some(name) = self.name_asked() else {
            return Ok(Next::End(ListingEnd::Other));
        };
        let alike = is_type_of(alloc, table, name, shape)?;
        self.judged.push(alike)?;
        Ok(self.next_type())
    }

    /// The name whose type is asked.
    pub(crate) fn name_asked(&self) -> Option<&Name>
        ensures { option_copied result ≡ own.name_asked (seen_of self.now) }
    {
        self.names.as_slice().get(self.judged.as_slice().len())
    }

    /// Whether all types came.
    pub(crate) fn are_judged(&self) -> bool
        ensures { result ≡ own.are_judged (seen_of self.now) }
    {
        self.judged.as_slice().len() >= self.names.as_slice().len()
    }

    /// Whether all names and types came.
    pub(crate) fn is_done(&self) -> bool
        ensures { result ≡ own.is_done (seen_of self.now) }
    {
        match self.stage {
            Stage::Device => false,
            Stage::Domain => false,
            Stage::Types => self.are_judged(),
        }
    }

    /// What is done behind a type.
    fn next_type(&self) -> Next<ListingEnd>
        ensures { result ≡ own.next_type (seen_of self.now) }
    {
        if self.are_judged() {
            Next::Conclude
        } else {
            Next::Ask
        }
    }
}

/// Whether a type is that of the object which a table has by a name.
fn is_type_of(
    alloc: Global,
    table: &InForce<'_>,
    name: &Name,
    shape: &Shape,
) -> Result<bool, AllocError>
    ensures { IfOk result (λ alike. alike
        ≡ own.is_type_of (offered table.now) name.now shape.now) }
{
    let told = type_of(alloc, table, name)?;
    Ok(is_this(&told, shape))
}

/// Whether a type was told, and is this one.
fn is_this(told: &Option<Shape>, shape: &Shape) -> bool
    ensures { result ≡ option_map_or (λ s. same_shape s shape.now) told.now false }
{
    match told {
        Some(told) => told == shape,
        None => false,
    }
}
