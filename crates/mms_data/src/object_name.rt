//! Names of variables, ISO 9506-2's `ObjectName`.
ghost use Rattle.std.specs.Prelude.{◌≡◌, ◌↔◌, IsTrue};
ghost use Rattle.mms_data.specs.ObjectName.{same_scope, same_name};

mod octets;

use ber_values::Visible;
use item_list::ItemList;
pub use octets::{name_len, read_name_octets, take_name, write_name};
use std::alloc::AllocError;
use std::marker::Model;

/// Where a name means something.
#[derive(Debug, Drop)]
pub enum Scope {
    /// In the whole server, the virtual manufacturing device.
    Vmd,
    /// In the domain of this name.
    Domain(Visible),
    /// In one association.
    Association,
}

/// Names in order.
pub type Names = ItemList<Name>;

/// An item and where its name means something. The item and a domain have one to 64 octets.
#[derive(Debug, Drop)]
pub struct Name {
    scope: Scope,
    item: Visible,
}

impl Model for Name {
    ghost use Rattle.mms_data.specs.ObjectName.{ObjectName, IsName};

    ghost Value = { ObjectName };

    ghost view = { λ name. record { scope = name.scope; item = name.item } };

    ghost invariant = { λ name. IsName (record { scope = name.scope; item = name.item }) };
}

impl Name {
    ghost use Rattle.mms_data.specs.ObjectName.{IsName};

    /// The name of an item, which takes no memory.
    pub fn new(scope: Scope, item: Visible) -> Self
        requires { IsName (record { scope = scope; item = item }) }
        ensures { result ≡ record { scope = scope; item = item } }
    {
        Name { scope, item }
    }

    /// Where the item is.
    pub fn scope(&self) -> &Scope
        ensures value { result.now ≡ self.now.scope }
        ensures named { IsName self.now }
    {
        &self.scope
    }

    /// The item's own name.
    pub fn item(&self) -> &Visible
        ensures value { result.now ≡ self.now.item }
        ensures named { IsName self.now }
    {
        &self.item
    }
}

impl Clone for Scope {
    ghost is_clone = { λ scope copy. copy ≡ scope };

    fn clone(&self) -> Result<Scope, AllocError> {
        Ok(match self {
            Scope::Vmd => Scope::Vmd,
            Scope::Domain(domain) => Scope::Domain(domain.clone()?),
            Scope::Association => Scope::Association,
        })
    }
}

impl Clone for Name {
    ghost is_clone = { λ name copy. copy ≡ name };

    fn clone(&self) -> Result<Name, AllocError> {
        Ok(Name {
            scope: self.scope.clone()?,
            item: self.item.clone()?,
        })
    }
}

impl PartialEq for Scope {
    ghost use Rattle.std.specs.Cmp.{partial_equiv_from_equiv};
    ghost use Rattle.mms_data.specs.ObjectName.{same_scope};
    ghost use Rattle.mms_data.specs.SameName.{same_scope-IsEquivalence};

    ghost eq = { same_scope };

    ghost laws = { partial_equiv_from_equiv same_scope-IsEquivalence };

    fn eq(&self, other: &Scope) -> bool
        ensures value { result ≡ same_scope self.now other.now }
        ensures same { IsTrue result ↔ (self.now ≡ other.now) }
    {
        match (self, other) {
            (Scope::Vmd, Scope::Vmd) => true,
            (Scope::Domain(a), Scope::Domain(b)) => a == b,
            (Scope::Association, Scope::Association) => true,
            _ => false,
        }
    }
}

impl Eq for Scope {
    ghost use Rattle.mms_data.specs.SameName.{same_scope-IsEquivalence};

    ghost laws = { same_scope-IsEquivalence };
}

impl PartialEq for Name {
    ghost use Rattle.std.specs.Cmp.{partial_equiv_from_equiv};
    ghost use Rattle.mms_data.specs.ObjectName.{same_name};
    ghost use Rattle.mms_data.specs.SameName.{same_name-IsEquivalence};

    ghost eq = { same_name };

    ghost laws = { partial_equiv_from_equiv same_name-IsEquivalence };

    fn eq(&self, other: &Name) -> bool
        ensures value { result ≡ same_name self.now other.now }
        ensures same { IsTrue result ↔ (self.now ≡ other.now) }
    {
        self.scope == other.scope && self.item == other.item
    }
}

impl Eq for Name {
    ghost use Rattle.mms_data.specs.SameName.{same_name-IsEquivalence};

    ghost laws = { same_name-IsEquivalence };
}
