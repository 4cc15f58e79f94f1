ghost use Rattle.std.specs.Prelude.{◌≡◌, IfOk};
ghost use Rattle.tase_views.specs.Calls.{IsCall};

use ber_values::Visible;
use item_list::ItemList;
use mms_data::{MmsData, Name, Names, Scope};
use std::alloc::AllocError;
use std::marker::Model;

/// The class of named variables in a list of names (ISO 9506-2, `ObjectClass`).
pub const NAMED_VARIABLES: i64 = 0;

/// The class of named variable lists, which are the data sets.
pub const NAMED_VARIABLE_LISTS: i64 = 2;

/// The class of domains.
pub const DOMAINS: i64 = 9;

/// Values in order.
pub type Values = ItemList<MmsData>;

/// What a peer may ask (ISO 9506-2, the services of the profile).
#[derive(Debug, Drop)]
pub enum CallKind {
    /// Who the node is.
    Identify,
    /// Reads the named variables in order.
    Read {
        names: Names,
        /// Whether the reply is to repeat the names.
        echo: bool,
    },
    /// Reads the members of a data set in order.
    ReadSet {
        set: Name,
        /// Whether the reply is to repeat the data set's name.
        echo: bool,
    },
    /// Writes each named variable the value at the same place, in order.
    Write {
        names: Names,
        values: Values,
    },
    /// Writes the members of a data set, in order.
    WriteSet {
        set: Name,
        values: Values,
    },
    /// The names of the objects of a class in a scope.
    NameList {
        /// The number of the class.
        class: i64,
        scope: Scope,
        /// The name after which the list goes on.
        after: Option<Visible>,
    },
    /// The type of a variable.
    TypeOf {
        name: Name,
    },
    /// Defines a data set of these members.
    Define {
        set: Name,
        members: Names,
    },
    /// The members of a data set.
    MembersOf {
        set: Name,
    },
    /// Deletes data sets, in order.
    Delete {
        sets: Names,
    },
    /// Deletes all data sets of a scope.
    DeleteScope {
        /// The number of the scope (`DeleteNamedVariableList`), which isn't 0: that means the data
        /// sets that are named.
        scope: i64,
    },
    /// A request that no service of the profile is: the kind and the code of the reject that
    /// answers it.
    Odd {
        kind: u8,
        code: u8,
    },
}

/// A call of a peer: a [`CallKind`] with at least one name in each of its lists of names, as many
/// lawful values as names and at least one for a data set, one to 64 octets in each name, a scope
/// of deletion other than 0, and the kind and code 1 and 1 or 5 and 1 of an odd one.
#[derive(Debug, Drop)]
pub struct Call {
    kind: CallKind,
}

impl Model for Call {
    ghost use Rattle.tase_views.specs.declared.call.CallKind.{CallKind};

    ghost Value = { CallKind };

    ghost use Rattle.tase_views.specs.CallCode.{call_code};

    ghost coded = { call_code };

    ghost use Rattle.tase_views.specs.Calls.{IsCall};

    ghost view = { λ call. call.kind };

    ghost invariant = { λ call. IsCall call.kind };
}

impl Call {
    pub fn new(kind: CallKind) -> Call
        requires { IsCall kind }
        ensures { result ≡ kind }
    {
        Call { kind }
    }

    pub fn kind(&self) -> &CallKind
        ensures value { result.now ≡ self.now }
        ensures lawful { IsCall self.now }
    {
        &self.kind
    }
}

impl Clone for Call {
    ghost is_clone = { λ call copy. copy ≡ call };

    fn clone(&self) -> Result<Call, AllocError> {
        let kind = match &self.kind {
            CallKind::Identify => CallKind::Identify,
            CallKind::Read { names, echo } => CallKind::Read {
                names: names.clone()?,
                echo: *echo,
            },
            CallKind::ReadSet { set, echo } => CallKind::ReadSet {
                set: set.clone()?,
                echo: *echo,
            },
            CallKind::Write { names, values } => CallKind::Write {
                names: names.clone()?,
                values: values.clone()?,
            },
            CallKind::WriteSet { set, values } => CallKind::WriteSet {
                set: set.clone()?,
                values: values.clone()?,
            },
            CallKind::NameList {
                class,
                scope,
                after,
            } => CallKind::NameList {
                class: *class,
                scope: scope.clone()?,
                after: copy_of(after)?,
            },
            CallKind::Define { set, members } => CallKind::Define {
                set: set.clone()?,
                members: members.clone()?,
            },
            CallKind::TypeOf { name } => CallKind::TypeOf {
                name: name.clone()?,
            },
            CallKind::MembersOf { set } => CallKind::MembersOf { set: set.clone()? },
            CallKind::Delete { sets } => CallKind::Delete {
                sets: sets.clone()?,
            },
            CallKind::DeleteScope { scope } => CallKind::DeleteScope { scope: *scope },
            CallKind::Odd { kind, code } => CallKind::Odd {
                kind: *kind,
                code: *code,
            },
        };
        Ok(Call { kind })
    }
}

fn copy_of(name: &Option<Visible>) -> Result<Option<Visible>, AllocError>
    ensures { IfOk result (λ copy. copy ≡ name.now) }
{
    match name {
        Some(name) => Ok(Some(name.clone()?)),
        None => Ok(None),
    }
}
