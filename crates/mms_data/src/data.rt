//! Data of MMS, ISO 9506-2's `Data`.
ghost use Rattle.std.specs.Prelude.{◌≡◌, [], ◌∷◌, ◌++◌, length, slice_get, OnOk, OnErr};
ghost use Rattle.std.specs.Option.{option_copied};

mod octets;

use ber_values::{BitString, Visible};
use item_list::ItemList;
pub use octets::{MOST_DEPTH, data_len, read_data, take_data, write_data};
use std::alloc::{AllocError, Global};
use std::marker::Model;

/// Octets of any number.
pub type OctetList = ItemList<u8>;

/// A value: a [`DataKind`] that contracts see as a datum.
#[cycle(tree)]
#[derive(Debug, Drop)]
pub struct MmsData {
    kind: DataKind,
}

/// What a value is. Structures and arrays hold values again.
#[cycle(tree)]
#[derive(Debug, Drop)]
pub enum DataKind {
    Boolean(bool),
    Integer(i64),
    Unsigned(u64),
    Bits(BitString),
    Real([u8; 4]),
    Octets(OctetList),
    Text(Visible),
    Structure(DataList),
    Array(DataList),
}

/// The members of a structure or an array.
#[cycle(tree)]
#[derive(Debug, Drop)]
pub struct DataList {
    items: Vec<MmsData>,
}

impl Model for MmsData {
    ghost use Rattle.std.specs.Prelude.{ℕ, ◌*◌};
    ghost use Rattle.mms_data.specs.Datum.{Datum, depth};
    ghost use Rattle.mms_data.specs.DatumCode.{datum_code};

    ghost Value = { Datum };

    ghost coded = { datum_code };

    ghost use Rattle.mms_data.specs.DatumOf.{datum_of};

    ghost view = { λ value. datum_of value.kind };

    ghost size = { λ value. 2 * depth value };

    ghost use Rattle.mms_data.specs.KindFalls.{deep_le-depth};

    ghost size_decreases = { λ value h. deep_le-depth value.kind };
}

impl Model for DataList {
    ghost use Rattle.std.specs.Prelude.{ℕ, ◌+◌, ◌*◌, List};
    ghost use Rattle.std.specs.Coded.{coded_list};
    ghost use Rattle.std.proofs.Common.{arith};
    ghost use Rattle.mms_data.specs.Datum.{Datum, deepest, data_of};
    ghost use Rattle.mms_data.specs.DatumCode.{datum_code};
    ghost use Rattle.mms_data.specs.DatumFalls.{most_le-deepest};

    ghost Value = { List Datum };

    ghost coded = { coded_list datum_code };

    ghost view = { λ list. list.items.items };

    ghost size = { λ list. 2 * deepest (data_of list) + 1 };

    ghost size_decreases = { λ list h. omega (arith, most_le-deepest list.items.items) };
}

impl MmsData {
    ghost use Rattle.mms_data.specs.DatumOf.{datum_of};

    /// The value of this kind.
    pub fn new(kind: DataKind) -> Self
        ensures { result ≡ datum_of kind }
    {
        MmsData { kind }
    }

    /// What the value is.
    pub fn kind(&self) -> &DataKind
        ensures { self.now ≡ datum_of result.now }
    {
        &self.kind
    }
}

impl DataList {
    /// No members.
    pub fn new(alloc: Global) -> Self
        ensures { result ≡ [] }
    {
        DataList {
            items: Vec::new(alloc),
        }
    }

    /// Adds a member at the end.
    pub fn push(&mut self, value: MmsData) -> Result<(), AllocError>
        ensures ok { OnOk result (self.new ≡ self.old ++ value ∷ []) }
        ensures err { OnErr result (self.new ≡ self.old) }
    {
        self.items.push(value)?;
        Ok(())
    }

    /// The number of members.
    pub fn len(&self) -> usize
        ensures { result ≡ length self.now }
    {
        self.items.len()
    }

    /// The member at an index.
    pub fn get(&self, index: usize) -> Option<&MmsData>
        ensures { option_copied result ≡ slice_get self.now index }
    {
        self.items.get(index)
    }

    /// The members.
    pub fn as_slice(&self) -> &[MmsData]
        ensures { result.now ≡ self.now }
    {
        self.items.as_slice()
    }
}

impl Clone for MmsData {
    ghost is_clone = { λ value copy. copy ≡ value };

    #[cycle(copies)]
    fn clone(&self) -> Result<MmsData, AllocError> {
        let kind = match &self.kind {
            DataKind::Boolean(boolean) => DataKind::Boolean(*boolean),
            DataKind::Integer(integer) => DataKind::Integer(*integer),
            DataKind::Unsigned(unsigned) => DataKind::Unsigned(*unsigned),
            DataKind::Bits(bits) => DataKind::Bits(bits.clone()?),
            DataKind::Real(real) => DataKind::Real(*real),
            DataKind::Octets(octets) => DataKind::Octets(octets.clone()?),
            DataKind::Text(text) => DataKind::Text(text.clone()?),
            DataKind::Structure(members) => DataKind::Structure(members.clone()?),
            DataKind::Array(members) => DataKind::Array(members.clone()?),
        };
        Ok(MmsData { kind })
    }
}

impl Clone for DataList {
    ghost is_clone = { λ list copy. copy ≡ list };

    #[cycle(copies)]
    fn clone(&self) -> Result<DataList, AllocError> {
        let mut copies = Vec::new(*self.items.allocator());
        for item in &self.items {
            copies.push(item.clone()?)?;
        }
        Ok(DataList { items: copies })
    }
}
