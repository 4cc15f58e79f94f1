//! A wish as data.
ghost use Rattle.std.specs.Prelude.{◌≡◌, ◌*◌, ◌/◌, ◌++◌, ◌∷◌, [], pos, IfOk, OnOk};
ghost use Rattle.mms_data.specs.Datum.{integer, boolean, bits, text, structure, data_of};
ghost use Rattle.mms_data.specs.Lawful.{IsLawful};
ghost use Rattle.transfer_sets.specs.WishData.{shown_wish};

use crate::wish::Wish;
use ber_values::{BitString, Visible};
use mms_data::{DataKind, DataList, MmsData};
use std::alloc::{AllocError, Global};

/// A wish as data: the scope of the data set's name is 1, and the conditions are five bits.
pub fn wish_data(alloc: Global, wish: &Wish) -> Result<MmsData, AllocError>
    ensures value { IfOk result (λ shown. shown ≡ shown_wish wish.now) }
    // It can be spelled in octets.
    ensures lawful { IfOk result (λ shown. IsLawful shown) }
{
    shown(alloc, wish)
}

fn shown(alloc: Global, wish: &Wish) -> Result<MmsData, AllocError>
    ensures { IfOk result (λ shown. shown ≡ shown_wish wish.now) }
{
    let mut members = DataList::new(alloc);
    members.push(set_data(alloc, wish)?)?;
    push_times(&mut members, wish)?;
    members.push(conditions_data(alloc, wish.conditions)?)?;
    push_switches(&mut members, wish)?;
    members.push(integer_data(i64::from(wish.event_code)))?;
    Ok(MmsData::new(DataKind::Structure(members)))
}

/// The name of the data set.
fn set_data(alloc: Global, wish: &Wish) -> Result<MmsData, AllocError>
    ensures { IfOk result (λ shown. shown
        ≡ structure (data_of (integer (pos 1) ∷ text wish.now.set_domain ∷ text wish.now.set_name
        ∷ []))) }
{
    let mut members = DataList::new(alloc);
    members.push(integer_data(1))?;
    members.push(text_data(&wish.set_domain)?)?;
    members.push(text_data(&wish.set_name)?)?;
    Ok(MmsData::new(DataKind::Structure(members)))
}

fn integer_data(number: i64) -> MmsData
    ensures { result ≡ integer number }
{
    MmsData::new(DataKind::Integer(number))
}

fn number_data(number: u32) -> MmsData
    ensures { result ≡ integer (pos number) }
{
    MmsData::new(DataKind::Integer(i64::from(number)))
}

fn boolean_data(value: bool) -> MmsData
    ensures { result ≡ boolean value }
{
    MmsData::new(DataKind::Boolean(value))
}

fn text_data(octets: &Visible) -> Result<MmsData, AllocError>
    ensures { IfOk result (λ shown. shown ≡ text octets.now) }
{
    Ok(MmsData::new(DataKind::Text(octets.clone()?)))
}

/// The conditions as five bits.
fn conditions_data(alloc: Global, conditions: u8) -> Result<MmsData, AllocError>
    ensures { IfOk result (λ shown. shown
        ≡ bits (record { count = 5; octets = (conditions / 8 * 8) ∷ [] })) }
{
    let mut octets = Vec::new(alloc);
    octets.push(conditions / 8 * 8)?;
    Ok(MmsData::new(DataKind::Bits(BitString::new(5, octets))))
}

/// Adds the start and the four times.
fn push_times(members: &mut DataList, wish: &Wish) -> Result<(), AllocError>
    ensures { OnOk result (members.new ≡ members.old ++ (integer (pos wish.now.start)
        ∷ integer (pos wish.now.interval) ∷ integer (pos wish.now.tle)
        ∷ integer (pos wish.now.buffer) ∷ integer (pos wish.now.integrity) ∷ [])) }
{
    members.push(number_data(wish.start))?;
    members.push(number_data(wish.interval))?;
    members.push(number_data(wish.tle))?;
    members.push(number_data(wish.buffer))?;
    members.push(number_data(wish.integrity))?;
    Ok(())
}

/// Adds the five booleans.
fn push_switches(members: &mut DataList, wish: &Wish) -> Result<(), AllocError>
    ensures { OnOk result (members.new ≡ members.old ++ (boolean wish.now.block
        ∷ boolean wish.now.critical ∷ boolean wish.now.rbe ∷ boolean wish.now.all_changes
        ∷ boolean wish.now.status ∷ [])) }
{
    members.push(boolean_data(wish.block))?;
    members.push(boolean_data(wish.critical))?;
    members.push(boolean_data(wish.rbe))?;
    members.push(boolean_data(wish.all_changes))?;
    members.push(boolean_data(wish.status))?;
    Ok(())
}
