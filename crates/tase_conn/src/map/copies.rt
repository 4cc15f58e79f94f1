//! Copies of lists, in the types of the node and of MMS.
ghost use Rattle.std.specs.Prelude.{◌≡◌, IfOk};

use item_list::ItemList;
use mms_data::{DataList, MmsData, Outcome};
use std::alloc::{AllocError, Global};
use tase_views::Values;

/// The values of a request to write.
pub(crate) fn values_of(alloc: Global, listed: &[MmsData]) -> Result<Values, AllocError>
    ensures { IfOk result (λ values. values ≡ listed.now) }
{
    let mut values = Values::new(alloc);
    for value in listed {
        values.push(value.clone()?)?;
    }
    Ok(values)
}

/// The data that a call writes.
pub(crate) fn data_of(alloc: Global, values: &[MmsData]) -> Result<DataList, AllocError>
    ensures { IfOk result (λ copies. copies ≡ values.now) }
{
    let mut data = DataList::new(alloc);
    for value in values {
        data.push(value.clone()?)?;
    }
    Ok(data)
}

/// The outcomes of a read.
pub(crate) fn outcomes_of(
    alloc: Global,
    outcomes: &[Outcome],
) -> Result<ItemList<Outcome>, AllocError>
    ensures { IfOk result (λ copies. copies ≡ outcomes.now) }
{
    let mut copies = ItemList::new(alloc);
    for outcome in outcomes {
        copies.push(outcome_of(outcome)?)?;
    }
    Ok(copies)
}

fn outcome_of(outcome: &Outcome) -> Result<Outcome, AllocError>
    ensures { IfOk result (λ copy. copy ≡ outcome.now) }
{
    match outcome {
        Outcome::Good(value) => Ok(Outcome::Good(value.clone()?)),
        Outcome::Fail(reason) => Ok(Outcome::Fail(*reason)),
    }
}

/// What came of each variable of a write.
pub(crate) fn written_of(
    alloc: Global,
    written: &[Option<u8>],
) -> Result<ItemList<Option<u8>>, AllocError>
    ensures { IfOk result (λ copies. copies ≡ written.now) }
{
    let mut copies = ItemList::new(alloc);
    for one in written {
        copies.push(*one)?;
    }
    Ok(copies)
}
