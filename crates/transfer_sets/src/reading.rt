//! A wish from data.
ghost use Rattle.std.specs.Prelude.{◌≡◌, ◌↔◌, Ok, Err, IfOk};
ghost use Rattle.transfer_sets.specs.declared.wish.Wish.{Wish as WishSeen};
ghost use Rattle.transfer_sets.specs.declared.wish.WishFault.TheVariants as faults;
ghost use Rattle.transfer_sets.specs.Wishes.{IsWish};
ghost use Rattle.transfer_sets.specs.WishData.{WishParts, IsWishForm, AreRanged, wish_of};
ghost use Rattle.transfer_sets.specs.Components.{wish_in};

use crate::parts::{
    conditions_at, is_shaped, members_of, numbers_of, ranged_of, set_of, switches_of, text_at,
};
use crate::wish::{Wish, WishFault};
use mms_data::MmsData;
use std::alloc::AllocError;

/// The wish that a datum is. The scope of the data set's name may be any integer or unsigned
/// integer, and of the conditions the first five bits count.
pub fn read_wish(value: &MmsData) -> Result<Result<Wish, WishFault>, AllocError>
    ensures wish { (w : WishSeen) → IfOk result (λ read. (read ≡ Ok w)
        ↔ ((p : WishParts) × IsWishForm value.now p × AreRanged p.numbers × (w ≡ wish_of p))) }
    ensures form { IfOk result (λ read. (read ≡ Err faults.Form)
        ↔ ((p : WishParts) → ¬ IsWishForm value.now p)) }
    ensures range { IfOk result (λ read. (read ≡ Err faults.Range)
        ↔ ((p : WishParts) × IsWishForm value.now p × ¬ AreRanged p.numbers)) }
    ensures lawful { IfOk result (λ read. IfOk read (λ w. IsWish w)) }
    ensures exact { IfOk result (λ read. read ≡ wish_in value.now) }
{
    wish_from(value)
}

fn wish_from(value: &MmsData) -> Result<Result<Wish, WishFault>, AllocError>
    ensures { IfOk result (λ read. read ≡ wish_in value.now) }
{
    let members = members_of(value);
    if !is_shaped(members) {
        return Ok(Err(WishFault::Form));
    }
    let set = set_of(members);
    let Some(domain) = text_at(set, 1) else {
        return Ok(Err(WishFault::Form));
    };
    let Some(name) = text_at(set, 2) else {
        return Ok(Err(WishFault::Form));
    };
    let Some(numbers) = numbers_of(members) else {
        return Ok(Err(WishFault::Form));
    };
    let Some(conditions) = conditions_at(members, 6) else {
        return Ok(Err(WishFault::Form));
    };
    let Some(switches) = switches_of(members) else {
        return Ok(Err(WishFault::Form));
    };
    let Some(ranged) = ranged_of(numbers) else {
        return Ok(Err(WishFault::Range));
    };
    Ok(Ok(Wish {
        set_domain: domain.clone()?,
        set_name: name.clone()?,
        start: ranged.start,
        interval: ranged.interval,
        tle: ranged.tle,
        buffer: ranged.buffer,
        integrity: ranged.integrity,
        conditions,
        block: switches.block,
        critical: switches.critical,
        rbe: switches.rbe,
        all_changes: switches.all_changes,
        status: switches.status,
        event_code: ranged.event_code,
    }))
}
