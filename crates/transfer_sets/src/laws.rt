//! What holds of all wishes, and of all slots.
ghost use Rattle.std.specs.Prelude.{◌≡◌, ◌↔◌, ◌<◌, ◌≤◌, ◌==◌, ◌+◌, ℕ, true, false, not, List, []};
ghost use Rattle.std.specs.Prelude.{◌∷◌, Ok, Option, Some, None, length, map, replicate, slice_set};
ghost use Rattle.transfer_sets.specs.declared.wish.Wish.{Wish};
ghost use Rattle.transfer_sets.specs.Wishes.{IsWish};
ghost use Rattle.transfer_sets.specs.Components.{wish_in};
ghost use Rattle.transfer_sets.specs.WishData.{shown_wish};
ghost use Rattle.transfer_sets.specs.SlotState.{SlotState, IsSlotLike};
ghost use Rattle.transfer_sets.specs.SlotMoves.{SlotMove, PointChange, Places, changes};
ghost use Rattle.transfer_sets.specs.SlotMoves.{FollowsMoves};
ghost use Rattle.transfer_sets.specs.Due.{AreDue, HasConditions, IsNextDue, conditions_due};
ghost use Rattle.transfer_sets.specs.declared.next_due.TheConstants.{DUE_LIMIT};
ghost use Rattle.transfer_sets.specs.NextDue.{IsNextMoment, has_come};
ghost use Rattle.transfer_sets.specs.Banks.{OwnedSlot, free_slots, freed, slot_at, HasMoreRoom};
ghost use Rattle.transfer_sets.specs.Banks.{HasChanged};
ghost use Rattle.transfer_sets.specs.DueIndex.{IsFirst, HaveNotCome, IsDueIndex, HasFreed};
ghost use Rattle.transfer_sets.specs.DueIndex.{IsTurningIndex};

/// A wish that is shown as data is read back as itself.
pub fn shown_wishes_are_read()
    ensures { (w : Wish) → IsWish w → wish_in (shown_wish w) ≡ Ok w }
{}

/// Whatever a slot is wished, the conditions that are due are one number, and this one; nothing is
/// due of one that isn't enabled.
pub fn due_is_one_number()
    ensures one { (s : SlotState) (from to a b : ℕ) → AreDue s from to a → AreDue s from to b
        → a ≡ b }
    ensures some { (s : SlotState) (from to : ℕ)
        → AreDue s from to (conditions_due s from to) }
    ensures off { (s : SlotState) (from to : ℕ) → s.wish.status ≡ false → AreDue s from to 0 }
{}

/// While nothing befalls a slot, what is due at a moment is due at each later one; and from a
/// moment until which nothing is due, the same is due as from before it, so that the next moment at
/// which something is due is the same from both.
pub fn due_conditions_last()
    ensures later { (s : SlotState) (from to later a b : ℕ) → to ≤ later
        → AreDue s from to a → AreDue s from later b → HasConditions a b }
    ensures passed { (s : SlotState) (from between to conditions : ℕ) → from ≤ between
        → AreDue s from between 0
        → AreDue s from to conditions ↔ AreDue s between to conditions }
    ensures next { (s : SlotState) (from between to : ℕ) → from ≤ between
        → AreDue s from between 0 → IsNextDue s from to ↔ IsNextDue s between to }
{}

/// While nothing befalls a slot, the next moment at which something is due is the same from each
/// moment before it, and something is due at a moment exactly where the next one isn't after it.
/// There is one, or none, and none of a slot that isn't enabled.
pub fn next_moments_last()
    ensures one { (s : SlotState) (from : ℕ) (a b : Option ℕ) → IsNextMoment s from a
        → IsNextMoment s from b → a ≡ b }
    ensures off { (s : SlotState) (from : ℕ) → s.wish.status ≡ false → IsNextMoment s from None }
    ensures later { (s : SlotState) (from later : ℕ) (next : Option ℕ) → from ≤ later
        → has_come next later ≡ false → IsNextMoment s from next → IsNextMoment s later next }
    ensures due { (s : SlotState) (from to conditions : ℕ) (next : Option ℕ) → from < to
        → to < DUE_LIMIT → IsNextMoment s from next → AreDue s from to conditions
        → not (conditions == 0) ≡ has_come next to }
{}

/// The index of a new bank holds no moment. An index stays one until the first of its moments has
/// come, before which none has; where one transfer set is another and its place was set to its next
/// moment; where transfer sets have more room; and where an association ends and its own have no
/// moment.
pub fn due_indexes_last()
    ensures start { (n now : ℕ) → IsDueIndex (free_slots n) now (replicate n None) }
    ensures later { (bank : List OwnedSlot) (now later : ℕ) (index : List (Option ℕ))
        → now ≤ later → HaveNotCome index later 0 (length index) → IsDueIndex bank now index
        → IsDueIndex bank later index }
    ensures put { (bank : List OwnedSlot) (s now : ℕ) (new : OwnedSlot) (index : List (Option ℕ))
        (next : Option ℕ) → s < length bank → IsNextMoment new.state now next
        → IsDueIndex bank now index
        → IsDueIndex (slice_set bank s new) now (slice_set index s next) }
    ensures changed { (places : List ℕ) (change : PointChange) (old new : List OwnedSlot)
        (s now : ℕ) (index : List (Option ℕ)) (next : Option ℕ)
        → HasChanged places change s old new → IsNextMoment (slot_at new s).state now next
        → IsDueIndex old now index → IsDueIndex new now (slice_set index s next) }
    ensures room { (old new : List OwnedSlot) (now : ℕ) (index : List (Option ℕ))
        → HasMoreRoom old new → IsDueIndex old now index → IsDueIndex new now index }
    ensures freed { (bank : List OwnedSlot) (ordinal now : ℕ) (old new : List (Option ℕ))
        → HasFreed bank ordinal old new → IsDueIndex bank now old
        → IsDueIndex (map (freed ordinal) bank) now new }
    ensures first { (index : List (Option ℕ)) (first : Option (ℕ × ℕ)) (to : ℕ)
        → IsFirst index first → ((moment s : ℕ) → first ≡ Some (moment, s) → to < moment)
        → HaveNotCome index to 0 (length index) }
{}

/// As the clock goes on, the turn passes by the transfer sets whose moments haven't come, and by
/// one once its place was set to its next moment after that. Where none from there on has come, the
/// index is that of the later moment.
pub fn due_indexes_turn()
    ensures begin { (bank : List OwnedSlot) (from to : ℕ) (index : List (Option ℕ))
        → IsDueIndex bank from index → IsTurningIndex bank 0 from to index }
    ensures pass { (bank : List OwnedSlot) (turn next from to : ℕ) (index : List (Option ℕ))
        → from ≤ to → turn ≤ next → HaveNotCome index to turn next
        → IsTurningIndex bank turn from to index → IsTurningIndex bank next from to index }
    ensures put { (bank : List OwnedSlot) (s from to : ℕ) (new : OwnedSlot)
        (index : List (Option ℕ)) (next : Option ℕ) → s < length bank
        → IsNextMoment new.state to next → IsTurningIndex bank s from to index
        → IsTurningIndex (slice_set bank s new) (s + 1) from to (slice_set index s next) }
    ensures end { (bank : List OwnedSlot) (turn from to : ℕ) (index : List (Option ℕ))
        → from ≤ to → HaveNotCome index to turn (length index)
        → IsTurningIndex bank turn from to index → IsDueIndex bank to index }
{}

/// Slots that the same moves have brought where they stand have equal wishes, and where these
/// enable them they know the same; and those that are so alike have the same conditions due. A slot
/// still stands where the moves have brought it once a point has changed that no member names, or,
/// while it isn't enabled, any point; and then also over other members.
pub fn slots_follow_their_moves()
    ensures alike { (places : Places) (moves : List SlotMove) (s other : SlotState)
        → FollowsMoves places moves s → FollowsMoves places moves other → IsSlotLike s other }
    ensures due { (s other : SlotState) (from to conditions : ℕ) → IsSlotLike s other
        → AreDue s from to conditions → AreDue other from to conditions }
    ensures others { (places : Places) (moves : List SlotMove) (s : SlotState)
        (change : PointChange) → FollowsMoves places moves s
        → (s.wish.status ≡ true → places change.point ≡ [])
        → FollowsMoves places (changes change ∷ moves) s }
    ensures members { (places other : Places) (moves : List SlotMove) (s : SlotState)
        → s.wish.status ≡ false → FollowsMoves places moves s → FollowsMoves other moves s }
{}
