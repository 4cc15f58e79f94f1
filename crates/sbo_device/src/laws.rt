//! What holds of a device over every list of moves.
ghost use Rattle.std.specs.Prelude.{◌≡◌, ◌↔◌, ◌⊎◌, ℕ, ◌+◌, ◌<◌, ◌≤◌, ℤ, Bool, false, IsTrue};
ghost use Rattle.std.specs.Prelude.{if◌then◌else◌, List, [], ◌∷◌, ◌++◌, length, map, Contains};
ghost use Rattle.std.specs.Prelude.{Some};
ghost use Rattle.std.specs.Prelude.{slice_get};
ghost use Rattle.std.specs.Option.{option_map};
ghost use Rattle.sbo_device.specs.declared.key.Key.{Key};
ghost use Rattle.sbo_device.specs.Moves.{ControlPoint, DeviceState, DeviceMove, selected, ticked};
ghost use Rattle.sbo_device.specs.States.{state_in, is_permitted, select_answer, operate_answer};
ghost use Rattle.sbo_device.specs.States.{after, tag_of, hold_of, hold_ended, ended_by, permits};
ghost use Rattle.sbo_device.specs.Holders.{Holds, MayTake, IsPermitted, EndsHold, IsExtended};
ghost use Rattle.sbo_device.specs.Banks.{DeviceRecord, record_in, moved, device_at, moved_at};
ghost use Rattle.sbo_device.specs.Banks.{tag_shown, order_by, StandBy, HasMoved};
ghost use Rattle.sbo_device.specs.SameMoves.{TellsApart, AreByKnown, shown, renumbered_hold};
ghost use Rattle.sbo_device.specs.declared.answer.Select.TheVariants as select;
ghost use Rattle.sbo_device.specs.declared.answer.Operate.TheVariants as operate;

/// At most one association holds a device, until one moment, and none without a select of its own;
/// an operate is permitted exactly where the device is direct or held by its association, the value
/// is in the device's list, and the last tag allows it.
pub fn devices_have_one_holder()
    ensures holder { (point : ControlPoint) (moves : List DeviceMove) (key : Key) (until : ℕ)
        → ((state_in point moves).hold ≡ Some (record { key = key; until = until }))
        ↔ Holds point moves key until }
    ensures one_holder { (point : ControlPoint) (moves : List DeviceMove) (a b : Key) (u v : ℕ)
        → Holds point moves a u → Holds point moves b v → (a ≡ b) × (u ≡ v) }
    ensures selected { (point : ControlPoint) (moves : List DeviceMove) (key : Key) (until : ℕ)
        → Holds point moves key until
        → (now : ℕ) × Contains moves (selected key now) × (until ≡ now + point.span) }
    ensures permitted { (point : ControlPoint) (moves : List DeviceMove) (key : Key) (value : ℤ)
        → IsTrue (is_permitted (state_in point moves) key value)
        ↔ IsPermitted point moves key value }
    ensures ordered { (point : ControlPoint) (moves : List DeviceMove) (key : Key) (value : ℤ)
        → (operate_answer (state_in point moves) key value ≡ operate.Ordered)
        ↔ IsPermitted point moves key value }
    ensures granted { (point : ControlPoint) (moves : List DeviceMove) (key : Key)
        → point.direct ≡ false
        → (select_answer (state_in point moves) key ≡ select.Granted)
        ↔ MayTake point (tag_of moves).tag (Holds point moves) key }
    ensures tag { (point : ControlPoint) (moves : List DeviceMove)
        → (state_in point moves).tag ≡ (tag_of moves).tag }
    ensures point { (point : ControlPoint) (moves : List DeviceMove)
        → (state_in point moves).point ≡ point }
{}

/// A tick ends a selection exactly where it stands and its end is then or before.
pub fn ticks_end_selections()
    ensures { (point : ControlPoint) (moves : List DeviceMove) (key : Key) (until now : ℕ)
        → (hold_ended point moves now ≡ Some (record { key = key; until = until }))
        ↔ (Holds point moves key until × (until ≤ now)) }
{}

/// A hold ends at a permitted operate of its holder, at its holder's close, and where the clock
/// stands at its end or later: nobody holds the device then. It never ends otherwise, but that its
/// holder may extend it by a further select.
pub fn holds_end_by_moves()
    ensures ended { (point : ControlPoint) (moves : List DeviceMove) (move : DeviceMove)
        (key other : Key) (until later : ℕ) → Holds point moves key until
        → EndsHold point moves key until move → ¬ Holds point (move ∷ moves) other later }
    ensures otherwise { (point : ControlPoint) (moves : List DeviceMove) (move : DeviceMove)
        (key : Key) (until : ℕ) → Holds point moves key until
        → ¬ EndsHold point moves key until move
        → Holds point (move ∷ moves) key until ⊎ IsExtended point moves key move }
{}

/// Behind selects of its own at a moment an association is answered of each device as before them,
/// so that all selects of one request have the answers that they would have before the request.
pub fn selects_are_answered_alike()
    ensures itself { (s : DeviceState) (key : Key) (now : ℕ)
        → select_answer (after (selected key now) s) key ≡ select_answer s key }
    ensures each { (devices : List DeviceRecord) (n other : ℕ) (key : Key) (now : ℕ)
        → n < length devices
        → select_answer (device_at (moved_at n (selected key now) devices) other).state key
        ≡ select_answer (device_at devices other).state key }
{}

/// Devices that stand by their moves do so behind a move more of one, of all, or of none; what is
/// told of a device is what its moves tell, and an operate gives an order exactly where its moves
/// permit it.
pub fn devices_follow_their_moves()
    ensures none { (moves : ℕ → List DeviceMove) → StandBy [] moves [] }
    ensures pushed { (points : List ControlPoint) (moves : ℕ → List DeviceMove)
        (devices : List DeviceRecord) (point : ControlPoint) → StandBy points moves devices
        → moves (length points) ≡ []
        → StandBy (points ++ point ∷ []) moves (devices ++ record_in point [] ∷ []) }
    ensures one { (points : List ControlPoint) (before behind : ℕ → List DeviceMove)
        (devices : List DeviceRecord) (n : ℕ) (move : DeviceMove)
        → HasMoved (length points) n move before behind
        → StandBy points before devices → StandBy points behind (moved_at n move devices) }
    ensures all { (points : List ControlPoint) (before behind : ℕ → List DeviceMove)
        (devices : List DeviceRecord) (move : DeviceMove)
        → ((n : ℕ) → behind n ≡ move ∷ before n) → StandBy points before devices
        → StandBy points behind (map (moved move) devices) }
    ensures unmoved { (points : List ControlPoint) (before behind : ℕ → List DeviceMove)
        (devices : List DeviceRecord) → ((n : ℕ) → behind n ≡ before n)
        → StandBy points before devices → StandBy points behind devices }
    ensures alike { (points : List ControlPoint) (moves : ℕ → List DeviceMove)
        (a b : List DeviceRecord) → StandBy points moves a → StandBy points moves b → a ≡ b }
    ensures holder { (points : List ControlPoint) (moves : ℕ → List DeviceMove)
        (devices : List DeviceRecord) (n : ℕ) (point : ControlPoint) (key : Key) (until : ℕ)
        → StandBy points moves devices → slice_get points n ≡ Some point
        → ((device_at devices n).state.hold ≡ Some (record { key = key; until = until }))
        ↔ Holds point (moves n) key until }
    ensures tag { (points : List ControlPoint) (moves : ℕ → List DeviceMove)
        (devices : List DeviceRecord) (n : ℕ) (point : ControlPoint)
        → StandBy points moves devices → slice_get points n ≡ Some point
        → tag_shown (device_at devices n) ≡ tag_of (moves n) }
    ensures ended { (points : List ControlPoint) (moves : ℕ → List DeviceMove)
        (devices : List DeviceRecord) (n : ℕ) (point : ControlPoint) (now : ℕ)
        → StandBy points moves devices → slice_get points n ≡ Some point
        → ended_by (ticked now) (device_at devices n).state ≡ hold_ended point (moves n) now }
    ensures order { (points : List ControlPoint) (moves : ℕ → List DeviceMove)
        (devices : List DeviceRecord) (n : ℕ) (point : ControlPoint) (key : Key) (value : ℤ)
        → StandBy points moves devices → slice_get points n ≡ Some point
        → order_by n key value (device_at devices n).state
        ≡ (if permits point (moves n) key value then record { device = n; value = value } ∷ []
        else []) }
{}

/// Whoever is shown a device's moves with other numbers of the peers, and without the closes of
/// peers that never select it or operate it, is shown its holder and its tag as they are.
pub fn holders_are_shown_as_they_are()
    ensures hold { (known : ℕ → Bool) (number : ℕ → ℕ) (point : ControlPoint)
        (moves : List DeviceMove) → TellsApart known number → AreByKnown known moves
        → hold_of point (shown known number moves)
        ≡ option_map (renumbered_hold number) (hold_of point moves) }
    ensures tag { (known : ℕ → Bool) (number : ℕ → ℕ) (moves : List DeviceMove)
        → tag_of (shown known number moves) ≡ tag_of moves }
{}
