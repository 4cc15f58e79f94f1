//! What a node's moves make of its devices, and what of that a peer sees.
ghost use Rattle.std.specs.Prelude.{◌≡◌, ℕ, ◌<◌, ℤ, false, List, [], ◌∷◌, ◌++◌, length, map};
ghost use Rattle.std.specs.Option.{option_map_or};
ghost use Rattle.mms_data.specs.Datum.{Datum};
ghost use Rattle.mms_data.specs.ObjectName.{ObjectName};
ghost use Rattle.bilateral.specs.Rows.{CentreRows, IsCentre, variants_of, variant_of};
ghost use Rattle.sbo_device.specs.declared.hold.Hold.{Hold};
ghost use Rattle.sbo_device.specs.declared.key.Key.{Key};
ghost use Rattle.sbo_device.specs.Moves.{Tag, ticked as clock_at, closed as ended};
ghost use Rattle.sbo_device.specs.Moves.{tagged as marked};
ghost use Rattle.sbo_device.specs.States.{select_answer, operate_answer, hold_ended, ended_by};
ghost use Rattle.sbo_device.specs.States.{same_key, tag_of};
ghost use Rattle.sbo_device.specs.Banks.{BankState, DeviceRecord, moved, moved_at};
ghost use Rattle.tase_views.specs.History.{Past, last_tick};
ghost use Rattle.tase_views.specs.Moves.{Act, reads, writes, acts_of_call, closes, Move, acts};
ghost use Rattle.tase_views.specs.Moves.{tags, ticks, takes_orders};
ghost use Rattle.tase_views.specs.declared.call.CallKind.{CallKind};
ghost use Rattle.tase_views.specs.OwnTables.{OwnDevice, OwnTables, own_table, own_tables};
ghost use Rattle.tase_views.specs.OwnTables.{control_of};
ghost use Rattle.tase_views.specs.Devices.{deed_of};
ghost use Rattle.tase_views.specs.View.{View, own, moves_in, view_of, held, held_in, own_key};
ghost use Rattle.tase_views.specs.View.{moves_seen, moment_in};
ghost use Rattle.tase_views.specs.Answers.{device_state};
ghost use Rattle.node_core.specs.Devices.DeviceBanks.{IsDeviceBank, IsIdle, HaveActed, devices_by};
ghost use Rattle.node_core.specs.Devices.DevicesSeen.{IsDeviceSeen, AreDevicesSeen};

/// A bank that has acted as the variables of a call say is that of the history with this call.
pub fn devices_follow_acts()
    ensures { (rows : CentreRows) (past : Past) (key : Key) (call : CallKind)
        (old new : BankState) → IsCentre rows
        → HaveActed rows (held_in rows (own_tables rows) (moves_in past) key.peer)
        (last_tick past) key (acts_of_call call) old new
        → IsDeviceBank rows (moves_in past) old
        → IsDeviceBank rows (map (acts key) (acts_of_call call) ++ moves_in past) new }
{}

/// Closes, ticks, tags and takings of orders make of a bank what they make of its devices and its
/// orders, and all other moves leave it.
pub fn devices_follow_the_centre()
    ensures idle { (rows : CentreRows) (moves : List Move) (move : Move) (old new : BankState)
        → IsIdle move → new.devices ≡ old.devices → new.orders ≡ old.orders
        → IsDeviceBank rows moves old → IsDeviceBank rows (move ∷ moves) new }
    ensures closed { (rows : CentreRows) (moves : List Move) (key : Key) (old new : BankState)
        → new.devices ≡ map (moved (ended key)) old.devices → new.orders ≡ old.orders
        → IsDeviceBank rows moves old → IsDeviceBank rows (acts key closes ∷ moves) new }
    ensures ticked { (rows : CentreRows) (moves : List Move) (now : ℕ) (old new : BankState)
        → new.devices ≡ map (moved (clock_at now)) old.devices → new.orders ≡ old.orders
        → IsDeviceBank rows moves old → IsDeviceBank rows (ticks now ∷ moves) new }
    ensures tagged { (rows : CentreRows) (moves : List Move) (device : ℕ) (tag : Tag)
        (old new : BankState) → IsCentre rows → device < length rows.devices
        → new.devices ≡ moved_at device (marked tag) old.devices → new.orders ≡ old.orders
        → IsDeviceBank rows moves old → IsDeviceBank rows (tags device tag ∷ moves) new }
    ensures taken { (rows : CentreRows) (moves : List Move) (old new : BankState)
        → new.devices ≡ old.devices → new.orders ≡ []
        → IsDeviceBank rows moves old → IsDeviceBank rows (takes_orders ∷ moves) new }
{}

/// The bank of a history has the devices of each table as the view of its peer shows them: each is
/// answered of, ends and is tagged alike.
pub fn devices_are_seen()
    ensures seen { (rows : CentreRows) (past : Past) (peer variant : ℕ) (bank : BankState)
        → IsCentre rows → variant < length (variants_of rows peer)
        → IsDeviceBank rows (moves_in past) bank
        → AreDevicesSeen rows (own_tables rows peer) (view_of rows peer past) peer
        (variant_of rows peer variant) bank.devices }
    ensures select { (tables : OwnTables) (view : View) (peer ordinal : ℕ) (d : OwnDevice)
        (kept : DeviceRecord) → IsDeviceSeen tables view peer d kept
        → select_answer kept.state (record { peer = peer; ordinal = ordinal })
        ≡ select_answer (device_state tables view d) (own_key ordinal) }
    ensures operate { (tables : OwnTables) (view : View) (peer ordinal : ℕ) (d : OwnDevice)
        (kept : DeviceRecord) (value : ℤ) → IsDeviceSeen tables view peer d kept
        → operate_answer kept.state (record { peer = peer; ordinal = ordinal }) value
        ≡ operate_answer (device_state tables view d) (own_key ordinal) value }
    ensures end { (tables : OwnTables) (view : View) (peer ordinal now : ℕ) (d : OwnDevice)
        (kept : DeviceRecord) → IsDeviceSeen tables view peer d kept
        → option_map_or (λ (hold : Hold). same_key hold.key
        (record { peer = peer; ordinal = ordinal })) (ended_by (clock_at now) kept.state) false
        ≡ option_map_or (λ (hold : Hold). same_key hold.key (own_key ordinal))
        (hold_ended (control_of d) (moves_seen tables view d.row.name) now) false }
{}

/// Behind an own read a peer sees its selects answered and all tags as before it; behind an own
/// write its devices are seen as they are kept.
pub fn acts_leave_devices_alike()
    ensures selects { (tables : OwnTables) (view : View) (ordinal : ℕ) (name : ObjectName)
        (d : OwnDevice) → select_answer
        (device_state tables (own ordinal (reads name) ∷ view) d) (own_key ordinal)
        ≡ select_answer (device_state tables view d) (own_key ordinal) }
    ensures tags { (tables : OwnTables) (view : View) (ordinal : ℕ) (name : ObjectName)
        (item : List ℕ) → tag_of (moves_seen tables (own ordinal (reads name) ∷ view) item)
        ≡ tag_of (moves_seen tables view item) }
    ensures written { (rows : CentreRows) (view : View) (peer variant ordinal : ℕ)
        (name : ObjectName) (value : Datum) (devices : List DeviceRecord) → IsCentre rows
        → variant < length (variants_of rows peer)
        → length devices ≡ length rows.devices
        → held (own_tables rows peer) view ≡ own_table rows (variant_of rows peer variant)
        → AreDevicesSeen rows (own_tables rows peer) view peer (variant_of rows peer variant)
        devices
        → AreDevicesSeen rows (own_tables rows peer) (own ordinal (writes name value) ∷ view)
        peer (variant_of rows peer variant)
        (devices_by rows (moment_in view) (record { peer = peer; ordinal = ordinal })
        (deed_of (held (own_tables rows peer) view) (writes name value)) devices) }
{}
