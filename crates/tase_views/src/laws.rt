//! Laws of what a peer sees, and of the replies that it is given: isolation of peers.
ghost use Rattle.std.specs.Prelude.{◌≡◌, ◌≢◌, ◌↔◌, ℕ, ◌<◌, ℤ, true, false, List, [], ◌∷◌, ◌++◌};
ghost use Rattle.std.specs.Prelude.{All, Some, None, is_some, option_map};
ghost use Rattle.mms_data.specs.Datum.{Datum};
ghost use Rattle.mms_data.specs.ObjectName.{ObjectName};
ghost use Rattle.tase_points.specs.Sample.{Sample};
ghost use Rattle.bilateral.specs.Rows.{CentreRows, IsCentre, device_of, variants_of};
ghost use Rattle.bilateral.specs.Rows.{place_of_see};
ghost use Rattle.sbo_device.specs.declared.key.Key.{Key};
ghost use Rattle.sbo_device.specs.Moves.{ControlPoint, Tag, tagging};
ghost use Rattle.sbo_device.specs.States.{hold_of, tag_of, permits};
ghost use Rattle.sbo_device.specs.SameMoves.{renumbered_hold};
ghost use Rattle.tase_views.specs.declared.call.CallKind.{CallKind as AnyCall};
ghost use Rattle.tase_views.specs.declared.event.EventKind.{EventKind as AnyEvent};
ghost use Rattle.tase_views.specs.declared.event.EventKind.TheVariants.{Update, Table};
ghost use Rattle.tase_views.specs.declared.event.EventKind.TheVariants as events;
ghost use Rattle.tase_views.specs.Setup.{Setup};
ghost use Rattle.tase_views.specs.Moves.{Act, closes, Move, acts, updates, tags, asks, chooses};
ghost use Rattle.tase_views.specs.Moves.{takes_orders, EventSort, sort_of, feeding};
ghost use Rattle.tase_views.specs.History.{Past, association_in, key_at, entries_by};
ghost use Rattle.tase_views.specs.Seats.{reseated, IsInjective};
ghost use Rattle.mms_data.specs.Types.TypeShape.{IsTypeShape};
ghost use Rattle.tase_views.specs.OwnTables.{OwnDevice, OwnTable, OwnTables, Owns, own_tables};
ghost use Rattle.tase_views.specs.OwnTables.{device_named, is_selectable, control_of};
ghost use Rattle.tase_views.specs.Objects.{Object, control_point, object_named};
ghost use Rattle.tase_views.specs.Shapes.{shape_of};
ghost use Rattle.tase_views.specs.Devices.{Deed, deed_of, number_in, moment_of, device_moves};
ghost use Rattle.tase_views.specs.View.{View, moves_in, held_in, seen_by, view_by, view_of, held};
ghost use Rattle.tase_views.specs.View.{steps_in, moves_seen, peer_number};
ghost use Rattle.tase_views.specs.Answers.{object_written, reply_to};
ghost use Rattle.tase_views.specs.Reports.{reports_pending, AreDueAt, due_conditions};
ghost use Rattle.tase_views.specs.Orders.{orders_of, orders_taken, orders_left};
ghost use Rattle.tase_views.specs.Outcomes.{first_refusal, own_refusal, refusal_of, answer_to};
ghost use Rattle.tase_views.specs.Outcomes.{stop_refusal, clock_refusal, weight_refusal};

/// Two worlds. Two centres with two histories in which a peer has the same own tables and the same
/// view give that peer the same reply to each call, the same reports at each take and, where both
/// seats have an association, the same refusals but for stop and weight, whatever else they hold.
pub fn two_worlds()
    ensures reply { (here there : CentreRows) (owns others : Owns) (moves more : List Move)
        (peer other ordinal : ℕ) (call : AnyCall) → owns peer ≡ others other
        → view_by here owns peer moves ≡ view_by there others other more
        → reply_to (owns peer) (view_by here owns peer moves) ordinal call
        ≡ reply_to (others other) (view_by there others other more) ordinal call }
    ensures reports { (here there : CentreRows) (owns others : Owns) (moves more : List Move)
        (peer other ordinal : ℕ) → owns peer ≡ others other
        → view_by here owns peer moves ≡ view_by there others other more
        → reports_pending (owns peer) (view_by here owns peer moves) ordinal
        ≡ reports_pending (others other) (view_by there others other more) ordinal }
    ensures refusal { (here there : CentreRows) (past more : Past) (who seat : ℕ)
        (event : AnyEvent) → is_some (association_in past who) ≡ true
        → is_some (association_in more seat) ≡ true
        → ((move : Move) → sort_of event ≢ feeding move)
        → own_refusal here past who event ≡ own_refusal there more seat event }
{}

/// A move that a peer isn't shown leaves its view as it was, and with it the answer to each event
/// of its associations and their reports.
pub fn unseen_moves_change_nothing()
    ensures view { (rows : CentreRows) (owns : Owns) (peer : ℕ) (moves : List Move) (move : Move)
        → seen_by rows owns peer moves move ≡ None
        → view_by rows owns peer (move ∷ moves) ≡ view_by rows owns peer moves }
    ensures answer { (rows : CentreRows) (owns : Owns) (moves : List Move) (move : Move)
        (key : Key) (sort : EventSort) → seen_by rows owns key.peer moves move ≡ None
        → answer_to (owns key.peer) (view_by rows owns key.peer (move ∷ moves)) key sort
        ≡ answer_to (owns key.peer) (view_by rows owns key.peer moves) key sort }
    ensures reports { (rows : CentreRows) (owns : Owns) (peer ordinal : ℕ) (moves : List Move)
        (move : Move) → seen_by rows owns peer moves move ≡ None
        → reports_pending (owns peer) (view_by rows owns peer (move ∷ moves)) ordinal
        ≡ reports_pending (owns peer) (view_by rows owns peer moves) ordinal }
{}

/// What a peer isn't shown of other associations: an act that is nothing to a device; one on a
/// device that the peer's tables don't name; a select or an operate of a device that they have as
/// direct; a close by a table without a device that they have as not direct. And of the centre: an
/// update of a point, a tag of a device that the peer's tables don't name, a request and a choice
/// for another peer, and that the plant took orders.
pub fn what_a_peer_is_not_shown()
    ensures no_deed { (rows : CentreRows) (owns : Owns) (peer : ℕ) (before : List Move) (key : Key)
        (act : Act) → key.peer ≢ peer → act ≢ closes
        → deed_of (held_in rows owns before key.peer) act ≡ None
        → seen_by rows owns peer before (acts key act) ≡ None }
    ensures unnamed { (rows : CentreRows) (owns : Owns) (peer : ℕ) (before : List Move) (key : Key)
        (act : Act) (deed : Deed) → key.peer ≢ peer
        → deed_of (held_in rows owns before key.peer) act ≡ Some deed
        → device_named (owns peer) deed.device.row.name ≡ None
        → seen_by rows owns peer before (acts key act) ≡ None }
    ensures direct { (rows : CentreRows) (owns : Owns) (peer : ℕ) (before : List Move) (key : Key)
        (act : Act) (deed : Deed) (d : OwnDevice) → key.peer ≢ peer
        → deed_of (held_in rows owns before key.peer) act ≡ Some deed
        → ((tag : Tag) → deed.act ≢ tagging tag)
        → device_named (owns peer) deed.device.row.name ≡ Some d → d.row.direct ≡ true
        → seen_by rows owns peer before (acts key act) ≡ None }
    ensures close { (rows : CentreRows) (owns : Owns) (peer : ℕ) (before : List Move) (key : Key)
        → key.peer ≢ peer
        → All (λ (d : OwnDevice). is_selectable (owns peer) d.row.name ≡ false)
        (held_in rows owns before key.peer).devices
        → seen_by rows owns peer before (acts key closes) ≡ None }
    ensures update { (rows : CentreRows) (owns : Owns) (peer point : ℕ) (before : List Move)
        (value : Sample) → All (λ table. place_of_see table point ≡ None) (variants_of rows peer)
        → seen_by rows owns peer before (updates point value) ≡ None }
    ensures tag { (rows : CentreRows) (owns : Owns) (peer device : ℕ) (before : List Move)
        (tag : Tag) → device_named (owns peer) (device_of rows device).name ≡ None
        → seen_by rows owns peer before (tags device tag) ≡ None }
    ensures request { (rows : CentreRows) (owns : Owns) (peer other slot : ℕ) (before : List Move)
        → other ≢ peer → seen_by rows owns peer before (asks other slot) ≡ None }
    ensures choice { (rows : CentreRows) (owns : Owns) (peer other variant : ℕ)
        (before : List Move) → other ≢ peer
        → seen_by rows owns peer before (chooses other variant) ≡ None }
    ensures orders { (rows : CentreRows) (owns : Owns) (peer : ℕ) (before : List Move)
        → seen_by rows owns peer before takes_orders ≡ None }
{}

/// A peer is shown nothing of what associations of another do whose tables name no device that its
/// own tables name: an open, a request, a take and a close of the other leave its view as it was.
/// The view of every peer is as it was behind an update of a point and a tag of a device that none
/// of its tables names, a choice of another peer's table, and a take of the plant's orders.
pub fn others_are_unseen()
    ensures act { (rows : CentreRows) (owns : Owns) (peer : ℕ) (before : List Move) (key : Key)
        (act : Act) → key.peer ≢ peer
        → ((name : List ℕ) → is_some (device_named (owns key.peer) name) ≡ true
        → device_named (owns peer) name ≡ None)
        → seen_by rows owns peer before (acts key act) ≡ None }
    ensures event { (rows : CentreRows) (past : Past) (peer who : ℕ) (event : AnyEvent) (key : Key)
        → ((move : Move) → sort_of event ≢ feeding move)
        → key_at event past who ≡ Some key → key.peer ≢ peer
        → ((name : List ℕ) → is_some (device_named (own_tables rows key.peer) name) ≡ true
        → device_named (own_tables rows peer) name ≡ None)
        → view_of rows peer (record { who = who; event = event } ∷ past)
        ≡ view_of rows peer past }
    ensures update { (rows : CentreRows) (past : Past) (peer who point : ℕ) (value : Sample)
        → All (λ table. place_of_see table point ≡ None) (variants_of rows peer)
        → view_of rows peer (record { who = who; event = Update point value } ∷ past)
        ≡ view_of rows peer past }
    ensures choice { (rows : CentreRows) (past : Past) (peer who other variant : ℕ)
        → other ≢ peer
        → view_of rows peer (record { who = who; event = Table other variant } ∷ past)
        ≡ view_of rows peer past }
    ensures tag { (rows : CentreRows) (past : Past) (peer who device : ℕ) (tag : Tag)
        → device_named (own_tables rows peer) (device_of rows device).name ≡ None
        → view_of rows peer (record { who = who; event = events.Tag device tag } ∷ past)
        ≡ view_of rows peer past }
    ensures orders { (rows : CentreRows) (past : Past) (peer who : ℕ)
        → view_of rows peer (record { who = who; event = events.TakeOrders } ∷ past)
        ≡ view_of rows peer past }
{}

/// A peer's view is the same whatever numbers the seats have.
pub fn seats_are_unseen()
    ensures { (rows : CentreRows) (past : Past) (peer : ℕ) (seat : ℕ → ℕ) → IsInjective seat
        → view_of rows peer (reseated seat past) ≡ view_of rows peer past }
{}

/// But for a stop of the node, the clock and a full history, an event is refused for what its own
/// seat has done and for what it names, and for nothing that other seats do.
pub fn refusals_are_of_the_seat()
    ensures own { (rows : CentreRows) (past : Past) (who : ℕ) (event : AnyEvent)
        → own_refusal rows past who event ≡ own_refusal rows (entries_by who past) who event }
    ensures all { (setup : Setup) (past : Past) (who : ℕ) (event : AnyEvent)
        → refusal_of setup past who event ≡ first_refusal (stop_refusal past event
        ∷ own_refusal setup.centre past who event ∷ clock_refusal past event
        ∷ weight_refusal setup past event ∷ []) }
{}

/// By tables that offer neither devices nor transfer sets no report is ever made.
pub fn nothing_is_made_without_offers()
    ensures { (tables : OwnTables) (view : View) (ordinal : ℕ)
        → All (λ table. (table.devices ≡ []) × (table.slots ≡ 0)) tables.tables
        → reports_pending tables view ordinal ≡ [] }
{}

/// The type of each object that a name stands for by a table is one that a peer may be told.
pub fn types_may_be_told()
    ensures { (table : OwnTable) (name : ObjectName) (object : Object)
        → object_named table name ≡ Some object → IsTypeShape (shape_of object) }
{}

/// The conditions that are due at a tick are those that some whole multiple of a period, a change
/// that has waited, or a full list of changes brings about, and no other number is.
pub fn due_conditions_are_those()
    ensures { (tables : OwnTables) (view : View) (slot to conditions : ℕ)
        → AreDueAt tables view slot to conditions
        ↔ (conditions ≡ due_conditions tables view slot to) }
{}

/// A peer's view shows each device of the peer's tables as all moves of the node have it: its tag,
/// with the reason, and, unless it is direct, who holds it and until when, the holder by its peer's
/// key as a number, or as the peer itself. Peers whose tables name the device have different
/// numbers.
pub fn devices_are_seen_as_they_are()
    ensures hold { (rows : CentreRows) (past : Past) (peer : ℕ) (name : List ℕ)
        (point : ControlPoint) → IsCentre rows
        → is_selectable (own_tables rows peer) name ≡ true
        → hold_of point (moves_seen (own_tables rows peer) (view_of rows peer past) name)
        ≡ option_map (renumbered_hold (peer_number rows peer))
        (hold_of point (device_moves name (steps_in rows (own_tables rows) (moves_in past)))) }
    ensures numbers { (rows : CentreRows) (peer one other : ℕ) (name : List ℕ) → IsCentre rows
        → is_some (device_named (own_tables rows one) name) ≡ true
        → is_some (device_named (own_tables rows other) name) ≡ true
        → peer_number rows peer one ≡ peer_number rows peer other → one ≡ other }
    ensures tag { (rows : CentreRows) (moves : List Move) (peer : ℕ) (name : List ℕ)
        → is_some (device_named (own_tables rows peer) name) ≡ true
        → tag_of (moves_seen (own_tables rows peer)
        (view_by rows (own_tables rows) peer moves) name)
        ≡ tag_of (device_moves name (steps_in rows (own_tables rows) moves)) }
{}

/// A peer is answered that its write of a number to a device is done exactly where it is permitted
/// over all moves of the node; a device that isn't direct is then held by this association, and so
/// by no other one, until a moment that is to come.
pub fn orders_are_answered()
    ensures answered { (rows : CentreRows) (past : Past) (key : Key) (name : ObjectName)
        (d : OwnDevice) (value : Datum) (number : ℤ) → IsCentre rows
        → object_named (held (own_tables rows key.peer) (view_of rows key.peer past)) name
        ≡ Some (control_point d)
        → number_in value ≡ Some number
        → (object_written (own_tables rows key.peer) (view_of rows key.peer past) key.ordinal
        (Some (control_point d)) value ≡ None)
        ↔ (permits (control_of d)
        (device_moves d.row.name (steps_in rows (own_tables rows) (moves_in past))) key number
        ≡ true) }
    ensures held { (rows : CentreRows) (past : Past) (key : Key) (name : ObjectName)
        (d : OwnDevice) (number : ℤ) → IsCentre rows
        → object_named (held (own_tables rows key.peer) (view_of rows key.peer past)) name
        ≡ Some (control_point d)
        → d.row.direct ≡ false
        → permits (control_of d)
        (device_moves d.row.name (steps_in rows (own_tables rows) (moves_in past))) key number
        ≡ true
        → (until : ℕ) × (hold_of (control_of d)
        (device_moves d.row.name (steps_in rows (own_tables rows) (moves_in past)))
        ≡ Some (record { key = key; until = until }))
        × (moment_of (steps_in rows (own_tables rows) (moves_in past)) < until) }
{}

/// All orders of a history are those that the plant has taken and, behind them, those that are
/// left. When it takes those, they are taken behind the others, and none is left: so none is lost,
/// and none is given twice.
pub fn orders_are_given_once()
    ensures all { (rows : CentreRows) (owns : Owns) (moves : List Move)
        → orders_taken rows owns moves ++ orders_left rows owns moves
        ≡ orders_of rows owns moves }
    ensures taken { (rows : CentreRows) (owns : Owns) (moves : List Move)
        → orders_taken rows owns (takes_orders ∷ moves)
        ≡ orders_taken rows owns moves ++ orders_left rows owns moves }
    ensures left { (rows : CentreRows) (owns : Owns) (moves : List Move)
        → orders_left rows owns (takes_orders ∷ moves) ≡ [] }
{}
