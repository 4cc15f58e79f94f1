//! What holds of all inputs, and of all octets that a peer is sent.
ghost use Rattle.std.specs.Prelude.{◌≡◌, ◌≢◌, ℕ, ◌≤◌, Bool, true, false, List, [], ◌∷◌, ◌++◌};
ghost use Rattle.std.specs.Prelude.{reverse};
ghost use Rattle.std.specs.Prelude.{Option, Some, None};
ghost use Rattle.std.specs.List.{All};
ghost use Rattle.stack_assoc.specs.declared.messages.fault.StackFault.{StackFault};
ghost use Rattle.tpkt_cotp.specs.Streams.{Message};
ghost use Rattle.stack_assoc.specs.Arrivals.{Arrival, Role};
ghost use Rattle.stack_assoc.specs.Tellings.{Tell};
ghost use Rattle.tase_conn.specs.Map.LawfulTold.{IsLawfulTold};
ghost use Rattle.bilateral.specs.Rows.{CentreRows};
ghost use Rattle.sbo_device.specs.declared.key.Key.{Key};
ghost use Rattle.tase_views.specs.declared.event.EventKind.{EventKind as AnyEvent};
ghost use Rattle.tase_views.specs.declared.call.CallKind.{CallKind as AnyCall};
ghost use Rattle.tase_views.specs.declared.event.EventKind.TheVariants.{Open, Request, Take, Close};
ghost use Rattle.tase_views.specs.Calls.{IsCall};
ghost use Rattle.tase_views.specs.History.{Past, opens_in, association_in, entries_of, key_at};
ghost use Rattle.tase_views.specs.OwnTables.{own_tables};
ghost use Rattle.tase_views.specs.View.{view_of};
ghost use Rattle.tase_views.specs.Answers.{reply_to};
ghost use Rattle.tase_views.specs.Outcomes.{seat_refusal, name_refusal};
ghost use Rattle.tase_views.specs.Reports.{reports_pending};
ghost use Rattle.tase_conn.specs.Map.Inputs.{Item, IsLinkInput, text_given, link_has_ended};
ghost use Rattle.tase_conn.specs.Map.Readings.{reading_of, TellsReading};
ghost use Rattle.tase_conn.specs.Map.Asks.{asks_of, without_takes, AreInTurn};
ghost use Rattle.tase_conn.specs.Map.Closed.{is_closed};
ghost use Rattle.tase_conn.specs.Map.Out.{talk_of, end_turns, reply_octets, reports_said, close_octets};
ghost use Rattle.tase_conn.specs.Map.Out.{concluded_octets, octets_out};
ghost use Rattle.tase_conn.specs.Map.Sent.{events_by, association_octets, turns_left, AreInText};
ghost use Rattle.tase_conn.specs.Map.Sent.{IsFixed, AsksNoService};
ghost use Rattle.tase_conn.specs.Map.Sent.{IsNoted};
ghost use Rattle.tase_conn.specs.Map.Turns.{Turn, offers, asks, concludes, turns_told};

/// What is read of octets is what they tell the called end, and nothing else is.
pub fn octets_tell_one_thing()
    ensures found { (octets : List ℕ)
        → TellsReading octets (reading_of octets).told (reading_of octets).broken }
    ensures only { (octets : List ℕ) (told : List Arrival) (broken : Option StackFault)
        → TellsReading octets told broken
        → reading_of octets ≡ record { told = told; broken = broken } }
{}

/// The PDUs that messages tell have lawful parts, as `read_pdu` gives them: so requests may be
/// mapped to calls, and PDUs to replies, at either end.
pub fn told_pdus_are_lawful()
    ensures { (role : Role) (told : List Arrival) (messages : List Message)
        → Tell role told messages → All IsLawfulTold told }
{}

/// With more items behind it an input asks what it asked, and then more. But for its takes an input
/// asks the same however its octets come in pieces.
pub fn asking_goes_on()
    ensures more { (rows : CentreRows) (items more : List Item) → (others : List AnyEvent)
        × (asks_of rows (items ++ more) ≡ asks_of rows items ++ others) }
    ensures cuts { (rows : CentreRows) (here there : List Item) → IsLinkInput here
        → IsLinkInput there
        → text_given here ≡ text_given there → link_has_ended here ≡ link_has_ended there
        → without_takes (asks_of rows here) ≡ without_takes (asks_of rows there) }
{}

/// What an input asks comes in turn: none, or first the open of a peer that there is, then requests
/// and takes, and at last a close. An event that comes in turn behind all those of its seat isn't
/// refused for want of an association, or because the seat has one, or for its peer.
pub fn events_come_in_turn()
    ensures turn { (rows : CentreRows) (items : List Item) → IsLinkInput items
        → AreInTurn rows (asks_of rows items) }
    ensures unrefused { (rows : CentreRows) (past : Past) (who : ℕ) (event : AnyEvent)
        (later : List AnyEvent) → AreInTurn rows (reverse (events_by who past) ++ event ∷ later)
        → (seat_refusal (association_in past who) event ≡ None)
        × (name_refusal rows event ≡ None) }
{}

/// Each entry of an association adds its octets behind those before it: an open its beginning; a
/// request, where it is the one that stands at that place in the text, the reply to it over the
/// view before it; a take the reports that were made since the last one, up to the first that is
/// longer than was agreed on; a close those by what stands at its place. No other entry adds any.
pub fn each_entry_adds_its_octets()
    ensures other { (rows : CentreRows) (past : Past) (key : Key) (who : ℕ) (event : AnyEvent)
        (text : List ℕ) (ended : Bool) → key_at event past who ≢ Some key
        → association_octets rows (record { who = who; event = event } ∷ past) key text ended
        ≡ association_octets rows past key text ended }
    ensures open { (rows : CentreRows) (past : Past) (key : Key) (who peer : ℕ) (text : List ℕ)
        (ended : Bool) → key_at (Open peer) past who ≡ Some key
        → association_octets rows (record { who = who; event = Open peer } ∷ past) key text ended
        ≡ association_octets rows past key text ended ++ (talk_of (reading_of text) ended).opening }
    ensures request { (rows : CentreRows) (past : Past) (key : Key) (who invoke : ℕ)
        (call : AnyCall) (later : List Turn) (text : List ℕ) (ended : Bool) → IsCall call
        → key_at (Request call) past who ≡ Some key
        → turns_left rows past key text ended ≡ asks invoke call ∷ later
        → association_octets rows (record { who = who; event = Request call } ∷ past) key text ended
        ≡ association_octets rows past key text ended
        ++ reply_octets (talk_of (reading_of text) ended) invoke
        (reply_to (own_tables rows key.peer) (view_of rows key.peer past) key.ordinal call) }
    ensures take { (rows : CentreRows) (past : Past) (key : Key) (who : ℕ) (text : List ℕ)
        (ended : Bool) → key_at Take past who ≡ Some key
        → association_octets rows (record { who = who; event = Take } ∷ past) key text ended
        ≡ association_octets rows past key text ended
        ++ reports_said (talk_of (reading_of text) ended).setup
        (talk_of (reading_of text) ended).detail
        (reports_pending (own_tables rows key.peer) (view_of rows key.peer past) key.ordinal) }
    ensures noted { (rows : CentreRows) (past : Past) (key : Key) (who : ℕ) (event : AnyEvent)
        (text : List ℕ) (ended : Bool) → IsNoted event
        → association_octets rows (record { who = who; event = event } ∷ past) key text ended
        ≡ association_octets rows past key text ended }
    ensures close { (rows : CentreRows) (past : Past) (key : Key) (who : ℕ) (text : List ℕ)
        (ended : Bool) → key_at Close past who ≡ Some key
        → association_octets rows (record { who = who; event = Close } ∷ past) key text ended
        ≡ association_octets rows past key text ended
        ++ close_octets (talk_of (reading_of text) ended).setup
        (turns_left rows past key text ended) }
{}

/// The text of an association has its requests taken in order: before its open all of it is left,
/// and nothing was sent; a request, where it is the one that stands first, leaves the rest; no
/// other entry takes any.
pub fn requests_are_taken_in_order()
    ensures yet { (rows : CentreRows) (past : Past) (key : Key) (text : List ℕ) (ended : Bool)
        → opens_in past key.peer ≤ key.ordinal
        → (turns_left rows past key text ended ≡ (talk_of (reading_of text) ended).turns)
        × (association_octets rows past key text ended ≡ []) }
    ensures request { (rows : CentreRows) (past : Past) (key : Key) (who invoke : ℕ)
        (call : AnyCall) (later : List Turn) (text : List ℕ) (ended : Bool) → IsCall call
        → key_at (Request call) past who ≡ Some key
        → turns_left rows past key text ended ≡ asks invoke call ∷ later
        → turns_left rows (record { who = who; event = Request call } ∷ past) key text ended
        ≡ later }
    ensures quiet { (rows : CentreRows) (past : Past) (key : Key) (who : ℕ) (event : AnyEvent)
        (text : List ℕ) (ended : Bool) → AsksNoService event → key_at event past who ≡ Some key
        → turns_left rows (record { who = who; event = event } ∷ past) key text ended
        ≡ turns_left rows past key text ended }
    ensures other { (rows : CentreRows) (past : Past) (key : Key) (who : ℕ) (event : AnyEvent)
        (text : List ℕ) (ended : Bool) → key_at event past who ≢ Some key
        → turns_left rows (record { who = who; event = event } ∷ past) key text ended
        ≡ turns_left rows past key text ended }
{}

/// Every request of an association stands in its text: before its open, where the text begins with
/// an offer; behind a request that stood first; and behind every other entry, and with more text,
/// where they did.
pub fn requests_stand_in_texts()
    ensures yet { (rows : CentreRows) (past : Past) (key : Key) (text : List ℕ)
        (title : Option (List ℕ)) (turns : List Turn) → opens_in past key.peer ≤ key.ordinal
        → turns_told (reading_of text) ≡ offers title ∷ turns → AreInText rows past key text }
    ensures request { (rows : CentreRows) (past : Past) (key : Key) (who invoke : ℕ)
        (call : AnyCall) (later : List Turn) (text : List ℕ) → IsCall call
        → key_at (Request call) past who ≡ Some key → AreInText rows past key text
        → turns_left rows past key text false ≡ asks invoke call ∷ later
        → AreInText rows (record { who = who; event = Request call } ∷ past) key text }
    ensures quiet { (rows : CentreRows) (past : Past) (key : Key) (who : ℕ) (event : AnyEvent)
        (text : List ℕ) → AsksNoService event → key_at event past who ≡ Some key
        → AreInText rows past key text
        → AreInText rows (record { who = who; event = event } ∷ past) key text }
    ensures other { (rows : CentreRows) (past : Past) (key : Key) (who : ℕ) (event : AnyEvent)
        (text : List ℕ) → key_at event past who ≢ Some key → AreInText rows past key text
        → AreInText rows (record { who = who; event = event } ∷ past) key text }
    ensures more { (rows : CentreRows) (past : Past) (key : Key) (text more : List ℕ)
        → AreInText rows past key text → AreInText rows past key (text ++ more) }
{}

/// Where every request of an association stands in its text, as far as that has come, more text
/// leaves more behind what it has left. Until the association is closed its peer is sent the same
/// octets with the longer text; once it is, also where what stands at the place of its close is
/// fixed, and, where a conclude stands there that is the last of the text, those that answer what
/// follows it more.
pub fn texts_grow()
    ensures left { (rows : CentreRows) (past : Past) (key : Key) (text more : List ℕ)
        (ended : Bool) → AreInText rows past key text → (later : List Turn)
        × (turns_left rows past key (text ++ more) ended
        ≡ turns_left rows past key text false ++ (later ++ end_turns ended)) }
    ensures open { (rows : CentreRows) (past : Past) (key : Key) (text more : List ℕ)
        (ended : Bool) → is_closed key past ≡ false → AreInText rows past key text
        → association_octets rows past key (text ++ more) ended
        ≡ association_octets rows past key text false }
    ensures fixed { (rows : CentreRows) (past : Past) (key : Key) (text more : List ℕ)
        (ended : Bool) → is_closed key past ≡ true → AreInText rows past key text
        → IsFixed (turns_left rows past key text false)
        → association_octets rows past key (text ++ more) ended
        ≡ association_octets rows past key text false }
    ensures concluded { (rows : CentreRows) (past : Past) (key : Key) (text more : List ℕ)
        (ended : Bool) (later : List Turn) → is_closed key past ≡ true
        → AreInText rows past key text → turns_left rows past key text false ≡ concludes ∷ []
        → turns_left rows past key (text ++ more) ended ≡ concludes ∷ later
        → association_octets rows past key (text ++ more) ended
        ≡ association_octets rows past key text false
        ++ concluded_octets (talk_of (reading_of text) false).setup later }
{}

/// Once an association is closed, it has the same entries and its peer is sent the same octets over
/// every longer history, and no seat has it again.
pub fn closed_associations_stay()
    ensures entries { (past later : Past) (key : Key) → is_closed key past ≡ true
        → entries_of key (later ++ past) ≡ entries_of key past }
    ensures seats { (past later : Past) (key : Key) (who : ℕ) → is_closed key past ≡ true
        → association_in (later ++ past) who ≢ Some key }
    ensures octets { (rows : CentreRows) (past later : Past) (key : Key) (text : List ℕ)
        (ended : Bool) → is_closed key past ≡ true
        → association_octets rows (later ++ past) key text ended
        ≡ association_octets rows past key text ended }
{}

/// Two centres with two histories in which a peer has the same own tables and the same view send
/// that peer's association the same octets for the same input, whatever else they hold.
pub fn equal_worlds_give_equal_octets()
    ensures { (here there : CentreRows) (past other_past : Past) (peer other ordinal : ℕ)
        (text : List ℕ) (ended : Bool)
        → own_tables here peer ≡ own_tables there other
        → view_of here peer past ≡ view_of there other other_past
        → octets_out (own_tables here peer) (view_of here peer past) ordinal text ended
        ≡ octets_out (own_tables there other) (view_of there other other_past) ordinal text ended }
{}
