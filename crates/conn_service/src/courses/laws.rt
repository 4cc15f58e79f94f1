//! What holds of every connection of a node, whatever its link gives and the node answers.
ghost use Rattle.std.specs.Prelude.{◌≡◌, ℕ, List, [], ◌∷◌, ◌++◌, reverse, Option, Some, None, Ok};
ghost use Rattle.std.specs.Prelude.{Err, Bool, true, false};
ghost use Rattle.bilateral.specs.Rows.{CentreRows};
ghost use Rattle.stack_assoc.specs.declared.end_state.EndState.{EndState};
ghost use Rattle.stack_assoc.specs.Courses.{is_accepted};
ghost use Rattle.tase_views.specs.Setup.{Setup};
ghost use Rattle.tase_views.specs.declared.event.EventKind.{EventKind as AnyEvent};
ghost use Rattle.tase_views.specs.declared.event.EventKind.TheVariants.{Open};
ghost use Rattle.tase_views.specs.declared.fault.StepFault.{StepFault};
ghost use Rattle.tase_views.specs.declared.reply.Answer.{Answer};
ghost use Rattle.tase_views.specs.History.{Past, association_in};
ghost use Rattle.tase_views.specs.Outcomes.{IsRightOutcome, seat_refusal, name_refusal};
ghost use Rattle.tase_conn.specs.Map.Inputs.{Item, IsLinkInput};
ghost use Rattle.tase_conn.specs.Map.Turns.{Turn, turns_of};
ghost use Rattle.tase_conn.specs.Map.Asks.{asks_of, without_pauses};
ghost use Rattle.tase_conn.specs.Map.Sent.{events_by, with_event};
ghost use Rattle.tase_conn.specs.Map.Linked.{link_octets};
ghost use Rattle.tase_conn.specs.declared.stage.ConnEnd.{ConnEnd as AnyEnd};
ghost use Rattle.tase_conn.specs.declared.stage.PendingEvent.TheVariants as askeds;
ghost use Rattle.tase_conn.specs.declared.stage.Progress.TheVariants as progresses;
ghost use Rattle.tase_conn.specs.Talking.{Talking, pending_of, IsResting};
ghost use Rattle.tase_conn.specs.Places.{ConnStandsAt};
ghost use Rattle.tase_conn.specs.Taken.{TakesIn, SendsSome};
ghost use Rattle.tase_conn.specs.Wanting.{Wants, Passes, IsIdle, WantsClose, IsLeaving};
ghost use Rattle.tase_conn.specs.Leaving.{IsLeft};
ghost use Rattle.tase_conn.specs.Answering.{told_said, stage_told, IsAnswerFor, end_of_fault};
ghost use Rattle.tase_conn.specs.Answering.{aborts};
ghost use Rattle.conn_service.specs.Courses.Cutting.{HasLeft, LeftClosed, WasLeft, IsUnexplained};
ghost use Rattle.conn_service.specs.Courses.Cutting.{LeavesTooLong};
ghost use Rattle.conn_service.specs.Courses.AnswerEnd.{end_answered};
ghost use Rattle.conn_service.specs.Courses.Serving.{Serves, AreOthers, HasTold, HasServed};

/// A connection serves a seat of the node: it does from its beginning on, with each item that its
/// link gives, whatever other seats do and however its octets are sent, where it asks for an event
/// or for none, and where the node's right answer was told, of which no report is longer than was
/// agreed on. Each event that it asks is the next that the input asks, and none is refused for want
/// of an association, or because the seat has one, or for its peer. Once nothing is left of what
/// its link gave, the seat has had all events that the input asks, and the connection has said all
/// octets that the peer is sent over the history, and no others.
pub fn connections_serve()
    ensures begun { (rows : CentreRows) (past : Past) (who : ℕ) (v : Talking)
        → events_by who past ≡ [] → ConnStandsAt rows [] [] [] v
        → v.progress ≡ progresses.Running askeds.Nothing → Serves rows past who [] [] None v }
    ensures taken { (rows : CentreRows) (past : Past) (who : ℕ) (items : List Item) (item : Item)
        (octets : List ℕ) (old new : Talking)
        → (s : Serves rows past who items octets None old) → IsLinkInput (items ++ item ∷ [])
        → ConnStandsAt rows (items ++ item ∷ []) s.told s.turns new → TakesIn old new
        → Serves rows past who (items ++ item ∷ []) octets None new }
    ensures others { (rows : CentreRows) (past others : Past) (who : ℕ) (items : List Item)
        (octets : List ℕ) (waiting : Option AnyEvent) (v : Talking)
        → Serves rows past who items octets waiting v → AreOthers who others
        → Serves rows (others ++ past) who items octets waiting v }
    ensures wanted { (rows : CentreRows) (past : Past) (who : ℕ) (items : List Item)
        (octets added : List ℕ) (event : Option AnyEvent) (old new : Talking)
        → (s : Serves rows past who items octets None old) → new.stage ≡ old.stage
        → Wants rows items s.told s.turns event old new
        → pending_of new ≡ pending_of old ++ added
        → Serves rows past who items (octets ++ added) event new }
    ensures passes { (rows : CentreRows) (past : Past) (who : ℕ) (items : List Item)
        (octets added : List ℕ) (old new : Talking)
        → (s : Serves rows past who items octets None old)
        → old.progress ≡ progresses.Running askeds.Nothing → new.stage ≡ old.stage
        → IsIdle new.progress → Passes rows items s.told s.turns old new
        → pending_of new ≡ pending_of old ++ added
        → Serves rows past who items (octets ++ added) None new }
    ensures sent { (rows : CentreRows) (past : Past) (who : ℕ) (items : List Item)
        (octets : List ℕ) (waiting : Option AnyEvent) (old new : Talking)
        → (s : Serves rows past who items octets waiting old)
        → ConnStandsAt rows items s.told s.turns new → SendsSome old new
        → Serves rows past who items octets waiting new }
    ensures next { (rows : CentreRows) (past : Past) (who : ℕ) (items : List Item)
        (octets : List ℕ) (event : AnyEvent) (v : Talking)
        → Serves rows past who items octets (Some event) v
        → (later : List AnyEvent)
        × (asks_of rows items ≡ reverse (events_by who past) ++ event ∷ later) }
    ensures unrefused { (rows : CentreRows) (past : Past) (who : ℕ) (items : List Item)
        (octets : List ℕ) (event : AnyEvent) (v : Talking)
        → Serves rows past who items octets (Some event) v
        → (seat_refusal (association_in past who) event ≡ None)
        × (name_refusal rows event ≡ None) }
    ensures answered { (setup : Setup) (past : Past) (who : ℕ) (items : List Item)
        (octets : List ℕ) (event : AnyEvent) (answer : Answer) (old new : Talking)
        → (s : Serves setup.centre past who items octets (Some event) old)
        → IsRightOutcome setup past who event (Ok answer)
        → HasTold setup.centre items s.told s.turns (Ok answer) old new
        → end_answered items answer ≡ None
        → Serves setup.centre (with_event who event past) who items
        (octets ++ told_said old.progress old.stage old.course (Ok answer)) None new }
    ensures served { (rows : CentreRows) (past : Past) (who : ℕ) (items : List Item)
        (octets : List ℕ) (v : Talking) → Serves rows past who items octets None v → IsResting v
        → HasServed rows past who items octets }
{}

/// A connection that is left before the peer brings its end, since the node has refused an event,
/// or has answered a take by a report that is longer than was agreed on, or it was given up, or
/// memory was wanting for the last answer and it was given up then (`unnoted`), has its association
/// closed by its seat, if one is open, and says no more than the octets of an abort. Once it has
/// ended, the seat has had the first of the events that the input asks, and then that close; and
/// but for the abort no more was said than the peer is sent. All was said where the association was
/// closed since the connection was left, no answer was lost for want of memory, and the text tells
/// nothing at that place that explains the close, as for a long report; and where an open was
/// refused.
pub fn connections_leave()
    ensures refused { (rows : CentreRows) (past : Past) (who : ℕ) (items : List Item)
        (octets added : List ℕ) (event : AnyEvent) (fault : StepFault) (old new : Talking)
        → (s : Serves rows past who items octets (Some event) old)
        → IsAnswerFor old.progress (Err fault) → ConnStandsAt rows items s.told s.turns new
        → IsLeft (end_of_fault fault) old new → pending_of new ≡ pending_of old ++ added
        → HasLeft true (end_of_fault fault) old.course.standing rows past who items
        (octets ++ added)
        None new }
    ensures given_up { (rows : CentreRows) (past : Past) (who : ℕ) (items : List Item)
        (octets added : List ℕ) (end : AnyEnd) (old new : Talking)
        → (s : Serves rows past who items octets None old)
        → old.progress ≡ progresses.Running askeds.Nothing
        → ConnStandsAt rows items s.told s.turns new → IsLeft end old new
        → pending_of new ≡ pending_of old ++ added
        → HasLeft true end old.course.standing rows past who items (octets ++ added) None new }
    ensures unnoted { (setup : Setup) (past : Past) (who : ℕ) (items : List Item)
        (octets added : List ℕ) (event : AnyEvent) (answer : Answer) (end : AnyEnd)
        (old between new : Talking)
        → (s : Serves setup.centre past who items octets (Some event) old)
        → IsRightOutcome setup past who event (Ok answer)
        → between ≡ record old {
          progress = progresses.Refused;
          stage = stage_told old.progress (Ok answer) old.stage;
        }
        → ConnStandsAt setup.centre items s.told s.turns new → IsLeft end between new
        → pending_of new ≡ pending_of old ++ added
        → HasLeft false end old.course.standing setup.centre (with_event who event past) who items
        (octets ++ added) None new }
    ensures too_long { (setup : Setup) (past : Past) (who : ℕ) (items : List Item)
        (octets : List ℕ) (event : AnyEvent) (answer : Answer) (end : AnyEnd) (old new : Talking)
        → (s : Serves setup.centre past who items octets (Some event) old)
        → IsRightOutcome setup past who event (Ok answer)
        → HasTold setup.centre items s.told s.turns (Ok answer) old new
        → end_answered items answer ≡ Some end
        → LeavesTooLong setup past who items octets event answer end old new }
    ensures closing { (rows : CentreRows) (past : Past) (who : ℕ) (items : List Item)
        (octets : List ℕ) (event : Option AnyEvent) (whole : Bool) (end : AnyEnd)
        (standing : EndState) (old new : Talking)
        → (h : HasLeft whole end standing rows past who items octets None old)
        → IsLeaving old.progress → WantsClose event old new
        × ConnStandsAt rows items h.told h.turns new
        → HasLeft whole end standing rows past who items octets event new }
    ensures closed { (rows : CentreRows) (past : Past) (who : ℕ) (items : List Item)
        (octets : List ℕ) (event : AnyEvent) (answer : Answer) (whole : Bool) (end : AnyEnd)
        (standing : EndState) (old new : Talking)
        → (h : HasLeft whole end standing rows past who items octets (Some event) old)
        → HasTold rows items h.told h.turns (Ok answer) old new
        → HasLeft whole end standing rows (with_event who event past) who items
        (octets ++ told_said old.progress old.stage old.course (Ok answer)) None new }
    ensures others { (whole : Bool) (end : AnyEnd) (standing : EndState) (rows : CentreRows)
        (past others : Past) (who : ℕ) (items : List Item) (octets : List ℕ)
        (waiting : Option AnyEvent) (v : Talking)
        → HasLeft whole end standing rows past who items octets waiting v → AreOthers who others
        → HasLeft whole end standing rows (others ++ past) who items octets waiting v }
    ensures sent { (whole : Bool) (end : AnyEnd) (standing : EndState) (rows : CentreRows)
        (past : Past) (who : ℕ) (items : List Item) (octets : List ℕ)
        (waiting : Option AnyEvent) (old new : Talking)
        → (h : HasLeft whole end standing rows past who items octets waiting old)
        → ConnStandsAt rows items h.told h.turns new → SendsSome old new
        → HasLeft whole end standing rows past who items octets waiting new }
    ensures again { (whole : Bool) (end other : AnyEnd) (standing : EndState) (rows : CentreRows)
        (past : Past) (who : ℕ) (items : List Item) (octets : List ℕ) (old new : Talking)
        → (h : HasLeft whole end standing rows past who items octets None old)
        → IsLeaving old.progress → ConnStandsAt rows items h.told h.turns new → IsLeft other old new
        → HasLeft whole other standing rows past who items octets None new }
    ensures dropped { (whole : Bool) (end : AnyEnd) (standing : EndState) (rows : CentreRows)
        (past : Past) (who : ℕ) (items : List Item) (item : Item) (octets : List ℕ)
        (old new : Talking)
        → (h : HasLeft whole end standing rows past who items octets None old)
        → old.progress ≡ progresses.Cut end → IsLinkInput (items ++ item ∷ [])
        → ConnStandsAt rows (items ++ item ∷ []) h.told h.turns new → TakesIn old new
        → HasLeft whole end standing rows past who (items ++ item ∷ []) octets None new }
    ensures left { (whole : Bool) (end : AnyEnd) (standing : EndState) (rows : CentreRows)
        (past : Past) (who : ℕ) (items : List Item) (octets : List ℕ) (v : Talking)
        → HasLeft whole end standing rows past who items octets None v
        → v.progress ≡ progresses.Cut end
        → WasLeft end standing rows past who items octets }
    ensures whole { (end : AnyEnd) (standing : EndState) (rows : CentreRows) (past : Past)
        (who : ℕ) (items : List Item) (answered rest : List Turn) (octets : List ℕ)
        → IsLinkInput items → turns_of items ≡ answered ++ rest
        → IsUnexplained (without_pauses rest)
        → aborts end ≡ true → is_accepted standing ≡ true
        → LeftClosed true end standing rows past who items answered octets
        → octets ≡ link_octets rows past who items }
    ensures unopened { (rows : CentreRows) (past : Past) (who : ℕ) (items : List Item)
        (octets : List ℕ) (peer : ℕ) (v : Talking)
        → Serves rows past who items octets (Some (Open peer)) v
        → octets ≡ link_octets rows past who items }
{}
