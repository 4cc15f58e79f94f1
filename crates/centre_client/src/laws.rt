//! What holds of every script that is played.
ghost use Rattle.std.specs.Prelude.{◌≡◌, ℕ, ◌+◌, ◌<◌, Option, Some, None, List};
ghost use Rattle.tpkt_cotp.specs.declared.turn.Role.TheVariants.{Calling};
ghost use Rattle.tpkt_cotp.specs.Streams.{Message};
ghost use Rattle.stack_assoc.specs.declared.input.StackIn.{StackIn as AnyInput};
ghost use Rattle.stack_assoc.specs.declared.messages.fault.StackFault.{StackFault};
ghost use Rattle.stack_assoc.specs.Arrivals.{Arrival};
ghost use Rattle.stack_assoc.specs.Fronts.{StartsWith};
ghost use Rattle.stack_assoc.specs.Tellings.{Tell, Tells, StopsTelling};
ghost use Rattle.bilateral.specs.Rows.{CentreRows as AnyRows};
ghost use Rattle.tase_views.specs.declared.reply.ReplyKind.{ReplyKind as AnyReply};
ghost use Rattle.tase_views.specs.declared.reply.ReportKind.{ReportKind as AnyReport};
ghost use Rattle.asking_end.specs.declared.asker.Asker.{Asker as AnyAsker};
ghost use Rattle.asking_end.specs.declared.asker.AskMove.TheVariants.{Say};
ghost use Rattle.asking_end.specs.declared.end.AskEnd.{AskEnd as AnyEnd};
ghost use Rattle.asking_end.specs.declared.limits.TheConstants.{LAST_INVOKE};
ghost use Rattle.asking_end.specs.Askers.{broken_step, step_then};
ghost use Rattle.asking_end.specs.Asking.{IsNumbered, at_call, begun, concluded_for};
ghost use Rattle.asking_end.specs.Asking.{reply_heeded, report_heeded, request_behind};
ghost use Rattle.asking_end.specs.Hearings.{input_heeded};
ghost use Rattle.centre_client.specs.declared.play.Checkback.{Checkback as AnyCheckback};
ghost use Rattle.centre_client.specs.declared.script.Script.{Script as AnyScript};
ghost use Rattle.centre_client.specs.Scripts.{IsScript};
ghost use Rattle.centre_client.specs.Checkbacks.{SaysChecked};
ghost use Rattle.centre_client.specs.Clients.{ClientHeard, ClientStep, client_behind, client_of};
ghost use Rattle.centre_client.specs.Scripted.{Scripted, IsPlayed, script_acts, scripted};
ghost use Rattle.centre_client.specs.Guards.{AwaitsWrite, IsCheckedBack};

/// A script that was read may be played, and whatever is heard, it may be played on.
pub fn scripts_may_be_played()
    ensures new { (rows : AnyRows) (script : AnyScript) → IsScript rows script
        → IsPlayed rows (at_call (scripted rows script)) }
    ensures begin { (rows : AnyRows) (p : AnyAsker Scripted) → IsPlayed rows p
        → IsPlayed rows (begun script_acts p).0 }
    ensures reply { (rows : AnyRows) (number : Option ℕ) (reply : AnyReply)
        (p : AnyAsker Scripted) → IsPlayed rows p
        → IsPlayed rows (reply_heeded script_acts number reply p).0 }
    ensures report { (rows : AnyRows) (report : AnyReport) (p : AnyAsker Scripted)
        → IsPlayed rows p → IsPlayed rows (report_heeded script_acts report p).0 }
    ensures concluded { (rows : AnyRows) (p : AnyAsker Scripted) → IsPlayed rows p
        → IsPlayed rows (concluded_for script_acts p.awaiting p).0 }
{}

/// What all octets that have come make of a client is what the messages that they tell make of it,
/// one after another: all of them, where they leave a rest; those before the rule that is broken,
/// behind which it is refused; or those behind which it has ended, whatever octets follow.
pub fn octets_make_a_client()
    ensures rest { (rows : AnyRows) (script : AnyScript) (octets rest : List ℕ)
        (told : List Arrival) (step : ClientStep) → ClientHeard rows script told step
        → Tells step.state.role octets told rest → client_behind rows script octets ≡ step }
    ensures broken { (rows : AnyRows) (script : AnyScript) (octets : List ℕ) (told : List Arrival)
        (step : ClientStep) (fault : StackFault) → ClientHeard rows script told step
        → step.state.end ≡ None → StopsTelling step.state.role octets told fault
        → client_behind rows script octets ≡ step_then step (broken_step fault) }
    ensures ended { (rows : AnyRows) (script : AnyScript) (octets : List ℕ) (told : List Arrival)
        (step : ClientStep) (end : AnyEnd AnyCheckback) (messages : List Message)
        → ClientHeard rows script told step → step.state.end ≡ Some end
        → StartsWith Calling octets messages → Tell step.state.role told messages
        → client_behind rows script octets ≡ step }
{}

/// The value of a device that isn't direct is written only when the reply to its select was heard,
/// whose one outcome is the table's checkback: so it is at each message, and so of all octets that
/// a client says, whatever octets have come.
pub fn writes_are_checked_back()
    ensures message { (input : AnyInput) (p : AnyAsker Scripted)
        → (input_heeded script_acts input p).1 ≡ Say
        → AwaitsWrite (input_heeded script_acts input p).0
        → IsCheckedBack input p (input_heeded script_acts input p).0 }
    ensures all { (rows : AnyRows) (script : AnyScript) (octets : List ℕ) → IsScript rows script
        → SaysChecked rows script octets (client_of rows script octets).said }
{}

/// The requests that are said have the numbers 1, 2, 3 and so on: until 2,147,483,647 none has one
/// that another had.
pub fn requests_are_numbered()
    ensures next { (input : AnyInput) (p : AnyAsker Scripted)
        → IsNumbered (input_heeded script_acts input p).1 p
        (input_heeded script_acts input p).0 }
    ensures rises { (number : ℕ) → number < LAST_INVOKE → request_behind number ≡ number + 1 }
{}
