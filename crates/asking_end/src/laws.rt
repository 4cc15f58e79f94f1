//! What holds of every agenda that is asked.
ghost use Rattle.std.specs.Prelude.{◌≡◌, ℕ, ◌+◌, ◌<◌, Option, Some, None, List};
ghost use Rattle.tpkt_cotp.specs.declared.turn.Role.TheVariants.{Calling};
ghost use Rattle.tpkt_cotp.specs.Streams.{Message};
ghost use Rattle.stack_assoc.specs.declared.messages.fault.StackFault.{StackFault};
ghost use Rattle.stack_assoc.specs.Arrivals.{Arrival};
ghost use Rattle.stack_assoc.specs.Fronts.{StartsWith};
ghost use Rattle.stack_assoc.specs.declared.input.StackIn.{StackIn as AnyInput};
ghost use Rattle.stack_assoc.specs.Tellings.{Tell, Tells, StopsTelling};
ghost use Rattle.asking_end.specs.declared.end.AskEnd.{AskEnd as AnyEnd};
ghost use Rattle.asking_end.specs.declared.limits.TheConstants.{LAST_INVOKE};
ghost use Rattle.asking_end.specs.Agendas.{AgendaActs};
ghost use Rattle.asking_end.specs.declared.asker.Asker.{Asker as AnyAsker};
ghost use Rattle.asking_end.specs.Asking.{request_behind, IsNumbered};
ghost use Rattle.asking_end.specs.Hearings.{input_heeded};
ghost use Rattle.asking_end.specs.Askers.{AskerStep, HasHeard, asker_behind, step_then};
ghost use Rattle.asking_end.specs.Askers.{asker_steps, asker_start, broken_step};
ghost use Rattle.asking_end.specs.Exchanges.{Admission, admitted, answers_heard, AsksSoOften};
ghost use Rattle.asking_end.specs.Exchanges.{FinishesBy};
ghost use Rattle.tase_views.specs.declared.reply.ReplyKind.{ReplyKind};

use tase_conn::map::replies_are_pdus;

/// What all octets that have come make of a calling end is what the messages that they tell make of
/// it, one after another: all of them, where they leave a rest; those before the rule that is
/// broken, behind which it is refused; or those behind which it has ended, whatever octets follow.
pub fn octets_make_an_asking_end<A, E, I>()
    ensures rest { (acts : AgendaActs A E I) (title : Option (List ℕ)) (agenda : A)
        (octets rest : List ℕ) (told : List Arrival) (step : AskerStep A E I)
        → HasHeard acts title agenda told step → Tells step.state.role octets told rest
        → asker_behind acts title agenda octets ≡ step }
    ensures broken { (acts : AgendaActs A E I) (title : Option (List ℕ)) (agenda : A)
        (octets : List ℕ) (told : List Arrival) (step : AskerStep A E I) (fault : StackFault)
        → HasHeard acts title agenda told step → step.state.end ≡ None
        → StopsTelling step.state.role octets told fault
        → asker_behind acts title agenda octets ≡ step_then step (broken_step fault) }
    ensures ended { (acts : AgendaActs A E I) (title : Option (List ℕ)) (agenda : A)
        (octets : List ℕ) (told : List Arrival) (step : AskerStep A E I) (end : AnyEnd E)
        (messages : List Message) → HasHeard acts title agenda told step
        → step.state.end ≡ Some end → StartsWith Calling octets messages
        → Tell step.state.role told messages → asker_behind acts title agenda octets ≡ step }
{}

/// The requests that are said have the numbers 1, 2, 3 and so on: until 2,147,483,647 none has one
/// that another had.
pub fn requests_are_numbered<A, E, I>()
    ensures next { (acts : AgendaActs A E I) (input : AnyInput) (p : AnyAsker A)
        → IsNumbered (input_heeded acts input p).1 p (input_heeded acts input p).0 }
    ensures rises { (number : ℕ) → number < LAST_INVOKE → request_behind number ≡ number + 1 }
{}

/// A peer that answers: where an agenda asks on by each of so many replies and concludes by the
/// next, a calling end that hears these, one to each of its requests, then the answers to its
/// conclude and to its finish, has finished. It has heard all of them, has said each request once
/// the one before was answered, and has shown what the agenda shows of the replies.
pub fn answered_agendas_finish<A, E, I>()
    ensures { (acts : AgendaActs A E I) (agenda : A) (replies : ℕ → ReplyKind)
        (title : Option (List ℕ)) (a : Admission) (count : ℕ)
        → AsksSoOften acts agenda replies count → FinishesBy acts agenda replies title a count
        (asker_steps acts (admitted a (answers_heard replies 0 count))
        (asker_start acts title agenda)) }
{
    replies_are_pdus();
}
