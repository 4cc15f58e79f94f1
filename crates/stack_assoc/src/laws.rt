//! What holds of all streams.
ghost use Rattle.std.specs.Prelude.{◌≡◌, ℕ, List, ◌++◌, ◌⊎◌};
ghost use Rattle.stack_assoc.specs.declared.messages.fault.StackFault.{StackFault};
ghost use Rattle.stack_assoc.specs.Arrivals.{Arrival, Role};
ghost use Rattle.stack_assoc.specs.Tellings.{Tells, StopsTelling};
ghost use Rattle.mms_services.specs.declared.pdu.MmsPdu.{MmsPdu};
ghost use Rattle.stack_assoc.specs.declared.input.StackState.TheVariants as states;
ghost use Rattle.stack_assoc.specs.declared.end_state.EndState.{EndState};
ghost use Rattle.stack_assoc.specs.Courses.{Course, CourseStands, HasToldAll, stack_state_of};
ghost use Rattle.stack_assoc.specs.Saying.{with_standing, with_said, role_said};

use crate::messages::messages_have_one_reading;

/// Octets tell messages and a rest, or stop at a fault: one of the two, and in one way.
pub fn one_reading()
    ensures always { (role : Role) (octets : List ℕ)
        → ((told : List Arrival) × (rest : List ℕ) × Tells role octets told rest)
        ⊎ ((told : List Arrival) × (fault : StackFault) × StopsTelling role octets told fault) }
    ensures tells { (role : Role) (octets : List ℕ) (told others : List Arrival)
        (rest other : List ℕ) → Tells role octets told rest → Tells role octets others other
        → (told ≡ others) × (rest ≡ other) }
    ensures stops { (role : Role) (octets : List ℕ) (told others : List Arrival) (f g : StackFault)
        → StopsTelling role octets told f → StopsTelling role octets others g → (told ≡ others)
        × (f ≡ g) }
    ensures never_both { (role : Role) (octets : List ℕ) (told others : List Arrival)
        (rest : List ℕ) (f : StackFault) → Tells role octets told rest
        → StopsTelling role octets others f
        → ⊥ }
{
    messages_have_one_reading();
}

/// What was told stays told, and a fault stays, whatever follows.
pub fn what_was_told_stays()
    ensures told { (role : Role) (octets more : List ℕ) (told later : List Arrival)
        (rest left : List ℕ) → Tells role octets told rest
        → Tells role (octets ++ more) later left
        → (others : List Arrival) × (later ≡ told ++ others) }
    ensures stopped { (role : Role) (octets more : List ℕ) (told later : List Arrival)
        (rest : List ℕ) (f : StackFault) → Tells role octets told rest
        → StopsTelling role (octets ++ more) later f → (others : List Arrival)
        × (later ≡ told ++ others) }
    ensures broken { (role : Role) (octets more : List ℕ) (told : List Arrival) (f : StackFault)
        → StopsTelling role octets told f → StopsTelling role (octets ++ more) told f }
{
    messages_have_one_reading();
}

/// Whatever an end says, it stands where it stood in its stream; once the calling end has said
/// conclude, its response is awaited.
pub fn saying_takes_nothing()
    ensures standing { (role : Role) (octets : List ℕ) (told : List Arrival) (v : Course)
        (standing : EndState) → CourseStands role octets told v
        → CourseStands role octets told (with_standing standing v) }
    ensures said { (role : Role) (octets : List ℕ) (told : List Arrival) (v : Course) (pdu : MmsPdu)
        → stack_state_of v ≡ states.Accepted → CourseStands role octets told v
        → CourseStands (role_said role told pdu) octets told (with_said pdu v) }
{}

/// It doesn't matter where a stream is cut: ends that were fed the same octets, in whatever pieces,
/// and have told all of them, have told the same messages, and met the same fault or none.
pub fn cuts_change_nothing()
    ensures { (role : Role) (octets : List ℕ) (told others : List Arrival) (one other : Course)
        → HasToldAll role octets told one → HasToldAll role octets others other
        → (told ≡ others) × (one.fault ≡ other.fault) }
{
    messages_have_one_reading();
}
