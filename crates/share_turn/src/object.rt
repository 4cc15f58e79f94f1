ghost use Rattle.std.specs.Prelude.{◌≡◌, ℕ, List, ◌∷◌, [], ◌++◌, IfOk, IfErr, Result};

use std::alloc::Global;

/// An object whose steps may be shared by threads.
pub trait Object {
    /// What is fixed when the object is made.
    type Setup;
    /// What a step is asked.
    type Event;
    /// What a step answers.
    type Answer;
    /// Why a step refuses.
    type Fault;

    /// The setup, which no step changes.
    ghost setup: { Self → Self.Setup };

    /// The events that were answered, in order, each with who asked.
    ghost history: { Self → List (ℕ × Self.Event) };

    /// Of a setup, the history before, who asks, the event and the outcome: the outcome is right.
    ghost right: { Self.Setup → List (ℕ × Self.Event) → ℕ → Self.Event
        → Result Self.Answer Self.Fault → Type 0 };

    /// Answers the event and adds it to the history, or refuses it and adds nothing.
    fn step(
        &mut self,
        alloc: Global,
        who: u64,
        event: Self::Event,
    ) -> Result<Self::Answer, Self::Fault>
        ensures right { right (setup self.old) (history self.old) who event result }
        ensures setup { setup self.new ≡ setup self.old }
        ensures added { IfOk result (λ _.
            history self.new ≡ history self.old ++ (who, event) ∷ []) }
        ensures refused { IfErr result (λ _. history self.new ≡ history self.old) };
}
