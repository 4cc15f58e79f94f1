//! Laws of scenarios: which calls are read, and which lines are taken.
ghost use Rattle.std.specs.Prelude.{◌≡◌, ◌↔◌, ℕ, false, List, ◌++◌, map, Some};
ghost use Rattle.tase_views.specs.declared.call.CallKind.{CallKind as AnyCall};
ghost use Rattle.tase_views.specs.Setup.{Setup};
ghost use Rattle.texts.specs.Events.CallWords.{SpellsCall};
ghost use Rattle.conn_service.specs.TaseConn.Map.Asked.{is_odd};
ghost use Rattle.tase_replay.specs.CallIn.{call_of_words};
ghost use Rattle.tase_replay.specs.Play.{Played, done, played_of};

/// The call of a `say` line is the one that its words spell; only an odd one isn't taken.
pub fn calls_are_spelled()
    ensures { (words : List (List ℕ)) (call : AnyCall)
        → (call_of_words words ≡ Some call) ↔ (SpellsCall words call × (is_odd call ≡ false)) }
{}

/// The lines that are taken are the first of a scenario; all of them are where it ends as done.
pub fn lines_are_taken_in_order()
    ensures first { (setup : Setup) (scenario : List (List ℕ))
        → let all : Played = played_of setup scenario in
        (rest : List (List ℕ)) × (map (λ taken. taken.line) all.taken ++ rest ≡ scenario) }
    ensures whole { (setup : Setup) (scenario : List (List ℕ))
        → let all : Played = played_of setup scenario in
        all.end ≡ done → map (λ taken. taken.line) all.taken ≡ scenario }
{}
