//! The law of the load run.
ghost use Rattle.std.specs.Prelude.{◌≡◌, ℕ, ◌≤◌};
ghost use Rattle.commands.specs.declared.io.status.Status.TheVariants.{Done};
ghost use Rattle.commands.specs.declared.load.scenario.TheConstants.{MOST_ROUNDS};
ghost use Rattle.commands.specs.Load.Generated.{load_scenario};
ghost use Rattle.commands.specs.Load.Rows.{load_rows};
ghost use Rattle.commands.specs.Words.Words.{limit_of, no_options};
ghost use Rattle.tase_replay.specs.Play.{scenario_of, done};
ghost use Rattle.tase_tool.specs.Saying.{setup_of, load_said};

/// The law of loads: the scenario of a load, with any number of rounds that one may have, is played
/// over the rows of its tables to its end. So it has no bad line, none of its events is refused,
/// and its history never weighs more than it may; what is said of it is what is counted of it.
pub fn loads_are_done()
    ensures scenario { (rounds : ℕ) → rounds ≤ MOST_ROUNDS
        → (scenario_of (setup_of load_rows (limit_of no_options)) (load_scenario rounds)).end
        ≡ done }
    ensures said { (rounds : ℕ) → rounds ≤ MOST_ROUNDS → (load_said rounds).status ≡ Done }
{}
