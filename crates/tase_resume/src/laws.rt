//! That a node which takes a snapshot goes on where the other one left off.
ghost use Rattle.std.specs.Prelude.{◌≡◌, ◌≢◌, ◌↔◌, ◌≤◌, ◌^◌, ℕ, List, ◌++◌, is_some, All, Ok};
ghost use Rattle.bilateral.specs.Rows.{CentreRows, IsCentre};
ghost use Rattle.tase_views.specs.declared.event.EventKind.{EventKind as AnyEvent};
ghost use Rattle.tase_views.specs.declared.event.Entry.{Entry as AnyEntry};
ghost use Rattle.tase_views.specs.Setup.{Setup};
ghost use Rattle.tase_views.specs.Moves.{sort_of, taking_orders};
ghost use Rattle.tase_views.specs.History.{Past};
ghost use Rattle.tase_views.specs.Outcomes.{own_refusal, clock_refusal, stop_refusal};
ghost use Rattle.tase_views.specs.Weights.{weight_of};
ghost use Rattle.texts.specs.Journal.Entries.{IsEntry};
ghost use Rattle.texts.specs.Journal.Journals.{journal_text};
ghost use Rattle.tase_views.specs.Lived.{IsLived};
ghost use Rattle.tase_resume.specs.Bases.{settled_past};
ghost use Rattle.tase_resume.specs.Warming.{warm_entries, warm_past};
ghost use Rattle.tase_resume.specs.Snapshots.{IsSnapshot, snapshot_in};
ghost use Rattle.tase_resume.specs.Recounted.{gap_of, more_opens, IsAnsweredAlike};

/// A snapshot resumes its history. Behind the base of a history that a node takes and behind its
/// snapshot each event of the same further entries is refused alike, and each but a taking of
/// orders is answered alike: associations have higher ordinals behind the base, by one number for
/// each peer, and points more changes, by one number for each point. Both have one snapshot then,
/// so that a run may be cut as often as one likes. A snapshot that isn't too heavy is one by its
/// definition, and whatever is one is read back from its text.
pub fn a_snapshot_resumes_its_history()
    ensures alike { (setup : Setup) (past later : Past) (who : ℕ) (event : AnyEvent)
        → IsCentre setup.centre → IsLived setup.centre past
        → IsLived setup.centre (later ++ warm_past setup.centre past)
        → sort_of event ≢ taking_orders
        → IsAnsweredAlike setup (gap_of setup.centre past) (more_opens setup.centre past)
        (later ++ settled_past past) (later ++ warm_past setup.centre past) who event }
    ensures refused { (rows : CentreRows) (past later : Past) (who : ℕ) (event : AnyEvent)
        → IsCentre rows → IsLived rows past
        → (own_refusal rows (later ++ settled_past past) who event
        ≡ own_refusal rows (later ++ warm_past rows past) who event)
        × (clock_refusal (later ++ settled_past past) event
        ≡ clock_refusal (later ++ warm_past rows past) event)
        × (is_some (stop_refusal (later ++ settled_past past) event)
        ≡ is_some (stop_refusal (later ++ warm_past rows past) event)) }
    ensures lived { (rows : CentreRows) (past later : Past) → IsCentre rows → IsLived rows past
        → (IsLived rows (later ++ settled_past past)
        ↔ IsLived rows (later ++ warm_past rows past)) }
    ensures chain { (rows : CentreRows) (past later : Past) → IsCentre rows → IsLived rows past
        → IsLived rows (later ++ warm_past rows past)
        → warm_entries rows (later ++ settled_past past)
        ≡ warm_entries rows (later ++ warm_past rows past) }
    ensures again { (rows : CentreRows) (past : Past) → IsCentre rows → IsLived rows past
        → warm_entries rows (warm_past rows past) ≡ warm_entries rows past }
    ensures sound { (rows : CentreRows) (past : Past) → IsCentre rows → IsLived rows past
        → weight_of (warm_past rows past) ≤ 2 ^ 31 → IsSnapshot rows (warm_entries rows past) }
    ensures read_back { (rows : CentreRows) (entries : List AnyEntry) → IsSnapshot rows entries
        → All IsEntry entries → snapshot_in rows (journal_text entries) ≡ Ok entries }
{}
