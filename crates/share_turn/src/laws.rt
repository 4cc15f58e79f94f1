//! What holds of the entries of every history.
ghost use Rattle.std.specs.Prelude.{◌≡◌, ◌≢◌, ◌↔◌, ◌++◌, ℕ, List, filter_map, reverse};
ghost use Rattle.share_turn.specs.Entries.{Each, own, event_under, Keeps};

/// All that comes behind what a seat has seen, and keeps the events under its number, is of other
/// seats; and nothing else keeps them. The events under a number are those of the entries that have
/// it, in the order of the history, whichever way that is read.
pub fn others_come_behind<E>()
    ensures others { (n : ℕ) (front rest : List (ℕ × E))
        → Keeps (front ++ rest) (n, front) ↔ Each (λ e. e.0 ≢ n) rest }
    ensures backwards { (n : ℕ) (rest : List (ℕ × E))
        → Each (λ e. e.0 ≢ n) rest → Each (λ e. e.0 ≢ n) (reverse rest) }
    ensures events { (n : ℕ) (log : List (ℕ × E))
        → own n log ≡ filter_map (event_under n) log }
    ensures newest { (n : ℕ) (log : List (ℕ × E))
        → filter_map (event_under n) (reverse log) ≡ reverse (own n log) }
{}
