//! That what is watched for a peer is what it does and sees, and that its answers come of nothing
//! else.
ghost use Rattle.std.specs.Prelude.{◌≡◌, ◌≢◌, ◌↔◌, ℕ, List, Option};
ghost use Rattle.std.specs.List.{All};
ghost use Rattle.tase_views.specs.Setup.{Setup};
ghost use Rattle.bilateral.specs.Rows.{CentreRows};
ghost use Rattle.tase_views.specs.History.{Past};
ghost use Rattle.tase_views.specs.OwnTables.{own_tables};
ghost use Rattle.tase_views.specs.View.{view_of};
ghost use Rattle.tase_audit.specs.Watching.{WatchItem, watch_of, view_of_items};
ghost use Rattle.tase_audit.specs.PeerAnswers.{PeerAnswer, answers_by, answers_in};
ghost use Rattle.tase_audit.specs.ItemTexts.{IsWatchItem, watch_texts};
ghost use Rattle.tase_audit.specs.Owns.{own_terms};
ghost use Rattle.tase_audit.specs.Audits.{PastRun, watched_lines, other_tables, apart_at};
ghost use Rattle.tase_audit.specs.Audits.{equal_runs, audit_between, audit_of};
ghost use Rattle.tase_audit.specs.Alike.{IsPastRun, AreAlike, setup_of, WereEqual, DifferAt};

/// What is watched for a peer is all that it does and sees, and nothing else: its view, in which
/// its own entries stand whole.
pub fn watches_show_views()
    ensures { (rows : CentreRows) (peer : ℕ) (past : Past)
        → view_of_items (watch_of rows peer past) ≡ view_of rows peer past }
{}

/// What a peer is answered in a history comes of its own tables and of what is watched for it, and
/// of nothing else.
pub fn answers_come_of_watches()
    ensures { (setup : Setup) (peer : ℕ) (past : Past)
        → answers_in setup peer past
        ≡ answers_by (own_tables setup.centre peer) (watch_of setup.centre peer past) }
{}

/// Texts of lawful items tell all of them: lists with equal texts, under the key of one peer, are
/// equal, so that who compares the texts compares the items. All that is watched of a lawful run is
/// lawful.
pub fn items_have_one_text()
    ensures one { (key : List ℕ) (one other : List WatchItem) → All IsWatchItem one
        → All IsWatchItem other → watch_texts key one ≡ watch_texts key other → one ≡ other }
    ensures lawful { (run : PastRun) (peer : ℕ) → IsPastRun run
        → All IsWatchItem (watch_of run.centre peer run.past) }
{}

/// Where the tables of two centres say the same of a peer, and the same is watched for it in two
/// runs of theirs, it sees the same in both and is answered the same.
pub fn equal_runs_are_answered_alike()
    ensures views { (one other : PastRun) (peer place : ℕ) → AreAlike one other peer place
        → view_of one.centre peer one.past ≡ view_of other.centre place other.past }
    ensures answers { (one other : PastRun) (peer place limit most : ℕ)
        → AreAlike one other peer place
        → answers_in (setup_of one limit) peer one.past
        ≡ answers_in (setup_of other most) place other.past }
{}

/// The verdict on two runs is that they were equal exactly where they were so for the peer, and it
/// has what the peer was answered in both; that the tables differ exactly where they say something
/// else of the peer; and a place where what is watched for it differs for the first time.
pub fn audits_tell_the_first_difference()
    ensures equal { (one other : PastRun) (key : List ℕ) (answers : List PeerAnswer)
        → IsPastRun one → IsPastRun other
        → (audit_of one other key ≡ equal_runs answers) ↔ WereEqual one other key answers }
    ensures tables { (one other : PastRun) (peer place : ℕ) (key : List ℕ)
        → (audit_between one other peer place key ≡ other_tables)
        ↔ (own_terms one.centre peer ≢ own_terms other.centre place) }
    ensures apart { (one other : PastRun) (peer place : ℕ) (key : List ℕ) (n : ℕ)
        (a b : Option (List ℕ)) → audit_between one other peer place key ≡ apart_at n a b
        → (own_terms one.centre peer ≡ own_terms other.centre place)
        × DifferAt (watched_lines one peer key) (watched_lines other place key) n a b }
{}
