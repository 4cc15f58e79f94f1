//! What holds of all texts of calls, and of all values in a feed.
ghost use Rattle.std.specs.Prelude.{◌≡◌, ◌↔◌, ℕ, List, Some, drop};
ghost use Rattle.plain_text.specs.Words.{words};
ghost use Rattle.tase_points.specs.Sample.{Sample};
ghost use Rattle.tase_views.specs.declared.call.CallKind.{CallKind as AnyCall};
ghost use Rattle.tase_views.specs.Calls.{IsCall};
ghost use Rattle.tase_views.specs.EventTexts.{call_text};
ghost use Rattle.texts.specs.Events.CallWords.{HasWords, SpellsCall, AreCallWords};
ghost use Rattle.texts.specs.Events.Breaks.{Breaks};
ghost use Rattle.texts.specs.Events.CallTexts.{IsCallText, CallBreaksAt};
ghost use Rattle.texts.specs.Events.FeedLines.{sample_in, AreValueWords};
ghost use Rattle.texts.specs.Events.WordPlaces.{word_place};

/// The text that is written of a call spells that call, so it is read back, and a text spells one
/// call at most or breaks at one place at most.
pub fn written_calls_are_read()
    ensures read { (call : AnyCall) → IsCall call → HasWords call
        → IsCallText (call_text call) call }
    ensures one { (text : List ℕ) (a b : AnyCall)
        → IsCallText text a → IsCallText text b → a ≡ b }
    ensures place { (text : List ℕ) (a b : ℕ)
        → CallBreaksAt text a → CallBreaksAt text b → a ≡ b }
    ensures either { (text : List ℕ) (call : AnyCall) (place : ℕ)
        → IsCallText text call → CallBreaksAt text place → ⊥ }
{}

/// Words spell one call at most, and break behind one number of them at most.
pub fn call_words_have_one_reading()
    ensures one { (words : List (List ℕ)) (a b : AnyCall)
        → SpellsCall words a → SpellsCall words b → a ≡ b }
    ensures count { (words : List (List ℕ)) (a b : ℕ)
        → Breaks AreCallWords words a → Breaks AreCallWords words b → a ≡ b }
{}

/// The words of a value in a feed are read as this value exactly where they are its text's.
pub fn values_are_their_words()
    ensures { (body flags seconds millis : List ℕ) (value : Sample)
        → (sample_in body flags seconds millis ≡ Some value)
        ↔ AreValueWords body flags seconds millis value }
{}

/// From the place of a word on a text has this word and those behind it.
pub fn places_are_of_words()
    ensures { (text : List ℕ) (n : ℕ)
        → words (drop (word_place text n) text) ≡ drop n (words text) }
{}
