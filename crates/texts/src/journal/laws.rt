//! What holds of all entries and of all texts of them.
ghost use Rattle.std.specs.Prelude.{◌≡◌, ◌↔◌, ℕ, List, map, Some};
ghost use Rattle.std.specs.Str.Lines.{lines};
ghost use Rattle.plain_text.specs.Words.{each_in};
ghost use Rattle.std.specs.List.{All};
ghost use Rattle.tase_views.specs.declared.call.CallKind.{CallKind as AnyCall};
ghost use Rattle.tase_views.specs.declared.event.Entry.{Entry as AnyEntry};
ghost use Rattle.texts.specs.Events.CallWords.{SpellsCall};
ghost use Rattle.texts.specs.Journal.CallIn.{call_in};
ghost use Rattle.texts.specs.Journal.Journals.{entry_text, journal_text};
ghost use Rattle.texts.specs.Journal.Entries.{entry_in, IsEntry};

/// The call that words are is the one that they spell.
pub fn calls_are_their_words()
    ensures { (words : List (List ℕ)) (call : AnyCall)
        → (call_in words ≡ Some call) ↔ SpellsCall words call }
{}

/// A line is an entry exactly where it is that entry's text.
pub fn entries_are_their_text()
    ensures { (line : List ℕ) (entry : AnyEntry)
        → (entry_in line ≡ Some entry) ↔ ((line ≡ entry_text entry) × IsEntry entry) }
{}

/// A journal has a line for each entry of its history, so it is read back as this history, and is
/// that of no other.
pub fn journals_are_their_entries()
    ensures lines { (entries : List AnyEntry) → All IsEntry entries
        → lines (journal_text entries) ≡ map entry_text entries }
    ensures read { (entries : List AnyEntry) → All IsEntry entries
        → each_in entry_in (lines (journal_text entries)) ≡ Some entries }
    ensures one { (a b : List AnyEntry) → All IsEntry a → All IsEntry b
        → journal_text a ≡ journal_text b → a ≡ b }
{}
