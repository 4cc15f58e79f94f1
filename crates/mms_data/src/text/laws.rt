//! What holds of all texts of data.
ghost use Rattle.std.specs.Prelude.{ℕ, List};
ghost use Rattle.mms_data.specs.Text.TextRead.{HasOneTextReading};

/// A text spells exactly one value and breaks nowhere, or it spells none and breaks at exactly one
/// place.
pub fn data_texts_have_one_reading()
    ensures { (text : List ℕ) → HasOneTextReading text }
{}
