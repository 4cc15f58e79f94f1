//! What holds of all octets and types.
ghost use Rattle.std.specs.Prelude.{ℕ, ◌≡◌, ◌+◌, ◌<◌, ◌^◌, ◌++◌, List, length};
ghost use Rattle.ber_values.specs.Reading.{Taken, HasOneReading};
ghost use Rattle.ber_values.specs.Grammars.{taken};
ghost use Rattle.mms_data.specs.Types.TypeShape.{TypeShape, IsTypeShape};
ghost use Rattle.mms_data.specs.Types.ShapeOctets.{one_shape};
ghost use Rattle.mms_data.specs.Types.ShapeWritten.{shape_octets};
ghost use Rattle.mms_data.specs.Types.ShapeTexts.{shape_text};

/// Octets have one reading as a type: exactly one holds, they begin with exactly one type, or they
/// have exactly one first fault. What they begin with is a lawful type.
pub fn shapes_have_one_reading()
    ensures one { (at : ℕ) (octets : List ℕ) → HasOneReading (Taken TypeShape)
        (one_shape.begins at octets) (one_shape.fault at octets) }
    ensures lawful { (at : ℕ) (octets : List ℕ) (t : Taken TypeShape)
        → one_shape.begins at octets t → IsTypeShape t.value }
{}

/// What is written for a type is read back as the same type, whatever follows it.
pub fn written_shapes_are_read()
    ensures { (s : TypeShape) → IsTypeShape s → length (shape_octets s) < 2 ^ 32
        → (at : ℕ) (rest : List ℕ) → one_shape.begins at (shape_octets s ++ rest)
        (taken s (at + length (shape_octets s)) rest) }
{}

/// Two types with one text are one type.
pub fn shapes_have_texts()
    ensures { (s t : TypeShape) → IsTypeShape s → IsTypeShape t → shape_text s ≡ shape_text t
        → s ≡ t }
{}
