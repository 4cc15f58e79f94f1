//! What holds of all texts.
ghost use Rattle.std.specs.Prelude.{◌≡◌, ◌↔◌, ◌<◌, ◌^◌, ℕ, List, Some, IsTrue, decimal};
ghost use Rattle.std.specs.List.{list_all};
ghost use Rattle.plain_text.specs.Numbers.{number_in};
ghost use Rattle.plain_text.specs.Escaped.{is_octet, escaped_text, unescaped};

/// A word is a number, as the readers have it, exactly where it is that number's decimal digits as
/// the writers append them.
pub fn number_is_its_digits()
    ensures { (word : List ℕ) (n : ℕ) → n < 2 ^ 64
        → (number_in word ≡ Some n) ↔ (word ≡ decimal n) }
{}

/// What octets are spelled as is read as these octets, and what is read was spelled so.
pub fn escaped_is_read_back()
    ensures found { (text octets : List ℕ)
        → unescaped text ≡ Some octets → text ≡ escaped_text octets }
    ensures only { (octets : List ℕ) → IsTrue (list_all is_octet octets)
        → unescaped (escaped_text octets) ≡ Some octets }
{}
