ghost use Rattle.std.specs.Prelude.{◌≡◌, ◌≢◌, ◌⊎◌, ◌↔◌, ℕ, List, [], Some, Ok, Err, All};
ghost use Rattle.std.specs.Prelude.{AllPairs, IsTrue};
ghost use Rattle.bilateral.specs.declared.fault.TableFault.{TableFault as Fault};
ghost use Rattle.bilateral.specs.Words.Words.{is_name};
ghost use Rattle.bilateral.specs.Rows.{CentreRows, IsCentre, variant_of};
ghost use Rattle.bilateral.specs.RowNames.{row_names, vmd_row_names, domain_row_names};
ghost use Rattle.bilateral.specs.Reading.{centre_in};
ghost use Rattle.bilateral.specs.declared.line.TableLine.{TableLine};
ghost use Rattle.bilateral.specs.Lines.{line_in};
ghost use Rattle.bilateral.specs.Spelling.{Spells, HasFault, AllStand, told};
ghost use Rattle.bilateral.specs.Writing.{IsWritableLine, AreWritable, line_text, lines_text};
ghost use Rattle.bilateral.specs.Writing.{tables_text};

/// The law of one reading: a text spells exactly one centre, or has exactly one first bad line.
pub fn one_reading()
    ensures either { (text : List ℕ)
        → ((rows : CentreRows) × Spells text rows) ⊎ ((fault : Fault) × HasFault text fault) }
    ensures not_both { (text : List ℕ) (rows : CentreRows) (fault : Fault) → Spells text rows
        → HasFault text fault → ⊥ }
    ensures one_centre { (text : List ℕ) (a b : CentreRows) → Spells text a → Spells text b
        → a ≡ b }
    ensures one_fault { (text : List ℕ) (a b : Fault) → HasFault text a → HasFault text b → a ≡ b }
    ensures reader_finds_centres { (text : List ℕ) (rows : CentreRows)
        → (centre_in text ≡ Ok rows) ↔ Spells text rows }
    ensures reader_finds_faults { (text : List ℕ) (fault : Fault)
        → (centre_in text ≡ Err fault) ↔ HasFault text fault }
{}

/// The law of lawful tables: whatever a text is, the centre that it spells, and so the one that is
/// read of it, is lawful.
pub fn read_tables_are_lawful()
    ensures read { (text : List ℕ) (rows : CentreRows) → centre_in text ≡ Ok rows
        → IsCentre rows }
    ensures spelled { (text : List ℕ) (rows : CentreRows) → Spells text rows → IsCentre rows }
{}

/// The law of names: in each table of a centre a name is that of one row alone, whatever its scope.
/// So in the whole device, and in the table's domain, no name stands twice. Each is a lawful name,
/// none that the protocol uses itself, and none with an ending of a device's further variables.
pub fn names_stand_once()
    ensures all { (rows : CentreRows) (peer variant : ℕ) → IsCentre rows
        → AllPairs (λ a b. a ≢ b) (row_names rows (variant_of rows peer variant)) }
    ensures vmd { (rows : CentreRows) (peer variant : ℕ) → IsCentre rows
        → AllPairs (λ a b. a ≢ b) (vmd_row_names rows (variant_of rows peer variant)) }
    ensures domain { (rows : CentreRows) (peer variant : ℕ) → IsCentre rows
        → AllPairs (λ a b. a ≢ b) (domain_row_names rows (variant_of rows peer variant)) }
    ensures lawful { (rows : CentreRows) (peer variant : ℕ) → IsCentre rows
        → All (λ name. IsTrue (is_name name)) (row_names rows (variant_of rows peer variant)) }
{}

/// The law of written lines: lines that can be written and may stand where they do, each written
/// with its end, are the text of the centre that they say. The written form of every lawful centre,
/// which has its points first, then its devices and then its tables, spells this centre.
pub fn written_tables_are_read()
    ensures line { (line : TableLine) → IsWritableLine line
        → line_in (line_text line) ≡ Some line }
    ensures text { (said : List TableLine) → AreWritable said → AllStand [] said
        → Spells (lines_text said) (told said).rows }
    ensures centre { (rows : CentreRows) → IsCentre rows → Spells (tables_text rows) rows }
{}
