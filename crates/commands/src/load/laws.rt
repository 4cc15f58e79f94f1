//! Laws of the texts of the load run.
ghost use Rattle.std.specs.Prelude.{◌≡◌, Ok};
ghost use Rattle.bilateral.specs.Rows.{IsCentre};
ghost use Rattle.commands.specs.Files.Tables.{tables_in};
ghost use Rattle.commands.specs.Load.Generated.{load_tables};
ghost use Rattle.commands.specs.Load.Rows.{load_rows};

/// The law of the load run's tables: their text has no bad line, the rows that it spells are these,
/// and they are lawful.
pub fn load_tables_are_read()
    ensures read { tables_in load_tables ≡ Ok load_rows }
    ensures lawful { IsCentre load_rows }
{}
