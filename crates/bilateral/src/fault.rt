use thiserror::Error;

/// Why a line of a table text can't be taken. Of several reasons of one line the first in the order
/// `Word`, `Place`, `Unknown`, `Again`, `Limit` counts.
#[derive(Clone, Copy, Debug, PartialEq, Eq, Error)]
pub enum TableWhy {
    /// The line is none of the forms, or a number is out of the range of its form.
    #[error("it is none of the forms of a table text")]
    Word,
    /// A name, key, title, row, component or limit that is there already.
    #[error("what it says is there already")]
    Again,
    /// A name that isn't there.
    #[error("its name isn't there")]
    Unknown,
    /// One row too many, or a number past its limit.
    #[error("it passes a limit")]
    Limit,
    /// A line where it may not stand.
    #[error("it may not stand here")]
    Place,
}

/// The first line of a table text that can't be taken. Lines count from 1.
#[derive(Clone, Copy, Debug, PartialEq, Eq, Error)]
#[error("line {line}: {why}")]
pub struct TableFault {
    pub line: u64,
    pub why: TableWhy,
}
