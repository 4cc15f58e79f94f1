use thiserror::Error;

/// Why a line of a script can't be taken.
#[derive(Clone, Copy, Debug, PartialEq, Eq, Error)]
pub enum ScriptWhy {
    /// The script doesn't begin with `use KEY`.
    #[error("the script doesn't begin with the key of a peer")]
    Start,
    /// The line is none of the forms of a step, or a number is out of the range of its form.
    #[error("it is none of the forms of a step")]
    Word,
    /// A key that is no peer's, or a name that is no device's of the peer's table.
    #[error("its name isn't there")]
    Unknown,
    /// A call that writes a device which is to be selected before it is operated.
    #[error("it operates a device without a selection")]
    Selectable,
    /// A call whose request is longer than the client offers.
    #[error("its request is too long")]
    Long,
}

/// The first line of a script that can't be taken. Lines count from 1; a script without a line that
/// says something has its fault at the line after its last one.
#[derive(Clone, Copy, Debug, PartialEq, Eq, Error)]
#[error("line {line}: {why}")]
pub struct ScriptFault {
    pub line: u64,
    pub why: ScriptWhy,
}
