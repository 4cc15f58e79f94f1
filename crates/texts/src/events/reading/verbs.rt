//! The first word of a call.
ghost use Rattle.std.specs.Prelude.{◌≡◌};
ghost use Rattle.texts.specs.Events.Verbs.{verb_in, set_verb_in};

/// The first word of a call.
#[derive(Clone, Copy)]
pub(crate) enum Verb {
    Identify,
    Read,
    /// A read whose reply is to repeat the names.
    ReadEcho,
    /// A read of a data set.
    ReadSet,
    /// A read of a data set whose reply is to repeat its name.
    ReadSetEcho,
    Write,
    WriteSet,
    NameList,
    TypeOf,
    Define,
    MembersOf,
    Delete,
    DeleteScope,
    Odd,
}

/// The verb that a word is.
pub(crate) fn find_verb(word: &[u8]) -> Option<Verb>
    ensures { result ≡ verb_in word.now }
{
    if word == b"identify".as_slice() {
        Some(Verb::Identify)
    } else if word == b"read".as_slice() {
        Some(Verb::Read)
    } else if word == b"read+".as_slice() {
        Some(Verb::ReadEcho)
    } else if word == b"write".as_slice() {
        Some(Verb::Write)
    } else if word == b"names".as_slice() {
        Some(Verb::NameList)
    } else if word == b"odd".as_slice() {
        Some(Verb::Odd)
    } else if word == b"type".as_slice() {
        Some(Verb::TypeOf)
    } else {
        find_set_verb(word)
    }
}

/// The verb of data sets that a word is.
fn find_set_verb(word: &[u8]) -> Option<Verb>
    ensures { result ≡ set_verb_in word.now }
{
    if word == b"readset".as_slice() {
        Some(Verb::ReadSet)
    } else if word == b"readset+".as_slice() {
        Some(Verb::ReadSetEcho)
    } else if word == b"writeset".as_slice() {
        Some(Verb::WriteSet)
    } else if word == b"define".as_slice() {
        Some(Verb::Define)
    } else if word == b"members".as_slice() {
        Some(Verb::MembersOf)
    } else if word == b"delete".as_slice() {
        Some(Verb::Delete)
    } else if word == b"deletescope".as_slice() {
        Some(Verb::DeleteScope)
    } else {
        None
    }
}
