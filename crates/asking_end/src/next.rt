//! What an agenda wants next.

/// What an agenda wants next.
#[derive(Clone, Copy, Debug, PartialEq, Eq)]
pub enum Next<E> {
    /// Nothing is asked: reports are awaited.
    Wait,
    /// Its call is asked.
    Ask,
    /// The association is concluded.
    Conclude,
    /// The association is left, and has ended so.
    End(E),
}
