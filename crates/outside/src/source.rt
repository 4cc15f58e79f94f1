//! A source of octets.
ghost use Rattle.std.specs.Prelude.{◌≡◌, ℕ, ◌<◌, length};
ghost use Rattle.outside.specs.Source.{SourceTold, ReadsSource};

/// How a read ended.
#[derive(Clone, Copy, Debug, PartialEq, Eq)]
pub enum ReadEnd {
    /// So many octets, at the front of the buffer.
    Got(usize),
    /// Nothing is left.
    End,
    /// A fault, which was counted. Nothing was taken.
    Failed,
}

/// Octets that come from outside, such as a file or standard input. After the end and after a fault
/// no read should come.
pub trait Source {
    /// What it tells of its octets, its calls and its faults.
    ghost told: { Self → SourceTold };

    /// Reads at least one octet and at most as many as fit, or says that none are left.
    fn read(&mut self, buf: &mut [u8]) -> ReadEnd
        requires { 0 < length buf.old }
        ensures { ReadsSource (told self.old) (told self.new) result buf.new };

    /// The number of faults so far. It stands still at the type's end.
    fn faults(&self) -> u64
        ensures { result ≡ (told self.now).faults };
}
