//! The next moments at which the conditions of a transfer set are due, in milliseconds since 1970.
ghost use Rattle.std.specs.Prelude.{◌≡◌, ◌<◌};
ghost use Rattle.transfer_sets.specs.Due.{PassesMultiple, HasWaited, milliseconds};
ghost use Rattle.transfer_sets.specs.NextDue.{IsFirstMoment, earlier, below_limit};

/// Every moment at which something is due is below this one, in milliseconds since 1970.
pub const DUE_LIMIT: u64 = 2_147_483_648_000;

// Definitions cite this limit, so that it stands here as a number too.
const _: () = prove!(DUE_LIMIT == 2_147_483_648_000);

/// The earlier of two moments, or the one that there is.
pub(crate) fn earlier(one: Option<u64>, other: Option<u64>) -> Option<u64>
    ensures { result ≡ earlier one other }
{
    match (one, other) {
        (None, other) => other,
        (one, None) => one,
        (Some(one), Some(other)) => Some(if one <= other { one } else { other }),
    }
}

/// A moment, where it is below the limit.
pub(crate) fn below_limit(to: u64) -> Option<u64>
    ensures { result ≡ below_limit to }
{
    if to < DUE_LIMIT { Some(to) } else { None }
}

/// The first moment after another at which a whole multiple of this many seconds after the base,
/// one at the least, is passed.
pub(crate) fn next_multiple(base: u64, seconds: u32, from: u64) -> Option<u64>
    requires { from < DUE_LIMIT }
    ensures { IsFirstMoment (PassesMultiple base (milliseconds seconds) from) from result }
{
    if base >= DUE_LIMIT {
        return None;
    }
    if seconds == 0 {
        return if from < base { Some(base) } else { None };
    }
    let period = u64::from(seconds) * 1000;
    let multiples = from.saturating_sub(base) / period;
    below_limit(base + multiples * period + period)
}

/// The first moment after another at which a first change has waited for this many seconds.
pub(crate) fn next_waited(first: Option<u64>, seconds: u32, from: u64) -> Option<u64>
    requires { from < DUE_LIMIT }
    ensures { IsFirstMoment (HasWaited first (milliseconds seconds)) from result }
{
    let Some(first) = first else {
        return None;
    };
    if first >= DUE_LIMIT {
        return None;
    }
    let waited = first + u64::from(seconds) * 1000;
    if from < waited {
        return below_limit(waited);
    }
    below_limit(from + 1)
}
