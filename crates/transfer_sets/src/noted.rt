use tase_points::PointValue;

/// A member of the data set, as its point stood just after a change.
#[derive(Clone, Copy, Debug, PartialEq, Eq)]
pub struct Noted {
    /// The place of the member in the data set, from 0.
    pub member: u32,
    pub value: PointValue,
    /// The point's count of changes, as it is shown.
    pub cov: u16,
}
