/// What a device takes (IEC 60870-6-802, control points).
#[derive(Clone, Copy, Debug, PartialEq, Eq)]
pub enum CommandKind {
    /// A command: 0 or 1.
    Command,
    /// A setpoint: each value from the lowest to the highest.
    Setpoint { low: i16, high: i16 },
}
