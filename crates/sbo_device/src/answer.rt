/// How a select is answered.
#[derive(Clone, Copy, Debug, PartialEq, Eq)]
pub enum Select {
    /// The association holds the device from now on.
    Granted,
    /// The tag inhibits every operate, so that none is prepared.
    Inhibited,
    /// Another association holds the device.
    HeldByOther,
}

/// How an operate is answered.
#[derive(Clone, Copy, Debug, PartialEq, Eq)]
pub enum Operate {
    /// The plant is given the order; the device is free again.
    Ordered,
    /// The tag inhibits this value.
    Inhibited,
    /// The device has no such value.
    BadValue,
    /// The device wants a selection, and this association has none.
    NotHolder,
}
