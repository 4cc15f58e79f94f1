/// An order to the plant: a device of the centre, by its number, and the value that it is operated
/// with.
#[derive(Clone, Copy, Debug, PartialEq, Eq)]
pub struct Order {
    pub device: u32,
    pub value: i64,
}
