// The rows of a table.
use space::Spot;

/// A row of a tree: its parent's number, its spot, and the length of the wire between them.
#[derive(Clone, Copy, Debug, PartialEq, Eq)]
pub struct DrawnRow {
    /// The number of its parent; 0 for the driver.
    pub parent: u64,
    /// Where it lies.
    pub spot: Spot,
    /// The length of the wire from its parent, in units of distance; 0 for the driver.
    pub length: u64,
}
