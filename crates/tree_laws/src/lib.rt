//! Trees as tables of rows, and the moves that shorten them: definitions and lemmas.

#![tactic(auto)]

mod hook;
mod share;

pub use hook::Hook;
pub use share::Share;
use space::Spot;

/// A row of a tree: the row it hangs on (0 for the driver), its spot, and its distance from its parent (0 for the driver).
#[derive(Clone, Copy, Debug, PartialEq, Eq, Default)]
pub struct Row {
    /// The number of the row that it hangs on, counted from 0, the driver.
    pub parent: usize,
    /// Where it is.
    pub spot: Spot,
    /// Its distance from its parent.
    pub length: u64,
}
