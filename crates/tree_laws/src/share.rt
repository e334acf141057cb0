ghost use Rattle.tree_laws.specs.Shares.{share_before, share_order};

use order::Rank;
use std::cmp::Reverse;

/// A move that puts a new row between `v` and its children `a` and `b`: the greater saving first, then the lower v, then the lower a, then
/// the lower b.
#[derive(Clone, Copy, Debug, PartialEq, Eq)]
pub struct Share {
    /// What it saves: the distance of `v` and the new row.
    pub saving: u64,
    /// The row that both hang on.
    pub v: usize,
    /// The child with the lower number.
    pub a: usize,
    /// The other child.
    pub b: usize,
}

impl Rank for Share {
    ghost before = { share_before };

    ghost order = { share_order };

    fn precedes(&self, other: &Share) -> bool {
        (Reverse(self.saving), self.v, self.a, self.b)
            < (Reverse(other.saving), other.v, other.a, other.b)
    }
}
