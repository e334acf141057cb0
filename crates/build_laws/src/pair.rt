ghost use Rattle.build_laws.specs.Pairs.{pair_before, pair_order};

use order::Rank;
use std::cmp::Reverse;

/// Two members of the group and how far from the driver their meet is: the farther first, then the lower a, then the lower b.
#[derive(Clone, Copy, Debug, PartialEq, Eq)]
pub struct Pair {
    /// How far from the driver their meet is.
    pub far: u64,
    /// The member with the lower number.
    pub a: usize,
    /// The other member.
    pub b: usize,
}

impl Rank for Pair {
    ghost before = { pair_before };

    ghost order = { pair_order };

    fn precedes(&self, other: &Pair) -> bool {
        (Reverse(self.far), self.a, self.b) < (Reverse(other.far), other.a, other.b)
    }
}
