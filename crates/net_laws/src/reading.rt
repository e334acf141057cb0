ghost use Rattle.net_laws.specs.Worsts.{worst_before, worst_order};

use order::Rank;
use std::cmp::Reverse;

/// How far a pin is from the driver, in units of the space's distance.
#[derive(Clone, Copy, Debug, PartialEq, Eq)]
pub struct PinPath {
    /// Along the tree.
    pub path: u64,
    /// Directly.
    pub direct: u64,
}

/// The worst sink. The greater figure is the worse, and of equal ones the lower pin.
#[derive(Clone, Copy, Debug, PartialEq, Eq)]
pub struct Worst {
    /// The number of its pin, from 1.
    pub pin: usize,
    /// 1000 times its path by its direct distance, the fraction dropped.
    pub figure: u64,
}

impl Rank for Worst {
    ghost before = { worst_before };

    ghost order = { worst_order };

    fn precedes(&self, other: &Worst) -> bool {
        (Reverse(self.figure), self.pin) < (Reverse(other.figure), other.pin)
    }
}
