ghost use Rattle.tree_laws.specs.Hooks.{hook_before, hook_order};

use order::Rank;
use std::cmp::Reverse;

/// A move that hangs `v` on `u`: the greater saving first, then the lower v, then the lower u.
#[derive(Clone, Copy, Debug, PartialEq, Eq)]
pub struct Hook {
    /// What it saves: the old length of `v` minus the new.
    pub saving: u64,
    /// The row that is hung.
    pub v: usize,
    /// The row that it is hung on.
    pub u: usize,
}

impl Rank for Hook {
    ghost before = { hook_before };

    ghost order = { hook_order };

    fn precedes(&self, other: &Hook) -> bool {
        (Reverse(self.saving), self.v, self.u) < (Reverse(other.saving), other.v, other.u)
    }
}
