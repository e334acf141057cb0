// A space in which all spots with different x are equally far apart, as far as one likes: its width and its
// distances can come near the largest unsigned 64-bit number.
ghost use Rattle.tests.specs.Outside.{vast_between};
ghost use Rattle.std.specs.Prelude.{true};
ghost use Rattle.tests.specs.Laws.{vast_metric};

use space::{Space, Spot};

/// Every spot is admitted; spots with different x are `far` apart, others 0.
#[derive(Clone, Copy)]
pub struct Vast {
    /// The distance of spots with different x, also the width.
    pub far: u64,
}

impl Space for Vast {
    ghost admitted = { λ _ _. true };

    ghost width = { λ s. s.far };

    ghost between = { λ s a b. vast_between s.far a b };

    ghost metric = { λ s narrow. vast_metric s.far };

    fn admits(&self, _spot: Spot) -> bool {
        true
    }

    fn widest(&self) -> u64 {
        self.far
    }

    fn distance(&self, a: Spot, b: Spot) -> Option<u64> {
        Some(if a.x == b.x { 0 } else { self.far })
    }
}
