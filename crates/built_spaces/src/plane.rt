ghost use Rattle.std.specs.Prelude.{◌≡◌};
ghost use Rattle.built_spaces.specs.Shapes.{in_range, grid_between, grid_meeting};
ghost use Rattle.built_spaces.specs.Grid.{plane_metric, plane_meets};

use crate::middle_one::middle;
use crate::range::in_range;
use space::{Joining, Space, Spot};

/// What no distance exceeds: across both sides.
const WIDEST: u64 = 4_000_000;

/// The plane: level 0, with x and y from -1,000,000 to 1,000,000; wires run along x and along y, and can be joined.
#[derive(Clone, Copy)]
pub struct Plane;

/// Where the ways from o to a and to b part.
fn median(o: Spot, a: Spot, b: Spot) -> Spot
    ensures { result ≡ grid_meeting o a b }
{
    let x = middle(o.x, a.x, b.x);
    let y = middle(o.y, a.y, b.y);
    Spot { x, y, level: 0 }
}

impl Space for Plane {
    ghost admitted = { λ _ s. in_range s };

    ghost width = { λ _. 4000000 };

    ghost between = { λ _ a b. grid_between a b };

    ghost metric = { λ s narrow. plane_metric };

    fn admits(&self, spot: Spot) -> bool {
        in_range(spot)
    }

    fn widest(&self) -> u64 {
        WIDEST
    }

    fn distance(&self, a: Spot, b: Spot) -> Option<u64> {
        let admitted = in_range(a) && in_range(b);
        admitted.then(|| u64::from(a.x.abs_diff(b.x)) + u64::from(a.y.abs_diff(b.y)))
    }
}

impl Joining for Plane {
    ghost meeting = { λ _ o a b. grid_meeting o a b };

    ghost meets = { λ s narrow. plane_meets };

    fn meet(&self, o: Spot, a: Spot, b: Spot) -> Option<Spot> {
        let admitted = in_range(o) && in_range(a) && in_range(b);
        admitted.then(|| median(o, a, b))
    }
}
