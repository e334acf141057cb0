ghost use Rattle.std.specs.Prelude.{◌≡◌, true, ◌&&◌, IfSome};
ghost use Rattle.space.specs.Laws.{answered};
ghost use Rattle.built_spaces.specs.Shapes.{in_range, squares, air_between, root_above, LeastRoot};
ghost use Rattle.built_spaces.specs.Root.{air_metric};

use crate::range::in_range;
use space::{Space, Spot};

/// What no distance exceeds: the least whole number not below the distance of two corners.
const WIDEST: u64 = 2_828_428;

/// The air: the spots of the plane; wires run straight from spot to spot. It measures and has no meet.
#[derive(Clone, Copy)]
pub struct Air;

// The least whole number whose square is at least n.
pub(crate) fn root_up(n: u64) -> u64
    ensures value { result ≡ root_above n }
    ensures least { LeastRoot n result }
{
    let root = n.isqrt();
    if root * root == n { root } else { root + 1 }
}

// dx² + dy², of two spots in range.
fn square_sum(a: Spot, b: Spot) -> u64
    requires from { in_range a ≡ true }
    requires to { in_range b ≡ true }
    ensures { result ≡ squares a b }
{
    let dx = u64::from(a.x.abs_diff(b.x));
    let dy = u64::from(a.y.abs_diff(b.y));
    dx * dx + dy * dy
}

impl Space for Air {
    ghost admitted = { λ _ s. in_range s };

    ghost width = { λ _. 2828428 };

    ghost between = { λ _ a b. air_between a b };

    ghost metric = { λ s narrow. air_metric };

    fn admits(&self, spot: Spot) -> bool {
        in_range(spot)
    }

    fn widest(&self) -> u64 {
        WIDEST
    }

    // `least` says in plain words which number the distance is.
    fn distance(&self, a: Spot, b: Spot) -> Option<u64>
        ensures answer { result ≡ answered (in_range a && in_range b) (air_between a b) }
        ensures least { IfSome result (λ d. LeastRoot (squares a b) d) }
    {
        let admitted = in_range(a) && in_range(b);
        admitted.then(|| root_up(square_sum(a, b)))
    }
}
