// A line along x. Spots that differ in y alone are 0 apart, so two different spots may be 0 apart.
ghost use Rattle.std.specs.Prelude.{◌≡◌};
ghost use Rattle.tests.specs.Outside.{is_on_line, line_between, line_meeting};
ghost use Rattle.tests.specs.Laws.{line_metric, line_meets};

use built_spaces::middle;
use space::{Joining, Space, Spot};

/// The line: level 0, with x from -1,000 to 1,000 and any y; the distance is that along x.
#[derive(Clone, Copy)]
pub struct Line;

fn on_line(spot: Spot) -> bool
    ensures { result ≡ is_on_line spot }
{
    spot.level == 0 && spot.x.unsigned_abs() <= 1000
}

/// From o the ways part at once where a and b lie on both sides, else at the nearer of the two.
fn median(o: Spot, a: Spot, b: Spot) -> Spot
    ensures { result ≡ line_meeting o a b }
{
    let x = middle(o.x, a.x, b.x);
    Spot {
        x,
        y: o.y,
        level: 0,
    }
}

impl Space for Line {
    ghost admitted = { λ _ s. is_on_line s };

    ghost width = { λ _. 2000 };

    ghost between = { λ _ a b. line_between a b };

    ghost metric = { λ s narrow. line_metric };

    fn admits(&self, spot: Spot) -> bool {
        on_line(spot)
    }

    fn widest(&self) -> u64 {
        2000
    }

    fn distance(&self, a: Spot, b: Spot) -> Option<u64> {
        let admitted = on_line(a) && on_line(b);
        admitted.then(|| u64::from(a.x.abs_diff(b.x)))
    }
}

impl Joining for Line {
    ghost meeting = { λ _ o a b. line_meeting o a b };

    ghost meets = { λ s narrow. line_meets };

    fn meet(&self, o: Spot, a: Spot, b: Spot) -> Option<Spot> {
        let admitted = on_line(o) && on_line(a) && on_line(b);
        admitted.then(|| median(o, a, b))
    }
}
