ghost use Rattle.std.specs.Prelude.{◌≡◌, ◌*◌, ◌&&◌, pos, int_le};
ghost use Rattle.space.specs.Spots.{spot_at_level};
ghost use Rattle.built_spaces.specs.Shapes.{abs_diff, flat, middle as middle_of, lift_admitted, lift_width, lift_between, lift_meeting};
ghost use Rattle.built_spaces.specs.Lifted.{narrow_sum, narrow_below, lifted_metric, lifted_meets};

use crate::middle_one::middle;
use space::{Joining, Space, Spot};

/// The highest level.
const TOP: i32 = 15;

/// A lift over any wiring space: a wire may also change level, from 0 to 15, at a price for each level. Over a joining space it joins. Sums stop
/// at the largest unsigned 64-bit number.
#[derive(Clone, Copy, Drop)]
pub struct Lift<S> {
    /// The space of each level.
    pub below: S,
    /// What one level costs.
    pub price: u32,
}

/// The spot moved to level 0.
fn flatten(spot: Spot) -> Spot
    ensures { result ≡ flat spot }
{
    spot.at_level(0)
}

/// Whether the spot lies on a level of a lift.
fn on_levels(spot: Spot) -> bool
    ensures { result ≡ (int_le (pos 0) spot.level && int_le spot.level (pos 15)) }
{
    (0..=TOP).contains(&spot.level)
}

/// What it costs to change from the level of one spot to that of another.
fn level_cost(price: u32, a: Spot, b: Spot) -> u64
    ensures { result ≡ price * abs_diff a.level b.level }
{
    u64::from(price) * u64::from(a.level.abs_diff(b.level))
}

/// The spot z moved to the middle level of o, a and b.
fn at_middle_level(z: Spot, o: Spot, a: Spot, b: Spot) -> Spot
    ensures { result ≡ spot_at_level z (middle_of o.level a.level b.level) }
{
    z.at_level(middle(o.level, a.level, b.level))
}

impl<S: Space> Space for Lift<S> {
    ghost admitted = { λ s. lift_admitted (S.Space.admitted s.below) };

    ghost width = { λ s. lift_width (S.Space.width s.below) s.price };

    ghost between = { λ s. lift_between (S.Space.between s.below) s.price };

    ghost metric = { λ s narrow.
        let sum = narrow_sum (S.Space.width s.below) s.price narrow in
        let below = narrow_below (S.Space.width s.below) s.price narrow in
        lifted_metric _ _ _ s.price sum (S.Space.metric s.below below) };

    fn admits(&self, spot: Spot) -> bool {
        on_levels(spot) && self.below.admits(flatten(spot))
    }

    fn widest(&self) -> u64 {
        self.below
            .widest()
            .saturating_add(u64::from(TOP.unsigned_abs()) * u64::from(self.price))
    }

    fn distance(&self, a: Spot, b: Spot) -> Option<u64> {
        if !on_levels(a) || !on_levels(b) {
            return None;
        }
        let below = self.below.distance(flatten(a), flatten(b))?;
        Some(below.saturating_add(level_cost(self.price, a, b)))
    }
}

impl<S: Joining> Joining for Lift<S> {
    ghost meeting = { λ s. lift_meeting (S.Joining.meeting s.below) };

    ghost meets = { λ s narrow.
        let sum = narrow_sum (S.Space.width s.below) s.price narrow in
        let below = narrow_below (S.Space.width s.below) s.price narrow in
        lifted_meets _ _ _ s.price sum (S.Space.metric s.below below) _ (S.Joining.meets s.below below) };

    fn meet(&self, o: Spot, a: Spot, b: Spot) -> Option<Spot> {
        if !self.admits(o) || !self.admits(a) || !self.admits(b) {
            return None;
        }
        let z = self.below.meet(flatten(o), flatten(a), flatten(b))?;
        Some(at_middle_level(z, o, a, b))
    }
}
