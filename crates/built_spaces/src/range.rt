// The spots of plane and air.
ghost use Rattle.std.specs.Prelude.{◌≡◌};
ghost use Rattle.built_spaces.specs.Shapes.{in_range};

use space::Spot;

/// The greatest |x| and |y| of a spot.
const SIDE: u32 = 1_000_000;

/// Whether the spot lies on level 0 with x and y from -1,000,000 to 1,000,000.
pub(crate) fn in_range(spot: Spot) -> bool
    ensures { result ≡ in_range spot }
{
    spot.level == 0 && spot.x.unsigned_abs() <= SIDE && spot.y.unsigned_abs() <= SIDE
}
