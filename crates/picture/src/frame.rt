// Where the spots of a tree lie on the sheet.
ghost use Rattle.std.specs.Prelude.{◌≡◌, ◌≤◌, ◌≤ℤ◌};
ghost use Rattle.picture.specs.Distances.{apart};

use space::Spot;

/// How far the longer side of the spots' box reaches on the sheet.
pub const SIDE: u64 = 10_000;

/// The empty border round the spots' box.
pub const MARGIN: u64 = 600;

/// A point of the sheet: x goes right and y down, both from the upper left corner.
#[derive(Clone, Copy, Debug, PartialEq, Eq)]
pub struct Place {
    /// How far right of the left edge of the sheet.
    pub x: u64,
    /// How far below its upper edge.
    pub y: u64,
}

/// The box of some spots.
#[derive(Clone, Copy, Debug, PartialEq, Eq)]
pub struct Frame {
    /// The least x of the spots.
    pub left: i32,
    /// The greatest x.
    pub right: i32,
    /// The least y.
    pub bottom: i32,
    /// The greatest y.
    pub top: i32,
    ghost across: { left ≤ℤ right },
    ghost upright: { bottom ≤ℤ top },
}

/// How far it is from the lower end of a range to a number, which counts as the nearer end where it lies beyond the range.
fn from_low(low: i32, high: i32, at: i32) -> u32
    requires { low ≤ℤ high }
    ensures exact { low ≤ℤ at → at ≤ℤ high → result ≡ apart low at }
    ensures within { result ≤ apart low high }
{
    at.clamp(low, high).abs_diff(low)
}

/// How far it is from a number to the upper end of a range; a number beyond the range counts as the nearer end.
fn to_high(low: i32, high: i32, at: i32) -> u32
    requires { low ≤ℤ high }
    ensures exact { low ≤ℤ at → at ≤ℤ high → result ≡ apart at high }
    ensures within { result ≤ apart low high }
{
    high.abs_diff(at.clamp(low, high))
}

impl Frame {
    ghost use Rattle.picture.specs.Frame.{Holds, IsOnSheet, IsWithin, corner_of, place_of, scaled_of, span_of};

    /// The box of one spot.
    pub fn at(spot: Spot) -> Frame
        ensures holds { Holds result spot }
        ensures least { (g : Frame) → Holds g spot → IsWithin result g }
    {
        let Spot { x, y, level: _ } = spot;
        Frame {
            left: x,
            right: x,
            bottom: y,
            top: y,
        }
    }

    /// The least box that holds all that a box holds, and a spot.
    pub fn with(self, spot: Spot) -> Frame
        ensures holds { Holds result spot }
        ensures keeps { IsWithin self result }
        ensures least { (g : Frame) → IsWithin self g → Holds g spot → IsWithin result g }
    {
        Frame {
            left: self.left.min(spot.x),
            right: self.right.max(spot.x),
            bottom: self.bottom.min(spot.y),
            top: self.top.max(spot.y),
        }
    }

    /// The distance that fills a side of the sheet: the longer side of the box, and at least 1.
    fn span(self) -> u32
        ensures { result ≡ span_of self }
    {
        let width = self.right.abs_diff(self.left);
        let height = self.top.abs_diff(self.bottom);
        width.max(height).max(1)
    }

    /// A distance as it is on the sheet.
    fn scaled(self, distance: u32) -> u64
        ensures { result ≡ scaled_of self distance }
    {
        u64::from(distance) * SIDE / u64::from(self.span())
    }

    /// The lower right corner of the sheet: the box at its size on the sheet, and a margin on both sides.
    pub fn corner(self) -> Place
        ensures { result ≡ corner_of self }
    {
        Place {
            x: 2 * MARGIN + self.scaled(self.right.abs_diff(self.left)),
            y: 2 * MARGIN + self.scaled(self.top.abs_diff(self.bottom)),
        }
    }

    /// The place of a spot on the sheet, with y turned round: a spot that is higher in the net has a lower y. A spot beyond the box is
    /// put on its edge.
    pub fn place(self, spot: Spot) -> Place
        ensures exact { Holds self spot → result ≡ place_of self spot }
        ensures inside { IsOnSheet self result }
    {
        let x = from_low(self.left, self.right, spot.x);
        let y = to_high(self.bottom, self.top, spot.y);
        Place {
            x: MARGIN + self.scaled(x),
            y: MARGIN + self.scaled(y),
        }
    }
}
