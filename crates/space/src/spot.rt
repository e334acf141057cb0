ghost use Rattle.std.specs.Prelude.{◌≡◌, Some};
ghost use Rattle.std.specs.Result.{result_ok};
ghost use Rattle.space.specs.Lines.{Parsed, SpotLine};
ghost use Rattle.space.specs.Spots.{spot_at_level, spot_of, spot_text};

use std::fmt;
use std::num::ParseIntError;
use std::str::FromStr;
use thiserror::Error;

/// A place where a wire can begin, end or part. As text it is `x,y,level`. The default is the origin: level 0, with x and y 0.
#[derive(Clone, Copy, PartialEq, Eq, Debug, Default)]
pub struct Spot {
    /// Along x; any number.
    pub x: i32,
    /// Along y; any number.
    pub y: i32,
    /// The level; any number. A space says which spots it admits.
    pub level: i32,
}

impl Spot {
    /// The spot moved to another level.
    pub fn at_level(self, level: i32) -> Spot
        ensures { result ≡ spot_at_level self level }
    {
        Spot {
            x: self.x,
            y: self.y,
            level,
        }
    }
}

// Three decimal numbers, `x,y,level`.
impl fmt::Display for Spot {
    ghost output = { λ s. Some (spot_text s) };

    fn fmt<W: fmt::Write>(&self, f: &mut fmt::Formatter<W>) -> fmt::Result {
        let Spot { x, y, level } = *self;
        write!(f, "{x},{y},{level}")
    }
}

/// A text is no spot.
#[derive(Clone, Copy, Debug, PartialEq, Eq, Error)]
#[error("not three numbers of 32 bits")]
pub struct ParseSpotError;

impl From<ParseIntError> for ParseSpotError {
    fn from(_error: ParseIntError) -> ParseSpotError {
        ParseSpotError
    }
}

// Three decimal numbers parted by commas; an error exactly where the line is not that.
impl FromStr for Spot {
    type Err = ParseSpotError;

    ghost from_str_gives = { λ line answer. Parsed SpotLine line (result_ok answer) };

    fn from_str(line: &str) -> Result<Spot, ParseSpotError> {
        let (first, rest) = line.split_once(',').ok_or(ParseSpotError)?;
        let (second, third) = rest.split_once(',').ok_or(ParseSpotError)?;
        let x = first.parse()?;
        let y = second.parse()?;
        let level = third.parse()?;
        Ok(Spot { x, y, level })
    }
}

/// The spot at the place `k`; the origin where there is none.
pub fn spot_of(spots: &[Spot], k: usize) -> Spot
    ensures { result ≡ spot_of spots.now k }
{
    spots.get(k).copied().unwrap_or_default()
}
