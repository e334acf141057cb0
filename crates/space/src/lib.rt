//! What a router's space is: which spots it admits, how far apart two spots are and, where wires can be joined, where.
//! `docs/spaces.md` states every rule and limit in plain words. Here are the traits and their laws; `built_spaces` has spaces.

#![tactic(auto)]

ghost use Rattle.std.specs.Prelude.{◌≡◌, ℕ, ◌≤◌, Bool, ◌&&◌};
ghost use Rattle.space.specs.declared.spot.Spot.{Spot};
ghost use Rattle.space.specs.Laws.{answered, Metric, Meets};
ghost use Rattle.space.specs.declared.TheConstants.{LONGEST};

pub mod spot;
mod total;

pub use spot::{ParseSpotError, Spot, spot_of};
pub use total::{capped_distance, edge_length, meet_or_start};

/// The most that a space may be wide and still owe its laws, and the greatest length of an edge or a row.
pub const LONGEST: u64 = 100_000_000;

/// A wiring space. `admitted`, `width` and `between` are what it means; each call answers its part of that meaning and changes nothing. The law
/// `metric` is owed by every space that is at most `LONGEST` wide.
pub trait Space {
    ghost admitted: { Self → Spot → Bool };

    ghost width: { Self → ℕ };

    ghost between: { Self → Spot → Spot → ℕ };

    /// Whether the spot may be used.
    fn admits(&self, spot: Spot) -> bool
        ensures { result ≡ admitted self.now spot };

    /// What no distance of the space exceeds.
    fn widest(&self) -> u64
        ensures { result ≡ width self.now };

    /// The distance of two spots; nothing exactly where one of them is not admitted.
    fn distance(&self, a: Spot, b: Spot) -> Option<u64>
        ensures { result ≡ answered (admitted self.now a && admitted self.now b) (between self.now a b) };

    ghost metric: { (s : Self) → width s ≤ LONGEST → Metric (admitted s) (width s) (between s) };
}

/// A wiring space in which wires can be joined: `meeting o a b` is the spot where the paths from o to a and to b part. The law `meets` is owed
/// under the same limit as that of the wiring space.
pub trait Joining: Space {
    ghost meeting: { Self → Spot → Spot → Spot → Spot };

    /// The meet of `a` and `b` seen from `o`; nothing exactly where one of the three is not admitted.
    fn meet(&self, o: Spot, a: Spot, b: Spot) -> Option<Spot>
        ensures { result ≡ answered
            (Self.Space.admitted self.now o && Self.Space.admitted self.now a && Self.Space.admitted self.now b)
            (meeting self.now o a b) };

    ghost meets: { (s : Self) → Self.Space.width s ≤ LONGEST → Meets (Self.Space.admitted s) (Self.Space.between s) (meeting s) };
}
