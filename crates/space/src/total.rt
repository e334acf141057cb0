// Distances and meets made total, for code that has asked before whether there is one.
ghost use Rattle.std.specs.Prelude.{◌≡◌, ◌≤◌};
ghost use Rattle.space.specs.Totals.{capped_distance, edge_length, meet_or_start};

use crate::{Joining, LONGEST, Space, Spot};

/// The distance of two spots, at most `LONGEST`; 0 where there is none.
pub fn capped_distance<S: Space>(space: &S, a: Spot, b: Spot) -> u64
    ensures value { result ≡ capped_distance S.Space space.now a b }
    ensures bound { result ≤ LONGEST }
{
    space.distance(a, b).map_or(0, |d| d.min(LONGEST))
}

/// The distance of two spots as the length of an edge, from 1 to `LONGEST`; 1 where there is none.
pub fn edge_length<S: Space>(space: &S, a: Spot, b: Spot) -> u64
    ensures { result ≡ edge_length S.Space space.now a b }
{
    space.distance(a, b).map_or(1, |d| d.clamp(1, LONGEST))
}

/// The meet of `a` and `b` seen from `o`; `o` where there is none.
pub fn meet_or_start<S: Joining>(space: &S, o: Spot, a: Spot, b: Spot) -> Spot
    ensures { result ≡ meet_or_start S.Space S.Joining.own space.now o a b }
{
    space.meet(o, a, b).unwrap_or(o)
}
