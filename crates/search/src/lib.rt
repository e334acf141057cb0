//! The one search for the first of several candidates, under an order without ties.

#![tactic(auto)]

ghost use Rattle.std.specs.Prelude.{◌≡◌, ℕ, ◌<◌, true, List, slice_get};
ghost use Rattle.order.specs.Bests.{FirstFound};
ghost use Rattle.order.specs.Firsts.{Covers, FirstOf, Winners, together};

use order::Rank;

/// The first of the candidates that `find` gives for the numbers below `n`; `None` exactly where it gives none.
pub fn first_found<C: Rank + Copy, F: Fn(usize) -> Option<C>>(n: usize, find: F) -> Option<C>
    requires { (i : ℕ) → i < n → F.pre find i }
    ensures { FirstFound C.Rank.before (F.post find) n result }
{
    let mut first: Option<C> = None;
    for i in 0..n {
        if let Some(candidate) = find(i) {
            if first.is_none_or(|best| candidate.precedes(&best)) {
                first = Some(candidate);
            }
        }
    }
    first
}

/// The candidate that no candidate comes before; `None` exactly where there is none.
/// The search over candidates that decide the first of a longer list finds the first of that list, so the first of the firsts of
/// several lists is the first of all of them.
pub fn first<C: Rank + Copy>(candidates: &[C]) -> Option<C>
    ensures first { FirstOf C.Rank.before candidates.now result }
    ensures staged { (xs : List C) → Covers C.Rank.before candidates.now xs → FirstOf C.Rank.before xs result }
    ensures gathered { (ls : List (List C)) → Winners C.Rank.before ls candidates.now → FirstOf C.Rank.before (together ls) result }
{
    first_found(
        candidates.len(),
        |i|
            ensures { result ≡ slice_get candidates.entry.now i }
        { candidates.get(i).copied() },
    )
}
