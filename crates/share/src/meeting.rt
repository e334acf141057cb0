ghost use Rattle.std.specs.Prelude.{◌↔◌, IsTrue};
ghost use Rattle.tree_laws.specs.Trees.{Child};
ghost use Rattle.share.specs.Meets.{MeetInserted};

use space::{Joining, capped_distance, meet_or_start};
use tree::Tree;

/// Whether `c` is a row other than the driver that hangs on `v`.
pub fn hangs(table: &Tree, v: usize, c: usize) -> bool
    ensures { IsTrue result ↔ Child table.now.rows v c }
{
    c != 0 && table.row(c).is_some_and(|row| row.parent == v)
}

/// Puts the meet of the rows `a` and `b`, seen from `v`, between `v` and both as a new row and answers its number. Refused, with the tree
/// as it was, where `a` and `b` are not two different children of `v` or there is no room for another row.
pub fn insert_meet<S: Joining>(
    space: &S,
    table: &mut Tree,
    v: usize,
    a: usize,
    b: usize,
) -> Option<usize>
    ensures { MeetInserted S.Space S.Joining.own space.now table.old v a b result table.new }
{
    if a == b || !hangs(table, v, a) || !hangs(table, v, b) {
        return None;
    }
    let from = table.at(v).spot;
    let one = table.at(a).spot;
    let two = table.at(b).spot;
    let z = meet_or_start(space, from, one, two);
    let new = table.add(v, z, capped_distance(space, from, z))?;
    table.hang(a, new, capped_distance(space, z, one)).ok()?;
    table.hang(b, new, capped_distance(space, z, two)).ok()?;
    Some(new)
}
