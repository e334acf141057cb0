ghost use Rattle.std.specs.Prelude.{◌≡◌, ◌≤◌, ◌↔◌, IsTrue, length, vec_capacity, filter};
ghost use Rattle.tree.specs.declared.table.TheConstants.{ROWS};
ghost use Rattle.build_laws.specs.Joining.{others};
ghost use Rattle.joined.specs.Joinings.{AllHang, Joinable, Rising};

use crate::partners::{Change, Group, Partners};
use build_laws::Pair;
use search::first;
use share::{hangs, insert_meet};
use space::Joining;
use std::alloc::{AllocError, Global};
use tree::{ROWS, Tree};

/// The memory for joining, reserved once: the group, the first pair of each member, and the pairs of one member.
#[derive(Drop)]
pub struct Joiner {
    group: Vec<usize>,
    partners: Partners,
    ghost members: { ROWS ≤ vec_capacity group },
}

/// Whether the members rise.
fn rises(members: &[usize]) -> bool
    ensures { IsTrue result ↔ Rising members.now }
{
    members.is_sorted_by(|a, b| a < b)
}

/// Whether each member is a row that hangs on the driver.
fn all_hang(table: &Tree, members: &[usize]) -> bool
    ensures { IsTrue result ↔ AllHang table.now.rows members.now }
{
    members.iter().all(|&member| hangs(table, 0, member))
}

/// Whether the members are rows that hang on the driver, in rising order, with room for a new row for each.
fn joinable(table: &Tree, members: &[usize]) -> bool
    ensures { IsTrue result ↔ Joinable table.now.rows members.now }
{
    members.len() <= ROWS - table.len() && rises(members) && all_hang(table, members)
}

/// Takes `a` and `b` out of the group.
fn leave(group: &mut Vec<usize>, a: usize, b: usize)
    ensures items { group.new.items ≡ filter (others a b) group.old.items }
    ensures room { vec_capacity group.new ≡ vec_capacity group.old }
{
    group.retain(|&member| member != a && member != b);
}

/// Makes the members the group.
fn fill(group: &mut Vec<usize>, members: &[usize])
    requires few { length members.now ≤ ROWS }
    requires room { ROWS ≤ vec_capacity group.old }
    ensures items { group.new.items ≡ members.now }
    ensures room { vec_capacity group.new ≡ vec_capacity group.old }
{
    group.clear();
    // `extend_from_slice` would ask for an allocator: all memory is reserved.
    for &member in members {
        group.push_reserved(member);
    }
}

impl Joiner {
    ghost use Rattle.std.specs.Prelude.{[], IfOk};
    ghost use Rattle.joined.specs.Joiners.{JoiningStands, JoiningSteps, members_of};
    ghost use Rattle.joined.specs.Joinings.{JoinedBy};

    /// Room for as many members as a tree can have rows, and none yet.
    pub fn new(heap: Global) -> Result<Joiner, AllocError>
        ensures { IfOk result (λ joiner. members_of joiner ≡ []) }
    {
        let group = Vec::with_capacity(heap, ROWS)?;
        let partners = Partners::new(heap)?;
        Ok(Joiner { group, partners })
    }

    /// Makes the members the group and finds the first pair of each.
    fn begin<S: Joining>(&mut self, space: &S, table: &Tree, members: &[usize])
        requires { Joinable table.now.rows members.now }
        ensures standing { JoiningStands S.Space S.Joining.own space.now table.now.rows self.new }
        ensures members { members_of self.new ≡ members.now }
    {
        fill(&mut self.group, members);
        let group = Group {
            space,
            table,
            members: self.group.as_slice(),
        };
        group.start(&mut self.partners);
    }

    /// Joins the first pair of all, and answers whether there is one whose meet is not 0 from the driver.
    fn step<S: Joining>(&mut self, space: &S, table: &mut Tree) -> bool
        requires { JoiningStands S.Space S.Joining.own space.now table.old.rows self.old }
        ensures { JoiningSteps S.Space S.Joining.own space.now table.old.rows self.old result
            table.new.rows self.new }
    {
        let Some(pair) = first(self.partners.firsts.as_slice()) else {
            return false;
        };
        if pair.far == 0 {
            return false;
        }
        let Some(new) = insert_meet(space, table, 0, pair.a, pair.b) else {
            return false;
        };
        let Pair { a, b, .. } = pair;
        leave(&mut self.group, a, b);
        self.group.push_reserved(new);
        let group = Group {
            space,
            table: &*table,
            members: self.group.as_slice(),
        };
        group.renew(Change { a, b, new }, &mut self.partners);
        true
    }

    /// Joins the members, pair after pair, and answers the wire: the two whose meet, seen from the driver, is farthest from it, of equally
    /// far ones those with the lowest smaller number, then the lowest larger one; the meet becomes a new row on the driver and the parent of
    /// both, and takes their place. Nothing, with the tree as it was, where the members are not rows that hang on the driver in rising order
    /// or there might be no room for the new rows.
    pub fn join<S: Joining>(
        &mut self,
        space: &S,
        table: &mut Tree,
        members: &[usize],
    ) -> Option<u64>
        ensures { JoinedBy S.Space S.Joining.own space.now table.old members.now result table.new }
    {
        if !joinable(table, members) {
            return None;
        }
        self.begin(space, table, members);
        for _ in 0..members.len() {
            if !self.step(space, table) {
                break;
            }
        }
        Some(table.wire())
    }
}
