// The direct distances of the nodes, and the rows of the straight tree.
ghost use Rattle.std.specs.Prelude.{◌≡◌, ℕ, ◌≤◌, ◌↔◌, map, length, vec_capacity, slice_index, slice_index_or, IsSome, OnSome};
ghost use Rattle.space.specs.declared.TheConstants.{LONGEST};
ghost use Rattle.seed.specs.declared.store.TheConstants.{NODES};
ghost use Rattle.space.specs.Totals.{capped_distance};
ghost use Rattle.walk.specs.Marks.{marks_of, unmarked};
ghost use Rattle.build_laws.specs.Straight.{breakpoints};
ghost use Rattle.space.specs.Spots.{spot_of};
ghost use Rattle.straight.specs.Laying.{planned};
ghost use Rattle.tree.specs.declared.table.TheConstants.{ROWS};
ghost use Rattle.tree_laws.specs.Trees.{RowTree, row_length};

use space::{Space, Spot, capped_distance, spot_of};
use tree::{Row, TreeRows};
use walk::Mark;

/// Gives the walk a row for each spot, with its distance from the driver. `None` where there are more spots than a walk can have rows.
pub(crate) fn measure<S: Space>(walk: &mut walk::Walk, space: &S, spots: &[Spot]) -> Option<()>
    ensures room { IsSome result ↔ (length spots.now ≤ NODES) }
    ensures rows { OnSome result
        (walk.new.directs ≡ map (capped_distance S.Space space.now (spot_of spots.now 0)) spots.now) }
{
    walk.clear();
    let driver = spot_of(spots, 0);
    for spot in spots {
        walk.add(capped_distance(space, driver, *spot))?;
    }
    Some(())
}

/// A finished walk and the spots of its nodes: the rows of a straight tree.
#[derive(Drop)]
pub(crate) struct Plan<'a> {
    pub(crate) walk: &'a walk::Walk,
    pub(crate) spots: &'a [Spot],
    ghost nodes: { length spots.now ≤ NODES },
    ghost few: { length (planned walk.now spots.now) ≤ ROWS },
    ghost lengths: { (k : ℕ) → row_length (planned walk.now spots.now) k ≤ LONGEST },
    ghost tree: { RowTree (planned walk.now spots.now) },
}

impl Plan<'_> {
    /// The direct distance of a node; 0 where there is no such node.
    fn direct(&self, v: usize) -> u64
        ensures { result ≡ slice_index self.now.walk.now.directs v }
    {
        self.walk.direct(v).unwrap_or_default()
    }

    /// The mark of a node; one without an estimate where there is no such node.
    fn mark(&self, v: usize) -> Mark
        ensures { result ≡ slice_index_or self.now.walk.now.marks v unmarked }
    {
        self.walk.mark(v).unwrap_or_default()
    }

    /// Lists the breakpoints.
    pub(crate) fn list(&self, broken: &mut Vec<usize>)
        requires { NODES ≤ vec_capacity broken.old }
        ensures found { broken.new.items
            ≡ breakpoints (marks_of self.now.walk.now.marks) (length self.now.spots.now) }
        ensures room { vec_capacity broken.new ≡ vec_capacity broken.old }
    {
        broken.clear();
        for v in 0..self.spots.len() {
            if self.mark(v).broken {
                broken.push_reserved(v);
            }
        }
    }
}

// A breakpoint hangs on the driver at its direct distance, and every other node on its parent from the walk.
impl TreeRows for Plan<'_> {
    ghost tree = { λ plan. record {
      rows = planned plan.walk.now plan.spots.now;
      few = plan.few;
      lengths = plan.lengths;
      tree = plan.tree;
    } };

    fn count(&self) -> usize {
        self.spots.len()
    }

    fn row(&self, v: usize) -> Row {
        let mark = self.mark(v);
        let (parent, length) = if v == 0 {
            (0, 0)
        } else if mark.broken {
            (0, self.direct(v))
        } else {
            (mark.parent, mark.edge)
        };
        Row {
            parent,
            spot: spot_of(self.spots, v),
            length,
        }
    }
}
