// How many meets joining asks for where the members lie on a ray from the driver. Entered from far to near, the meets of a member with all
// lower ones are equally far. And that a builder which refuses has measured nothing.
ghost use Rattle.built_spaces.specs.Grid.{plane_meets, plane_metric};
ghost use Rattle.built_spaces.specs.Shapes.{grid_between, grid_meeting, in_range};

use crate::spots::at;
use built_spaces::Plane;
use joined::Joiner;
use seed::Seed;
use space::{Joining, Space, Spot};
use std::alloc::Global;
use std::cell::Cell;
use std::process::Abort;
use std::test::Fail;
use straight::Builder;
use tree::Tree;
use walk::Allowance;

/// The plane, with a count of the distances and of the meets that were asked for.
#[derive(Drop)]
struct Counted {
    distances: Cell<u64>,
    meets: Cell<u64>,
}

impl Counted {
    fn new() -> Counted {
        Counted {
            distances: Cell::new(0),
            meets: Cell::new(0),
        }
    }
}

impl Space for Counted {
    ghost admitted = { λ _ s. in_range s };

    ghost width = { λ _. 4000000 };

    ghost between = { λ _ a b. grid_between a b };

    ghost metric = { λ s narrow. plane_metric };

    fn admits(&self, spot: Spot) -> bool {
        Plane.admits(spot)
    }

    fn widest(&self) -> u64 {
        Plane.widest()
    }

    fn distance(&self, a: Spot, b: Spot) -> Option<u64> {
        self.distances.set(self.distances.get().wrapping_add(1));
        Plane.distance(a, b)
    }
}

impl Joining for Counted {
    ghost meeting = { λ _ o a b. grid_meeting o a b };

    ghost meets = { λ s narrow. plane_meets };

    fn meet(&self, o: Spot, a: Spot, b: Spot) -> Option<Spot> {
        self.meets.set(self.meets.get().wrapping_add(1));
        Plane.meet(o, a, b)
    }
}

// 250 rows on the driver along a ray, the farthest first or the nearest first; answers their numbers.
fn spread(heap: Global, table: &mut Tree, farthest_first: bool) -> Result<Vec<usize>, Fail> {
    let mut members = Vec::new(heap);
    for k in 1..=250_u8 {
        let x = if farthest_first { 251 - k } else { k };
        if let Some(row) = table.add(0, at(i32::from(x), 0, 0), u64::from(x)) {
            members.push(row)?;
        }
    }
    Ok(members)
}

// The rows are joined to a tree with as much wire as the ray is long. There are 31,125 pairs of rows: one meet for each of them, about as many
// for the pairs of the new rows, and in each step one for each member whose partner has gone stay below 100,000.
fn check_ray(rt: &impl Abort, heap: Global, farthest_first: bool) -> Result<(), Fail> {
    let space = Counted::new();
    let mut joiner = Joiner::new(heap)?;
    let mut table = Tree::new(heap, at(0, 0, 0))?;
    let members = spread(heap, &mut table, farthest_first)?;
    assert_eq!(rt; joiner.join(&space, &mut table, &members), Some(250));
    assert!(rt; space.meets.get() < 100_000);
    Ok(())
}

#[test]
fn rays(rt: HostRuntime) -> Result<(), Fail> {
    check_ray(&rt, rt.alloc(), true)?;
    check_ray(&rt, rt.alloc(), false)
}

// The seed has three nodes, and there are two spots.
#[test]
fn a_spot_too_few(rt: HostRuntime) -> Result<(), Fail> {
    let space = Counted::new();
    let mut builder = Builder::new(rt.alloc())?;
    let mut seed = Seed::new(rt.alloc())?;
    let mut table = Tree::new(rt.alloc(), at(0, 0, 0))?;
    assert!(rt;
        seed.restart(3).is_ok() && seed.join(0, 1, 5).is_ok() && seed.join(1, 2, 5).is_ok()
    );
    let tree = seed.as_tree().ok_or("no tree")?;
    let spare = Allowance::new(0, 1).ok_or("no allowance")?;
    let spots = [at(0, 0, 0), at(5, 0, 0)];
    assert_eq!(rt;
        builder.straight(&space, &spots, 2, spare, &tree, &mut table),
        None
    );
    assert_eq!(rt; space.distances.get(), 0);
    Ok(())
}
