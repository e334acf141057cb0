// Calls of the walk and of the two builders that no net makes, each on a tree of its own; and those of a net that is known by contracts alone.
use crate::spots::at;
use crate::tied::{called, edge_of, path_of, pinned};
use built_spaces::Plane;
use joined::Joiner;
use net::{Call, Fault, PinPath};
use seed::Seed;
use std::process::Abort;
use std::test::Fail;
use straight::Builder;
use tree::Tree;
use walk::{Allowance, Walk, WalkFault};

// Two rows on the driver and a third on the first of them; wire 14.
fn add_rows(rt: &impl Abort, table: &mut Tree) {
    assert_eq!(rt; table.add(0, at(4, 3, 0), 7), Some(1));
    assert_eq!(rt; table.add(0, at(5, 1, 0), 6), Some(2));
    assert_eq!(rt; table.add(1, at(4, 4, 0), 1), Some(3));
}

// Members that fall, that come twice, the driver, a row on another row, and no row.
const BAD: [[usize; 2]; 5] = [[2, 1], [1, 1], [0, 1], [1, 3], [1, 4]];

#[test]
fn joins(rt: HostRuntime) -> Result<(), Fail> {
    let mut joiner = Joiner::new(rt.alloc())?;
    let mut table = Tree::new(rt.alloc(), at(0, 0, 0))?;
    add_rows(&rt, &mut table);
    for members in BAD {
        assert!(rt; joiner.join(&Plane, &mut table, &members).is_none());
        assert!(rt; table.len() == 4 && table.wire() == 14);
    }
    assert_eq!(rt; joiner.join(&Plane, &mut table, &[1, 2]), Some(9));
    assert_eq!(rt; (table.len(), table.path(3)), (5, Some(8)));
    Ok(())
}

// The wire of the straight tree of (0, 0), (5, 5) and (5, 0) that allows nothing.
fn straight(builder: &mut Builder, seed: &Seed, table: &mut Tree) -> Option<u64> {
    let spare = Allowance::new(0, 1)?;
    let spots = [at(0, 0, 0), at(5, 5, 0), at(5, 0, 0)];
    builder.straight(&Plane, &spots, 3, spare, &seed.as_tree()?, table)
}

#[test]
fn builds(rt: HostRuntime) -> Result<(), Fail> {
    let mut builder = Builder::new(rt.alloc())?;
    let mut seed = Seed::new(rt.alloc())?;
    let mut table = Tree::new(rt.alloc(), at(0, 0, 0))?;
    add_rows(&rt, &mut table);
    assert!(rt; seed.as_tree().is_none(), "no nodes");
    assert!(rt; seed.restart(3).is_ok() && seed.join(0, 1, 10).is_ok());
    assert!(rt;
        straight(&mut builder, &seed, &mut table).is_none(),
        "no tree"
    );
    assert!(rt; table.len() == 4 && table.wire() == 14 && builder.broken().len() == 0);
    assert!(rt; seed.join(1, 2, 5).is_ok());
    assert_eq!(rt; straight(&mut builder, &seed, &mut table), Some(10));
    assert!(rt; table.len() == 3 && builder.broken().len() == 1);
    assert!(rt; seed.add_node().is_some() && seed.join(0, 3, 1).is_ok());
    assert!(rt;
        straight(&mut builder, &seed, &mut table).is_none(),
        "a spot too few"
    );
    assert!(rt; table.len() == 3 && builder.broken().len() == 1);
    Ok(())
}

// A walk over the nodes 0-1-2 with edges of 7, which are said to be 0, 7 and 3 from the driver, by as many pins.
fn breakpoints(rows: &mut Walk, seed: &Seed, pins: usize) -> Option<usize> {
    let quarter = Allowance::new(1, 4)?;
    rows.walk(&seed.as_tree()?, pins, quarter).ok()?;
    Some(rows.breakpoints())
}

#[test]
fn walks(rt: HostRuntime) -> Result<(), Fail> {
    let mut rows = Walk::new(rt.alloc())?;
    let mut seed = Seed::new(rt.alloc())?;
    assert!(rt;
        seed.restart(3).is_ok() && seed.join(0, 1, 7).is_ok() && seed.join(1, 2, 7).is_ok()
    );
    assert!(rt; rows.add(0).is_some() && rows.add(7).is_some());
    assert!(rt; breakpoints(&mut rows, &seed, 3).is_none(), "a row too few");
    assert!(rt; rows.add(3).is_some());
    assert_eq!(rt; breakpoints(&mut rows, &seed, 0), Some(0), "no pins");
    assert_eq!(rt; breakpoints(&mut rows, &seed, 2), Some(0), "no far pin");
    assert_eq!(rt;
        breakpoints(&mut rows, &seed, 600),
        Some(1),
        "more pins than nodes"
    );
    assert!(rt; rows.add(3).is_some());
    let quarter = Allowance::new(1, 4).ok_or("no allowance")?;
    let tree = seed.as_tree().ok_or("no tree")?;
    assert_eq!(rt;
        rows.walk(&tree, 3, quarter),
        Err(WalkFault),
        "a row too many"
    );
    assert!(rt; Allowance::new(1, 0).is_none() && Allowance::new(u64::MAX, u64::MAX).is_none());
    Ok(())
}

// A net that is known by the contracts of its calls alone: two pins 7 apart.
#[test]
fn known_by_contracts(rt: HostRuntime) -> Result<(), Fail> {
    let mut net = pinned(rt.alloc(), Plane, at(0, 0, 0))?;
    let calls = [
        Call::Pin(at(3, 4, 0)),
        Call::Allow(0, 1),
        Call::Edge(0, 1),
        Call::Straight,
    ];
    let mut answers = [Ok(0); 4];
    assert_eq!(rt; called(&mut net, &calls, &mut answers), 4);
    assert!(rt; answers[0] == Ok(1) && answers[2] == Ok(7) && answers[3] == Ok(7));
    assert!(rt; path_of(&net, 1) == Ok(PinPath { path: 7, direct: 7 }));
    assert!(rt; path_of(&net, 2) == Err(Fault::OutOfRange));
    assert!(rt; edge_of(&mut net, 0, 1) == Err(Fault::Joined));
    Ok(())
}
