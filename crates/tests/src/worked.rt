// The calls behind the rows of the worked cases, made. `marks` has the walks.
use crate::spots::at;
use built_spaces::{Air, Lift, Plane};
use cases::worked_cases;
use seed::Seed;
use space::{Joining, Space};
use span::Spanner;
use std::test::Fail;

#[test]
fn spaces(rt: HostRuntime) {
    assert_eq!(rt; worked_cases(), 13);
    let o = at(0, 0, 0);
    assert_eq!(rt; Plane.meet(o, at(4, 3, 0), at(5, 1, 0)), Some(at(4, 1, 0)));
    assert_eq!(rt; Plane.meet(o, at(-6, 0, 0), at(4, 1, 0)), Some(o));
    for (x, y, distance) in [(1, 1, 2), (3, 4, 5), (2, 3, 4)] {
        assert_eq!(rt; Air.distance(o, at(x, y, 0)), Some(distance));
    }
    let below = Plane;
    let lift = Lift { below, price: 40 };
    assert_eq!(rt; lift.distance(o, at(3, 4, 2)), Some(87));
    for (price, narrow) in [(6_400_000, true), (6_400_001, false)] {
        let lift = Lift { below, price };
        assert_eq!(rt; lift.widest() <= 100_000_000, narrow);
    }
}

#[test]
fn square(rt: HostRuntime) -> Result<(), Fail> {
    let mut spanner = Spanner::new(rt.alloc())?;
    let mut seed = Seed::new(rt.alloc())?;
    let pins = [at(0, 0, 0), at(6, 0, 0), at(6, 6, 0), at(0, 6, 0)];
    assert_eq!(rt; spanner.grow(&Plane, &pins, &mut seed).ok(), Some(18));
    assert_eq!(rt; seed.count(), 3);
    for (edge, (a, b)) in seed.edges().iter().zip([(0, 1), (0, 3), (1, 2)]) {
        assert_eq!(rt; (edge.a, edge.b, edge.length), (a, b, 6));
    }
    assert_eq!(rt; seed.neighbour(0, 0, 0), Some((1, 6)));
    assert_eq!(rt; seed.neighbour(0, 0, 2), Some((3, 6)));
    assert_eq!(rt; seed.neighbour(1, 0, 0), Some((2, 6)));
    assert_eq!(rt; seed.neighbour(2, 1, 0), None);
    Ok(())
}
