// The ends of every range, and the largest sums.
use crate::line::Line;
use crate::spots::at;
use crate::vast::Vast;
use built_spaces::{Air, Lift, Plane};
use space::{Joining, Space, Spot, spot_of};
use std::process::Abort;

// Spots just outside the range of plane and of air, or far outside.
const OUTSIDE: [(i32, i32, i32); 11] = [
    (1_000_001, 0, 0),
    (-1_000_001, 0, 0),
    (0, 1_000_001, 0),
    (0, -1_000_001, 0),
    (i32::MAX, 0, 0),
    (0, i32::MIN, 0),
    (i32::MIN, i32::MAX, 0),
    (i32::MIN, i32::MIN, 0),
    (0, 0, 1),
    (0, 0, -1),
    (0, 0, i32::MIN),
];

// The ends of the range, of plane and of air alike, and the widest distance, which is reached.
fn check_range<S: Space>(rt: &impl Abort, space: &S, widest: u64) {
    let low = at(-1_000_000, -1_000_000, 0);
    let high = at(1_000_000, 1_000_000, 0);
    let o = at(0, 0, 0);
    assert!(rt; space.admits(at(1_000_000, -1_000_000, 0)));
    assert!(rt; space.admits(at(-1_000_000, 1_000_000, 0)));
    assert_eq!(rt; space.widest(), widest);
    assert_eq!(rt; space.distance(low, high), Some(widest));
    assert_eq!(rt; space.distance(high, high), Some(0));
    for (x, y, level) in OUTSIDE {
        let outside = at(x, y, level);
        assert!(rt; !space.admits(outside));
        assert_eq!(rt; space.distance(low, outside), None);
        assert_eq!(rt; space.distance(outside, high), None);
        assert_eq!(rt; space.distance(o, outside), None);
        assert_eq!(rt; space.distance(outside, o), None);
    }
}

// The meet, where there is one, and none with a spot outside in any of the three places.
fn check_meet<J: Joining>(
    rt: &impl Abort,
    space: &J,
    corners: [Spot; 3],
    meet: Spot,
    outside: Spot,
) {
    let [o, a, b] = corners;
    assert_eq!(rt; space.meet(o, a, b), Some(meet));
    assert_eq!(rt; space.meet(outside, a, b), None);
    assert_eq!(rt; space.meet(o, outside, b), None);
    assert_eq!(rt; space.meet(o, a, outside), None);
}

#[test]
fn ranges(rt: HostRuntime) {
    check_range(&rt, &Plane, 4_000_000);
    check_range(&rt, &Air, 2_828_428);
    assert_eq!(rt; spot_of(&[at(4, 3, 0), at(5, 1, 2)], 1), at(5, 1, 2));
    assert_eq!(rt; spot_of(&[at(4, 3, 0), at(5, 1, 2)], 2), at(0, 0, 0));
}

#[test]
fn plane_meets(rt: HostRuntime) {
    let o = at(0, 0, 0);
    let corner = at(1_000_000, 1_000_000, 0);
    assert_eq!(rt; Plane.meet(o, corner, corner), Some(corner));
    assert_eq!(rt; Plane.meet(o, at(4, 3, 0), at(5, 1, 0)), Some(at(4, 1, 0)));
    for (x, y, level) in [(0, 0, 1), (1_000_001, 0, 0), (0, i32::MIN, 0)] {
        check_meet(&rt, &Plane, [o, o, o], o, at(x, y, level));
    }
}

#[test]
fn meets(rt: HostRuntime) {
    let flat = [at(0, 0, 0), at(1_000_000, 3, 0), at(1_000_000, 1, 0)];
    check_meet(&rt, &Plane, flat, at(1_000_000, 1, 0), at(0, i32::MIN, 0));
    let lift = Lift {
        below: Plane,
        price: 40,
    };
    let high = [at(0, 0, 1), at(4, 3, 9), at(5, 1, 5)];
    check_meet(&rt, &lift, high, at(4, 1, 5), at(4, 3, 16));
    let outer = Lift {
        below: Lift {
            below: Line,
            price: 3,
        },
        price: 50,
    };
    assert_eq!(rt; outer.widest(), 2795);
    assert_eq!(rt; outer.distance(at(-5, 9, 2), at(7, 0, 0)), Some(112));
    let nested = [at(0, 8, 0), at(4, 3, 7), at(6, 1, 2)];
    check_meet(&rt, &outer, nested, at(4, 8, 2), at(1001, 0, 0));
    let line = [at(0, 7, 0), at(4, 3, 0), at(6, 1, 0)];
    check_meet(&rt, &Line, line, at(4, 7, 0), at(-1001, 1, 0));
    assert_ne!(rt; at(5, 1, 0), at(5, 2, 0));
    assert_eq!(rt; Line.distance(at(5, 1, 0), at(5, 2, 0)), Some(0));
    assert_eq!(rt; Line.distance(at(-1000, 1, 0), at(1000, 2, 0)), Some(2000));
    assert_eq!(rt; Line.distance(at(-1001, 1, 0), at(1000, 2, 0)), None);
}

// The levels of a lift, its prices, and the largest sums: they stop at the largest number.
#[test]
fn lifts(rt: HostRuntime) {
    for (price, levels, across) in [
        (0, 0, 2),
        (40, 600, 602),
        (4_294_967_295, 64_424_509_425, 64_424_509_427),
    ] {
        let below = Plane;
        let lift = Lift { below, price };
        assert_eq!(rt; lift.widest(), 4_000_000 + levels);
        assert!(rt; lift.admits(at(0, 0, 0)) && lift.admits(at(1_000_000, 0, 15)));
        assert!(rt; !lift.admits(at(0, 0, -1)) && !lift.admits(at(0, 0, 16)));
        assert_eq!(rt; lift.distance(at(0, 0, 0), at(0, 0, 15)), Some(levels));
        assert_eq!(rt; lift.distance(at(1, 2, 0), at(1, 2, 15)), Some(levels));
        assert_eq!(rt; lift.distance(at(0, 0, 15), at(1, 1, 0)), Some(across));
        assert_eq!(rt; lift.distance(at(0, 0, 0), at(0, 0, 16)), None);
        assert_eq!(rt; lift.distance(at(0, 0, -1), at(0, 0, 0)), None);
        assert!(rt; !lift.admits(at(1_000_001, 0, 3)));
        assert!(rt; !lift.admits(at(0, 0, i32::MIN)));
    }
    let below = Vast {
        far: 18_446_744_073_709_551_600,
    };
    for (price, past, short) in [(1, 0, 1), (2, 0, 0), (4_294_967_295, 0, 0)] {
        let lift = Lift { below, price };
        assert_eq!(rt; lift.widest(), u64::MAX);
        assert_eq!(rt; lift.distance(at(0, 0, 0), at(1, 0, 15)), Some(u64::MAX));
        assert_eq!(rt;
            lift.distance(at(7, 0, 15), at(8, 0, 0)),
            Some(u64::MAX - past)
        );
        assert_eq!(rt;
            lift.distance(at(0, 0, 0), at(1, 0, 14)),
            Some(u64::MAX - short)
        );
    }
}
