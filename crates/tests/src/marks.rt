// Walks over whole seeds, held to marks that were worked out by hand.
use crate::spots::at;
use built_spaces::Plane;
use seed::Seed;
use space::{Space, Spot, spot_of};
use std::alloc::Global;
use std::process::Abort;
use std::test::Fail;
use walk::{Allowance, Walk};

// A seed, and a row for each of its nodes.
#[derive(Drop)]
struct Walked {
    seed: Seed,
    rows: Walk,
}

impl Walked {
    // n nodes without edges, and the driver's row.
    fn new(heap: Global, n: usize) -> Result<Walked, Fail> {
        let mut seed = Seed::new(heap)?;
        let mut rows = Walk::new(heap)?;
        seed.restart(n)?;
        rows.add(0).ok_or("no row")?;
        Ok(Walked { seed, rows })
    }

    // One more edge, and one more row.
    fn grow(&mut self, a: usize, b: usize, length: u64, direct: u64) -> Result<(), Fail> {
        self.seed.join(a, b, length)?;
        self.rows.add(direct).ok_or("no row")?;
        Ok(())
    }

    // How many breakpoints a walk with the allowance p/q makes; nothing where the seed is not walked.
    fn broken(&mut self, pins: usize, p: u64, q: u64) -> Option<usize> {
        let allowance = Allowance::new(p, q)?;
        let tree = self.seed.as_tree()?;
        self.rows.walk(&tree, pins, allowance).ok()?;
        Some(self.rows.breakpoints())
    }

    // Whether the row k has this estimate and this parent, and is a breakpoint or not.
    fn stands(&self, k: usize, est: u64, parent: usize, broken: bool) -> bool {
        self.rows.mark(k).is_some_and(|mark| {
            mark.est == Some(est) && mark.parent == parent && mark.broken == broken
        })
    }
}

// A daisy chain of 512 nodes with edges of length 10, laid round in a ring: the nodes from 257 on are nearer the other way round.
#[test]
fn chain(rt: HostRuntime) -> Result<(), Fail> {
    let mut net = Walked::new(rt.alloc(), 512)?;
    for v in 1..512 {
        let steps = if v <= 256 { v } else { 512 - v };
        net.grow(v - 1, v, 10, steps as u64 * 10)?;
    }
    assert_eq!(rt; net.broken(512, 1, 4), Some(32));
    for (k, est, parent, broken) in [
        (0, 0, 0, false),
        (256, 2560, 255, false),
        (257, 2550, 258, false),
        (284, 2280, 285, false),
        (285, 2270, 284, true),
        (310, 2020, 311, false),
        (311, 2010, 310, true),
        (511, 10, 510, true),
    ] {
        assert!(rt; net.stands(k, est, parent, broken), "row {k}");
    }
    assert_eq!(rt; net.broken(512, 1000, 1), Some(0));
    for v in 1..512 {
        assert!(rt; net.stands(v, v as u64 * 10, v - 1, false), "row {v}");
    }
    Ok(())
}

// The hub 1 is 10 from the driver and 10 from each other node; an even node is as far from the driver as by the hub, an odd one is not.
#[test]
fn star(rt: HostRuntime) -> Result<(), Fail> {
    let mut net = Walked::new(rt.alloc(), 512)?;
    net.grow(0, 1, 10, 10)?;
    for v in 2..512 {
        net.grow(v, 1, 10, if v % 2 == 0 { 20 } else { 12 })?;
    }
    assert_eq!(rt; net.broken(512, 1, 2), Some(255));
    assert!(rt; net.stands(1, 10, 0, false) && net.stands(510, 20, 1, false));
    assert!(rt; net.stands(511, 12, 1, true));
    Ok(())
}

// The pins 1 to 255 are each 5 from their point of the spine; an even one is no further from the driver than that point. The spine is the
// Steiner points from 256 on, 10 apart and each said to stand on the driver.
#[test]
fn comb(rt: HostRuntime) -> Result<(), Fail> {
    let mut net = Walked::new(rt.alloc(), 511)?;
    for i in 1..256 {
        let more = if i % 2 == 0 { 0 } else { 5 };
        net.grow(255 + i, i, 5, i as u64 * 10 + more)?;
    }
    for v in 256..511 {
        net.grow(if v == 256 { 0 } else { v - 1 }, v, 10, 0)?;
    }
    assert_eq!(rt; net.broken(256, 0, 1), Some(127));
    assert!(rt; net.stands(254, 2540, 509, true) && net.stands(255, 2555, 510, false));
    assert!(rt; net.stands(510, 2550, 509, false));
    assert_eq!(rt; net.broken(0, 0, 1), Some(0), "no pins");
    assert_eq!(rt; net.broken(600, 0, 1), Some(255), "the whole spine");
    Ok(())
}

#[test]
fn unwalked(rt: HostRuntime) -> Result<(), Fail> {
    let mut net = Walked::new(rt.alloc(), 0)?;
    assert!(rt; net.broken(0, 1, 4).is_none(), "no nodes");
    assert!(rt; net.seed.restart(2).is_ok() && net.rows.add(7).is_some());
    assert!(rt; net.broken(2, 1, 4).is_none(), "two parts");
    assert!(rt; net.seed.join(0, 1, 7).is_ok() && net.broken(2, 1, 4) == Some(0));
    assert!(rt; net.broken(2, 1, 0).is_none(), "no allowance");
    assert!(rt; net.rows.add(3).is_some() && net.broken(2, 1, 4).is_none());
    Ok(())
}

// The marks of the walk over the seed that joins each pin with the next: estimate, parent, length and whether it is a breakpoint.
fn check_walk(
    rt: &(impl Abort + AllocGlobal),
    pins: &[Spot],
    p: u64,
    q: u64,
    marks: &[(u64, usize, u64, bool)],
) -> Result<(), Fail> {
    let mut net = Walked::new(rt.alloc(), pins.len())?;
    for (i, pair) in pins.windows(2).enumerate() {
        let [a, b] = pair else {
            return Err(Fail::new("no pair"));
        };
        let length = Plane.distance(*a, *b).ok_or("no distance")?;
        let direct = Plane.distance(spot_of(pins, 0), *b).ok_or("no distance")?;
        net.grow(i, i.saturating_add(1), length, direct)?;
    }
    assert!(rt; net.broken(pins.len(), p, q).is_some());
    for (i, (est, parent, edge, broken)) in marks.iter().copied().enumerate() {
        let mark = net.rows.mark(i).ok_or("no row")?;
        assert_eq!(rt; (mark.est, mark.parent), (Some(est), parent));
        assert_eq!(rt; (mark.edge, mark.broken), (edge, broken));
    }
    Ok(())
}

#[test]
fn worked(rt: HostRuntime) -> Result<(), Fail> {
    let square = [at(0, 0, 0), at(6, 0, 0), at(6, 6, 0), at(0, 6, 0)];
    let mut marks = [
        (0, 0, 0, false),
        (6, 0, 6, false),
        (12, 1, 6, false),
        (18, 2, 6, false),
    ];
    check_walk(&rt, &square, 2, 1, &marks)?;
    marks[3] = (6, 2, 6, true);
    check_walk(&rt, &square, 199, 100, &marks)?;
    let corner = [at(0, 0, 0), at(5, 5, 0), at(5, 0, 0)];
    let marks = [(0, 0, 0, false), (10, 2, 5, false), (5, 1, 5, true)];
    check_walk(&rt, &corner, 0, 1, &marks)?;
    let fork = [at(0, 0, 0), at(-6, 0, 0), at(4, 3, 0), at(5, 1, 0)];
    let marks = [
        (0, 0, 0, false),
        (6, 0, 6, false),
        (7, 1, 13, true),
        (6, 2, 3, true),
    ];
    check_walk(&rt, &fork, 0, 1, &marks)
}
