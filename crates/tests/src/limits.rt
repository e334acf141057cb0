// The limits, met and passed by one.
use crate::asking::{check_refused, print_of};
use crate::spots::at;
use built_spaces::Plane;
use net::Net;
use space::Joining;
use std::process::Abort;
use std::test::Fail;

// The driver, and 255 sinks to its upper right.
fn add_pins<S: Joining>(rt: &impl Abort, net: &mut Net<S>) -> Result<(), Fail> {
    assert_eq!(rt; net.pin(at(0, 0, 0)).ok(), Some(0));
    for i in 0..255_u8 {
        let k = i32::from(i) + 1;
        assert_eq!(rt;
            net.pin(at(1 + k % 16, 1 + k / 16, 0)).ok(),
            Some(usize::from(i) + 1)
        );
    }
    check_refused(rt, net.pin(at(-1, 0, 0)), 3)
}

// A hub far to the lower left, and 255 points on the way there.
fn add_points<S: Joining>(rt: &impl Abort, net: &mut Net<S>) -> Result<(), Fail> {
    assert_eq!(rt; net.steiner(at(-300, -300, 0)).ok(), Some(256));
    for i in 0..255_u8 {
        let k = -1 - i32::from(i);
        assert_eq!(rt; net.steiner(at(k, k, 0)).ok(), Some(257 + usize::from(i)));
    }
    check_refused(rt, net.steiner(at(-1, 0, 0)), 7)
}

// The sinks on the hub; the hub and the other points on the driver.
fn add_edges<S: Joining>(rt: &impl Abort, net: &mut Net<S>) {
    assert_eq!(rt; net.edge(0, 256).ok(), Some(600));
    for k in 1..256 {
        assert!(rt; net.edge(256, k).is_ok() && net.edge(0, 256 + k).is_ok());
    }
}

// Two share moves fill the tree of 766 rows.
fn check_full<S: Joining>(rt: &impl Abort, net: &mut Net<S>) -> Result<(), Fail> {
    check_refused(rt, net.row(766), 16)?;
    assert_eq!(rt; net.share().ok(), Some(510));
    assert_eq!(rt; net.share().ok(), Some(508));
    let before = print_of(net);
    check_refused(rt, net.share(), 15)?;
    check_refused(rt, net.pin(at(-1, 0, 0)), 3)?;
    check_refused(rt, net.steiner(at(-1, 0, 0)), 7)?;
    check_refused(rt, net.row(768), 16)?;
    assert_eq!(rt; print_of(net), before);
    Ok(())
}

fn check_allowances<S: Joining>(rt: &impl Abort, net: &mut Net<S>) -> Result<(), Fail> {
    for (p, q) in [(1001, 1), (0, 0), (1, 1001), (u64::MAX, u64::MAX)] {
        check_refused(rt, net.allow(p, q), 5)?;
    }
    check_refused(rt, net.straight(), 11)?;
    assert!(rt; net.allow(1000, 1000).is_ok());
    assert!(rt; net.allow(0, 1).is_ok());
    Ok(())
}

// The tree has 512 rows, 254 more where its 255 breakpoints are joined, and two more by two share moves. The numbers were worked out apart
// from this code, by the rules in docs/.
fn check_net<S: Joining>(rt: &impl Abort, net: &mut Net<S>) -> Result<(), Fail> {
    add_pins(rt, net)?;
    add_points(rt, net)?;
    add_edges(rt, net);
    check_allowances(rt, net)?;
    assert_eq!(rt; net.straight().ok(), Some(70_230));
    assert_eq!(rt; net.joined().ok(), Some(66_137));
    assert!(rt; net.row(765).is_ok());
    check_full(rt, net)
}

#[test]
fn limits(rt: HostRuntime) -> Result<(), Fail> {
    let mut net = Net::new(rt.alloc(), Plane)?;
    check_net(&rt, &mut net)
}
