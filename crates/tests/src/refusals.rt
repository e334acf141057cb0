// Refusals by the calls that give them; the net stays as it was. `turns` has 1, 5 and 8 to 12, `limits` 3, 7 and 15.
use crate::asking::{check_refused, print_of};
use crate::spots::at;
use built_spaces::Plane;
use net::Net;
use space::{Joining, Space};
use std::process::Abort;
use std::test::Fail;

// With fewer than two pins.
fn check_few<S: Joining>(rt: &impl Abort, net: &mut Net<S>) -> Result<(), Fail> {
    check_refused(rt, net.pin(at(1_000_001, 0, 0)), 2)?;
    check_refused(rt, net.steiner(at(0, 0, 0)), 6)?;
    check_refused(rt, net.edge(0, 1), 6)?;
    check_refused(rt, net.straight(), 6)?;
    check_refused(rt, net.joined(), 6)?;
    check_refused(rt, net.row(0), 13)?;
    check_refused(rt, net.path(0), 13)?;
    check_refused(rt, net.worst(), 13)
}

#[test]
fn few(rt: HostRuntime) -> Result<(), Fail> {
    let mut net = Net::new(rt.alloc(), Plane)?;
    check_few(&rt, &mut net)?;
    assert_eq!(rt; net.pin(at(0, 0, 0)).ok(), Some(0));
    check_few(&rt, &mut net)
}

// Over a tree of the pins (0, 0), (4, 3) and (5, 1) that no move shortens.
fn check_standing<S: Joining>(rt: &impl Abort, net: &mut Net<S>) -> Result<(), Fail> {
    let before = print_of(net);
    check_refused(rt, net.pin(at(0, -1_000_001, 0)), 2)?;
    check_refused(rt, net.pin(at(5, 1, 0)), 4)?;
    check_refused(rt, net.allow(0, 0), 5)?;
    check_refused(rt, net.steiner(at(-1_000_001, 0, 0)), 2)?;
    check_refused(rt, net.edge(1, 9), 8)?;
    check_refused(rt, net.edge(2, 1), 9)?;
    check_refused(rt, net.hook(), 14)?;
    check_refused(rt, net.share(), 14)?;
    check_refused(rt, net.row(4), 16)?;
    check_refused(rt, net.path(3), 16)?;
    assert_eq!(rt; print_of(net), before);
    Ok(())
}

// Whether the tree has the four rows that the joining and one share move leave.
fn check_rows<S: Space>(rt: &impl Abort, net: &Net<S>) -> Result<(), Fail> {
    let rows = [
        (0, at(0, 0, 0), 0),
        (3, at(4, 3, 0), 2),
        (3, at(5, 1, 0), 1),
        (0, at(4, 1, 0), 5),
    ];
    for (k, expected) in rows.iter().copied().enumerate() {
        let row = net.row(k).map_err(|_| "no row")?;
        assert_eq!(rt; (row.parent, row.spot, row.length), expected);
    }
    check_refused(rt, net.row(4), 16)
}

#[test]
fn shared(rt: HostRuntime) -> Result<(), Fail> {
    let mut net = Net::new(rt.alloc(), Plane)?;
    for (k, (x, y)) in [(0, 0), (4, 3), (5, 1)].iter().copied().enumerate() {
        assert_eq!(rt; net.pin(at(x, y, 0)).ok(), Some(k));
    }
    assert!(rt; net.allow(0, 1).is_ok() && net.edge(0, 1) == Ok(7) && net.edge(0, 2) == Ok(6));
    check_refused(&rt, net.edge(1, 2), 9)?;
    assert!(rt; net.joined() == Ok(13) && net.share() == Ok(5));
    check_rows(&rt, &net)?;
    check_standing(&rt, &mut net)?;
    check_rows(&rt, &net)
}
