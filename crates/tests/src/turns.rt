// Lists of calls over several spaces, with calls out of turn, repeated calls and refused ones among them.
use crate::line::Line;
use crate::lists::{O, OUT, Said, check_answers};
use built_spaces::{Air, Lift, Plane};
use guarantee::{guarantee, run};
use net::Net;
use net_laws::{Call, JoinCall};
use space::{Joining, Space, Spot};
use std::process::Abort;
use std::test::Fail;

// Calls, and what they answer where `first` is so far from the driver.
fn calls(first: Spot, one: u64) -> [(Call, Said); 30] {
    [
        (Call::Hook, Err(13)),
        (Call::Span, Err(6)),
        (Call::Straight, Err(6)),
        (Call::Steiner(O), Err(6)),
        (Call::Pin(O), Ok(0)),
        (Call::Pin(O), Err(4)),
        (Call::Pin(OUT), Err(2)),
        (Call::Edge(0, 0), Err(6)),
        (Call::Pin(first), Ok(1)),
        (Call::Straight, Err(11)),
        (Call::Allow(1, 0), Err(5)),
        (Call::Allow(1, 4), Ok(0)),
        (Call::Straight, Err(12)),
        (Call::Edge(0, 1), Ok(one)),
        (Call::Edge(1, 0), Err(9)),
        (Call::Straight, Ok(one)),
        (Call::Straight, Ok(one)),
        (Call::Hook, Err(14)),
        (Call::Pin(OUT), Err(2)),
        (Call::Hook, Err(14)),
        (Call::Steiner(O), Ok(2)),
        (Call::Hook, Err(13)),
        (Call::Edge(0, 2), Err(10)),
        (Call::Edge(2, 3), Err(8)),
        (Call::Straight, Err(12)),
        (Call::Span, Ok(one)),
        (Call::Straight, Ok(one)),
        (Call::Unseed, Ok(0)),
        (Call::Unseed, Ok(0)),
        (Call::Straight, Err(12)),
    ]
}

// The same over a joining space, with a second pin on the way that goes by the first.
fn more_calls(first: Spot, one: u64, second: Spot, two: u64) -> [(JoinCall, Said); 22] {
    let both = one.saturating_add(two);
    [
        (JoinCall::Share, Err(13)),
        (JoinCall::Joined, Err(6)),
        (JoinCall::Wire(Call::Pin(O)), Ok(0)),
        (JoinCall::Wire(Call::Pin(first)), Ok(1)),
        (JoinCall::Wire(Call::Pin(second)), Ok(2)),
        (JoinCall::Joined, Err(11)),
        (JoinCall::Wire(Call::Allow(0, 1)), Ok(0)),
        (JoinCall::Joined, Err(12)),
        (JoinCall::Wire(Call::Edge(0, 1)), Ok(one)),
        (JoinCall::Wire(Call::Edge(0, 2)), Ok(two)),
        (JoinCall::Joined, Ok(both)),
        (JoinCall::Share, Ok(one)),
        (JoinCall::Share, Err(14)),
        (JoinCall::Joined, Ok(both)),
        (JoinCall::Wire(Call::Hook), Ok(one)),
        (JoinCall::Share, Err(14)),
        (JoinCall::Wire(Call::Pin(O)), Err(4)),
        (JoinCall::Wire(Call::Pin(OUT)), Err(2)),
        (JoinCall::Wire(Call::Hook), Err(14)),
        (JoinCall::Wire(Call::Unseed), Ok(0)),
        (JoinCall::Share, Err(13)),
        (JoinCall::Joined, Err(12)),
    ]
}

// Both lists, with the pins at (3, 4) and (6, 8) on the level: the first `near` from the driver in the wiring space, and the two so far in the
// joining space.
fn check_lists<W: Space + Drop, J: Joining + Drop>(
    rt: &(impl Abort + AllocGlobal),
    wiring: W,
    near: u64,
    joining: J,
    far: [u64; 2],
    level: i32,
) -> Result<(), Fail> {
    let first = Spot { x: 3, y: 4, level };
    let second = Spot { x: 6, y: 8, level };
    let [one, two] = far;
    let wires = calls(first, near);
    let joins = more_calls(first, one, second, two);
    let mut net = Net::new(rt.alloc(), wiring)?;
    let mut other = Net::new(rt.alloc(), joining)?;
    let mut answers = [Ok(0); 30];
    let mut others = [Ok(0); 22];
    let made = guarantee(
        &mut net,
        &wires.map(|(call, _)| call),
        &mut answers,
        &mut other,
        &joins.map(|(call, _)| call),
        &mut others,
    );
    assert!(rt; made.wiring == 30 && made.joining == 22);
    check_answers(rt, &answers, &wires.map(|(_, said)| said));
    check_answers(rt, &others, &joins.map(|(_, said)| said));
    Ok(())
}

#[test]
fn flat(rt: HostRuntime) -> Result<(), Fail> {
    check_lists(&rt, Air, 5, Plane, [7, 14], 0)?;
    check_lists(&rt, Plane, 7, Line, [3, 6], 0)
}

#[test]
fn lifted(rt: HostRuntime) -> Result<(), Fail> {
    let air = Lift {
        below: Air,
        price: 40,
    };
    let below = Lift {
        below: Plane,
        price: 40,
    };
    let lift = Lift { below, price: 3 };
    check_lists(&rt, air, 85, below, [87, 94], 2)?;
    check_lists(&rt, lift, 13, lift, [13, 20], 2)
}

#[test]
fn too_wide(rt: HostRuntime) -> Result<(), Fail> {
    let wide = Lift {
        below: Air,
        price: 4_294_967_295,
    };
    let mut net = Net::new(rt.alloc(), wide)?;
    let calls = [Call::Pin(O), Call::Pin(OUT), Call::Span, Call::Unseed];
    let mut answers = [Ok(0); 4];
    assert_eq!(rt; run(&mut net, &calls, &mut answers), 4);
    check_answers(&rt, &answers, &[Err(1), Err(1), Err(6), Ok(0)]);
    Ok(())
}
