// Lists of calls by `guarantee`, over spaces of another crate, refused calls among them. Stored jobs have longer lists over the built spaces.
use crate::line::Line;
use crate::spots::at;
use built_spaces::Lift;
use guarantee::guarantee;
use net::Net;
use net_laws::{Call, Fault, JoinCall};
use space::Spot;
use std::process::Abort;
use std::test::Fail;

// A constant calls no function, `Spot::default` neither.
pub(crate) const O: Spot = Spot {
    x: 0,
    y: 0,
    level: 0,
};

pub(crate) const OUT: Spot = Spot {
    x: 0,
    y: 0,
    level: 99,
};

// 103 from the origin in a lift of price 50 over the line.
const HIGH: Spot = Spot {
    x: 3,
    y: 4,
    level: 2,
};

// 3 from the origin on the line.
const NEAR: Spot = Spot {
    x: 3,
    y: 4,
    level: 0,
};

// 6 from the origin on the line.
const FAR: Spot = Spot {
    x: 6,
    y: 8,
    level: 0,
};

// What a call answers: a number, or a refusal by the number that users are told.
pub(crate) type Said = Result<u64, u8>;

const CALLS: [Call; 11] = [
    Call::Hook,
    Call::Pin(O),
    Call::Pin(O),
    Call::Pin(OUT),
    Call::Pin(HIGH),
    Call::Straight,
    Call::Allow(u64::MAX, u64::MAX),
    Call::Allow(1, 4),
    Call::Edge(0, 1),
    Call::Straight,
    Call::Hook,
];

const ANSWERS: [Said; 11] = [
    Err(13),
    Ok(0),
    Err(4),
    Err(2),
    Ok(1),
    Err(11),
    Err(5),
    Ok(0),
    Ok(103),
    Ok(103),
    Err(14),
];

const MORE: [JoinCall; 11] = [
    JoinCall::Wire(Call::Pin(O)),
    JoinCall::Wire(Call::Pin(NEAR)),
    JoinCall::Wire(Call::Pin(FAR)),
    JoinCall::Wire(Call::Allow(0, 1)),
    JoinCall::Wire(Call::Edge(0, 1)),
    JoinCall::Wire(Call::Edge(0, 2)),
    JoinCall::Joined,
    JoinCall::Share,
    JoinCall::Share,
    JoinCall::Wire(Call::Unseed),
    JoinCall::Joined,
];

const OTHERS: [Said; 11] = [
    Ok(0),
    Ok(1),
    Ok(2),
    Ok(0),
    Ok(3),
    Ok(6),
    Ok(9),
    Ok(3),
    Err(14),
    Ok(0),
    Err(12),
];

// Whether the answers are these.
pub(crate) fn check_answers(rt: &impl Abort, answers: &[Result<u64, Fault>], expected: &[Said]) {
    assert_eq!(rt; answers.len(), expected.len());
    for (i, (answer, said)) in answers.iter().zip(expected.iter()).enumerate() {
        let answer = answer.map_err(|fault| fault.number());
        assert_eq!(rt; (i, answer), (i, *said));
    }
}

#[test]
fn lists(rt: HostRuntime) -> Result<(), Fail> {
    let below = Lift {
        below: Line,
        price: 3,
    };
    let mut net = Net::new(rt.alloc(), Lift { below, price: 50 })?;
    let mut other = Net::new(rt.alloc(), Line)?;
    let mut answers = [Ok(0); 11];
    let mut others = [Ok(0); 11];
    let made = guarantee(
        &mut net,
        &CALLS,
        &mut answers,
        &mut other,
        &MORE,
        &mut others,
    );
    assert!(rt; made.wiring == 11 && made.joining == 11);
    check_answers(&rt, &answers, &ANSWERS);
    check_answers(&rt, &others, &OTHERS);
    Ok(())
}

// A row is asked for by its number, which no line of a job does: 13 where there is no tree, 16 where there is no such row.
#[test]
fn rows(rt: HostRuntime) -> Result<(), Fail> {
    let mut net = Net::new(rt.alloc(), Line)?;
    assert!(rt; net.pin(O).is_ok() && net.pin(at(-5, 1, 0)).is_ok());
    assert_eq!(rt; net.row(0).map_err(|fault| fault.number()), Err(13));
    assert!(rt; net.allow(0, 1).is_ok() && net.edge(1, 0) == Ok(5) && net.straight() == Ok(5));
    let row = net.row(1).map_err(|_| "no row")?;
    assert_eq!(rt; (row.parent, row.spot, row.length), (0, at(-5, 1, 0), 5));
    for k in [2, 768, usize::MAX] {
        assert_eq!(rt; net.row(k).map_err(|fault| fault.number()), Err(16));
    }
    Ok(())
}
