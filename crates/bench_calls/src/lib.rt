// The net's calls without text, for the benchmark in C++.
#![tactic(auto)]

use net::{Air, Fault, Joining, Lift, Net, Plane, Space, Spot};
use std::alloc::Global;

/// What a call answered, as one number: its value, or 1,000,000,000,000 and the number of its refusal.
fn told(answer: Result<u64, Fault>) -> u64 {
    match answer {
        Ok(value) => value,
        Err(fault) => 1_000_000_000_000 + u64::from(fault.number()),
    }
}

/// Mixes one more number into a sum.
fn mixed(sum: u64, value: u64) -> u64 {
    (sum ^ value).wrapping_mul(0x100_0000_01B3)
}

/// All rows of the tree as one number.
fn rows<S: Space>(net: &Net<S>) -> u64 {
    let Ok(count) = net.rows() else {
        return 0;
    };
    let mut sum = 0;
    for k in 0..count {
        if let Ok(row) = net.row(k) {
            sum = mixed(sum, row.parent as u64);
            sum = mixed(sum, u64::from(row.spot.x.unsigned_abs()));
            sum = mixed(sum, u64::from(row.spot.y.unsigned_abs()));
            sum = mixed(sum, row.length);
        }
    }
    sum
}

/// The path of each pin, and the worst sink, as one number.
fn paths<S: Space>(net: &Net<S>, pins: usize) -> u64 {
    let mut sum = 0;
    for k in 0..pins {
        if let Ok(pin) = net.path(k) {
            sum = mixed(sum, pin.path);
        }
    }
    if let Ok(worst) = net.worst() {
        sum = mixed(sum, worst.figure);
    }
    sum
}

/// Makes a call that every wiring space has.
fn wired<S: Space>(net: &mut Net<S>, call: &[i32]) -> u64 {
    match *call {
        [1, x, y, level] => told(net.pin(Spot { x, y, level }).map(|pin| pin as u64)),
        [2, p, q, _] => told(
            net.allow(p.unsigned_abs() as u64, q.unsigned_abs() as u64)
                .map(|_| 0),
        ),
        [3, x, y, level] => told(net.steiner(Spot { x, y, level }).map(|point| point as u64)),
        [4, a, b, _] => told(net.edge(a.unsigned_abs() as usize, b.unsigned_abs() as usize)),
        [5, _, _, _] => {
            net.unseed();
            0
        }
        [6, _, _, _] => told(net.span()),
        [7, _, _, _] => told(net.straight()),
        [8, _, _, _] => told(net.hook()),
        [9, _, _, _] => rows(net),
        [10, pins, _, _] => paths(net, pins.unsigned_abs() as usize),
        _ => 0,
    }
}

/// Makes a call on a net over a joining space.
fn joined<S: Joining>(net: &mut Net<S>, call: &[i32]) -> u64 {
    match *call {
        [11, _, _, _] => told(net.joined()),
        [12, _, _, _] => told(net.share()),
        _ => wired(net, call),
    }
}

fn on_wiring<S: Space + Drop>(heap: Global, space: S, calls: &[i32]) -> u64 {
    let Ok(mut net) = Net::new(heap, space) else {
        return 0;
    };
    let mut sum = 0;
    for call in calls.chunks_exact(4) {
        sum = mixed(sum, wired(&mut net, call));
    }
    sum
}

fn on_joining<S: Joining + Drop>(heap: Global, space: S, calls: &[i32]) -> u64 {
    let Ok(mut net) = Net::new(heap, space) else {
        return 0;
    };
    let mut sum = 0;
    for call in calls.chunks_exact(4) {
        sum = mixed(sum, joined(&mut net, call));
    }
    sum
}

/// Makes a new net over plane (0), air (1), plane under a lift (2) or air under a lift (3), and calls it: each four numbers are a call. Answers what
/// all calls answered, mixed into one number.
#[unsafe(no_mangle)]
pub extern "C" fn bench_calls(heap: Global, space: u32, price: u32, calls: &[i32]) -> u64 {
    match space {
        0 => on_joining(heap, Plane, calls),
        1 => on_wiring(heap, Air, calls),
        2 => on_joining(
            heap,
            Lift {
                below: Plane,
                price,
            },
            calls,
        ),
        _ => on_wiring(heap, Lift { below: Air, price }, calls),
    }
}
