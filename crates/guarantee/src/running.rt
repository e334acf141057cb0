// Lists of calls, made on a net.
ghost use Rattle.std.specs.Prelude.{◌≡◌, ℕ, ◌≤◌, min, map, length, take, Result as SpecResult, slice_index_or};
ghost use Rattle.net_laws.specs.Spaces.{joining as joiningGeometry, wiring as wiringGeometry};
ghost use Rattle.net_laws.specs.declared.fault.Fault.{Fault as NetFault};
ghost use Rattle.net_laws.specs.Guarantee.{RunsKeep};
ghost use Rattle.guarantee.specs.CallsMade.{CallsMade, TiedIn, wired};

use crate::answering::NetCall;
use net::Net;
use net_laws::{Call, Fault, JoinCall};
use space::{Joining, Space};

/// Makes the calls on the net in their order, as many as there are places for their answers, and writes each answer down. Answers how many
/// were made; the places past them stay.
pub fn run<S: Space, C: NetCall<S>>(
    net: &mut Net<S>,
    calls: &[C],
    answers: &mut [Result<u64, Fault>],
) -> usize
    ensures count { result ≡ min (length calls.now) (length answers.old) }
    ensures kept { CallsMade (C.geometry net.old.space) net.old.state (map C.among (take result calls.now)) (take result answers.new)
        net.new.state }
    ensures rest { (k : ℕ) (d : SpecResult ℕ NetFault) → result ≤ k →
        slice_index_or answers.new k d ≡ slice_index_or answers.old k d }
    ensures stays { net.new.space ≡ net.old.space }
    ensures tied { TiedIn (C.geometry net.old.space) net.old.state → TiedIn (C.geometry net.old.space) net.new.state }
{
    let count = calls.len().min(answers.len());
    for (i, call) in calls[..count].iter().enumerate() {
        answers[i] = call.make(net);
    }
    count
}

/// How many calls were made on each of two nets.
#[derive(Clone, Copy, Debug, PartialEq, Eq)]
pub struct CallCounts {
    /// On the one in the wiring space.
    pub wiring: usize,
    /// On the one in the joining space.
    pub joining: usize,
}

/// The guarantee, whole: for every wiring space and every list of its calls, and for every joining space and every list of its calls, made in
/// their order. Each call is answered as its own contract says, and on a new net all that `docs/guarantee.md` says holds afterwards.
pub fn guarantee<W: Space, J: Joining>(
    wiring: &mut Net<W>,
    calls: &[Call],
    answers: &mut [Result<u64, Fault>],
    joining: &mut Net<J>,
    joining_calls: &[JoinCall],
    joining_answers: &mut [Result<u64, Fault>],
) -> CallCounts
    ensures wiring_count { result.wiring ≡ min (length calls.now) (length answers.old) }
    ensures wiring { CallsMade (wiringGeometry W.Space wiring.old.space) wiring.old.state (wired (take result.wiring calls.now))
        (take result.wiring answers.new) wiring.new.state }
    ensures wiring_rest { (k : ℕ) (d : SpecResult ℕ NetFault) → result.wiring ≤ k →
        slice_index_or answers.new k d ≡ slice_index_or answers.old k d }
    ensures wiring_stays { wiring.new.space ≡ wiring.old.space }
    ensures joining_count { result.joining ≡ min (length joining_calls.now) (length joining_answers.old) }
    ensures joining { CallsMade (joiningGeometry J.Space J.Joining.own joining.old.space) joining.old.state
        (take result.joining joining_calls.now) (take result.joining joining_answers.new) joining.new.state }
    ensures joining_rest { (k : ℕ) (d : SpecResult ℕ NetFault) → result.joining ≤ k →
        slice_index_or joining_answers.new k d ≡ slice_index_or joining_answers.old k d }
    ensures joining_stays { joining.new.space ≡ joining.old.space }
{
    let first = run(wiring, calls, answers);
    let second = run(joining, joining_calls, joining_answers);
    CallCounts {
        wiring: first,
        joining: second,
    }
}

/// The guarantee as a law over runs: over every space that keeps the laws, after every run of calls on a new net. Whoever makes the calls one by one has it
/// by their own contracts. The call does nothing.
pub fn runs_keep()
    ensures { RunsKeep }
{}
