// What another crate knows of a net by the contracts of its calls alone: calls that are passed on, and say more of what they answer.
ghost use Rattle.std.specs.Prelude.{◌≡◌, ◌≤◌, ℕ, IfOk, Result as SpecResult, length, min, take};
ghost use Rattle.guarantee.specs.CallsMade.{CallsMade, wired};
ghost use Rattle.net_laws.specs.Answers.{Answers, EdgeAnswer};
ghost use Rattle.net_laws.specs.Readings.{PathAnswer};
ghost use Rattle.net_laws.specs.Spaces.{TiedToSpace, wiring};
ghost use Rattle.net_laws.specs.States.{fresh};
ghost use Rattle.net_laws.specs.declared.call.Call.TheVariants.{Pin as PinCall};
ghost use Rattle.net_laws.specs.declared.fault.Fault.{Fault as NetFault};
ghost use Rattle.space.specs.declared.TheConstants.{LONGEST};

use guarantee::run;
use net::{Call, Fault, Net, PinPath, Space, Spot};
use std::alloc::{AllocError, Global};

/// The path of a pin. Its direct distance is no more than the laws of a space are owed for, whatever was done to the net before.
pub fn path_of<S: Space>(net: &Net<S>, k: usize) -> Result<PinPath, Fault>
    ensures answer { PathAnswer (S.Space.between net.now.space) net.now.state k result }
    ensures within { IfOk result (λ pin. pin.direct ≤ LONGEST) }
{
    net.path(k)
}

/// Adds an edge. Its length is no more than a seed takes.
pub fn edge_of<S: Space>(net: &mut Net<S>, a: usize, b: usize) -> Result<u64, Fault>
    ensures answer { EdgeAnswer (wiring S.Space net.old.space) net.old.state net.new.state a b result }
    ensures within { IfOk result (λ length. length ≤ LONGEST) }
{
    net.edge(a, b)
}

/// A net that was asked to take one pin: it is tied to its space, also where it refused.
pub fn pinned<S: Space + Drop>(heap: Global, space: S, spot: Spot) -> Result<Net<S>, AllocError>
    ensures asked { IfOk result (λ n. (r : SpecResult ℕ NetFault)
        × Answers (wiring S.Space space) fresh n.state (PinCall spot) r) }
    ensures tied { IfOk result (λ n. TiedToSpace S.Space n.space n.state) }
{
    let mut net = Net::new(heap, space)?;
    net.pin(spot).ok();
    Ok(net)
}

/// Makes the calls on a net, as many as there are places for their answers: where it was tied to its space, it is so afterwards.
pub fn called<S: Space>(
    net: &mut Net<S>,
    calls: &[Call],
    answers: &mut [Result<u64, Fault>],
) -> usize
    ensures count { result ≡ min (length calls.now) (length answers.old) }
    ensures made { CallsMade (wiring S.Space net.old.space) net.old.state (wired (take result calls.now))
        (take result answers.new) net.new.state }
    ensures tied { TiedToSpace S.Space net.old.space net.old.state
        → TiedToSpace S.Space net.new.space net.new.state }
{
    run(net, calls, answers)
}
