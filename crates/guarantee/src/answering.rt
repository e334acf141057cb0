// One call out of a list.
ghost use Rattle.std.specs.Prelude.{◌≡◌};
ghost use Rattle.net_laws.proofs.Owned.{own_meets};
ghost use Rattle.net_laws.specs.Answers.{JoinAnswers};
ghost use Rattle.net_laws.specs.Geometry.{Geometry};
ghost use Rattle.net_laws.specs.Spaces.{Keeps, joining, wiring};
ghost use Rattle.net_laws.specs.declared.call.JoinCall.{JoinCall as AnyCall};
ghost use Rattle.net_laws.specs.declared.call.JoinCall.TheVariants.{Wire};
ghost use Rattle.guarantee.specs.CallsMade.{counted};

use net::Net;
use net_laws::{Call, Fault, JoinCall};
use space::{Joining, Space};

/// A kind of call that nets in the spaces `S` take: `Call` over every wiring space, `JoinCall` over every joining one.
pub trait NetCall<S: Space> {
    // The call among those of all kinds.
    ghost among: { Self → AnyCall };

    // What a space is to the calls of this kind.
    ghost geometry: { S → Geometry };

    /// Makes the call, and answers as the method of the net that it stands for; 0 where that answers no number. A refusal leaves the net as it was.
    fn make(&self, net: &mut Net<S>) -> Result<u64, Fault>
        ensures answer { JoinAnswers (geometry net.old.space) net.old.state net.new.state (among self.now) result }
        ensures stays { net.new.space ≡ net.old.space };

    // Every space keeps the laws.
    ghost keeps: { (s : S) → Keeps (geometry s) };
}

/// The number of a node as an answer.
fn number(answer: Result<usize, Fault>) -> Result<u64, Fault>
    ensures { result ≡ answer }
{
    // Both types have 64 bits, and there is no `From` between them.
    answer.map(|k| k as u64)
}

/// An answer without a number, as 0.
fn count(answer: Result<(), Fault>) -> Result<u64, Fault>
    ensures { result ≡ counted answer }
{
    answer.map(|()| 0)
}

impl<S: Space> NetCall<S> for Call {
    ghost among = { Wire };

    ghost geometry = { wiring S.Space };

    fn make(&self, net: &mut Net<S>) -> Result<u64, Fault> {
        match *self {
            Call::Pin(spot) => number(net.pin(spot)),
            Call::Allow(p, q) => count(net.allow(p, q)),
            Call::Steiner(spot) => number(net.steiner(spot)),
            Call::Edge(a, b) => net.edge(a, b),
            Call::Unseed => {
                net.unseed();
                Ok(0)
            }
            Call::Span => net.span(),
            Call::Straight => net.straight(),
            Call::Hook => net.hook(),
        }
    }

    ghost keeps = { λ s. record { metric = S.metric s; meets = λ h. own_meets _ _ _ (S.metric s h) } };
}

impl<S: Joining> NetCall<S> for JoinCall {
    ghost among = { λ c. c };

    ghost geometry = { joining S.Space S.Joining.own };

    fn make(&self, net: &mut Net<S>) -> Result<u64, Fault> {
        match *self {
            JoinCall::Wire(call) => call.make(net),
            JoinCall::Joined => net.joined(),
            JoinCall::Share => net.share(),
        }
    }

    ghost keeps = { λ s. record { metric = S.metric s; meets = S.meets s } };
}
