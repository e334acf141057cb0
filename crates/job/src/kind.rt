ghost use Rattle.std.specs.Prelude.{◌≡◌, Bool, true, false, is_some, IfSome, refl};
ghost use Rattle.job.specs.Stages.{has};

use guarantee::NetCall;
use net_laws::{Call, JoinCall};
use space::{Joining, Space};

/// A kind of call, and which of the calls of a job it has.
pub(crate) trait JobCall<S: Space>: NetCall<S> + Copy {
    // Whether the space joins.
    ghost joins: { Bool };

    /// The call as one of this kind; nothing exactly where the space has not this call.
    fn of(call: JoinCall) -> Option<Self>
        ensures has { is_some result ≡ has joins call }
        ensures same { IfSome result (λ c. Self.NetCall.among c ≡ call) };

    // Calls of this kind go by the space's own distance.
    ghost measures: { (s : S) → (Self.NetCall.geometry s).between ≡ S.Space.between s };
}

impl<S: Space> JobCall<S> for Call {
    ghost joins = { false };

    ghost measures = { λ s. refl };

    fn of(call: JoinCall) -> Option<Call> {
        match call {
            JoinCall::Wire(call) => Some(call),
            _ => None,
        }
    }
}

impl<S: Joining> JobCall<S> for JoinCall {
    ghost joins = { true };

    ghost measures = { λ s. refl };

    fn of(call: JoinCall) -> Option<JoinCall> {
        Some(call)
    }
}
