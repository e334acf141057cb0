ghost use Rattle.std.specs.Prelude.{◌≡◌, ◌+◌, ◌*◌, ◌≤◌, ◌&&◌, nat_lt};
ghost use Rattle.space.specs.declared.TheConstants.{LONGEST};
ghost use Rattle.walk.specs.Limits.{highest};

use crate::allowance::Allowance;

/// What a walk goes by: the nodes below `pins` are pins, and the allowance is that of every sink.
#[derive(Clone, Copy)]
pub(crate) struct Rules {
    pub(crate) pins: usize,
    pub(crate) allowance: Allowance,
}

impl Rules {
    /// Whether the node v is a pin other than the driver.
    fn is_sink(self, v: usize) -> bool
        ensures { result ≡ (nat_lt 0 v && nat_lt v self.pins) }
    {
        0 < v && v < self.pins
    }

    /// Whether the node v is a sink, and the estimate `e` is above what is allowed at its direct distance.
    pub(crate) fn breaks(self, v: usize, direct: u64, e: u64) -> bool
        requires near { direct ≤ LONGEST }
        requires low { e ≤ highest }
        ensures { result ≡ (nat_lt 0 v && nat_lt v self.pins
            && nat_lt ((self.allowance.p + self.allowance.q) * direct) (self.allowance.q * e)) }
    {
        self.is_sink(v) && self.allowance.exceeded(direct, e)
    }
}
