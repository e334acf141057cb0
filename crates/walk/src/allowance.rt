ghost use Rattle.std.specs.Prelude.{◌≡◌, ◌+◌, ◌*◌, ◌≤◌, MatchOption, Some, nat_lt};
ghost use Rattle.space.specs.declared.TheConstants.{LONGEST};
ghost use Rattle.walk_laws.specs.Walk.{LawfulAllowance};
ghost use Rattle.walk.specs.Limits.{highest, ratio_text};

use std::fmt;

/// The most that p and q of an allowance can be.
pub const ALLOWANCE_LIMIT: u64 = 1000;

/// How much longer than its direct distance D a sink's way may be: q times the way is at most p + q times D.
/// p is at most `ALLOWANCE_LIMIT`, and q is from 1 to `ALLOWANCE_LIMIT`.
#[derive(Clone, Copy, Debug, PartialEq, Eq)]
pub struct Allowance {
    p: u64,
    q: u64,
    ghost within: { LawfulAllowance p q },
}

// Two decimal numbers, `p/q`.
impl fmt::Display for Allowance {
    ghost output = { λ a. Some (ratio_text a.p a.q) };

    fn fmt<W: fmt::Write>(&self, f: &mut fmt::Formatter<W>) -> fmt::Result {
        let Allowance { p, q } = *self;
        write!(f, "{p}/{q}")
    }
}

impl Allowance {
    /// The allowance p/q; `None` where p or q is above `ALLOWANCE_LIMIT`, or q is 0.
    pub fn new(p: u64, q: u64) -> Option<Allowance>
        ensures { MatchOption result (LawfulAllowance p q → ⊥)
            (λ a. LawfulAllowance p q × (a.p ≡ p) × (a.q ≡ q)) }
    {
        if p <= ALLOWANCE_LIMIT && 0 < q && q <= ALLOWANCE_LIMIT {
            Some(Allowance { p, q })
        } else {
            None
        }
    }

    /// The p of p/q.
    pub fn p(self) -> u64
        ensures { result ≡ self.p }
    {
        self.p
    }

    /// The q of p/q, at least 1.
    pub fn q(self) -> u64
        ensures { result ≡ self.q }
    {
        self.q
    }

    /// Whether the estimate `e` of a sink is above what is allowed at its direct distance.
    pub(crate) fn exceeded(self, direct: u64, e: u64) -> bool
        requires near { direct ≤ LONGEST }
        requires low { e ≤ highest }
        ensures { result ≡ nat_lt ((self.p + self.q) * direct) (self.q * e) }
    {
        let Allowance { p, q } = self;
        (p + q) * direct < q * e
    }
}
