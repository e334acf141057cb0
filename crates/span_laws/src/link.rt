ghost use Rattle.span_laws.specs.Links.{link_before};
ghost use Rattle.span_laws.specs.LinkOrder.{link_order};

use order::Rank;

/// A candidate edge between two nodes: the shorter first, then the lower u, then the lower v.
#[derive(Clone, Copy, Debug, PartialEq, Eq)]
pub struct Link {
    /// Its length, in units of the space's distance.
    pub length: u64,
    /// One end, a node's number.
    pub u: usize,
    /// The other end, a node's number.
    pub v: usize,
}

impl Rank for Link {
    ghost before = { link_before };

    ghost order = { link_order };

    fn precedes(&self, other: &Link) -> bool {
        (self.length, self.u, self.v) < (other.length, other.u, other.v)
    }
}
