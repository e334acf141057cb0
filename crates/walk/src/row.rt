ghost use Rattle.std.specs.Prelude.{◌≡◌, ◌≤◌, ◌&&◌, nat_lt};
ghost use Rattle.space.specs.declared.TheConstants.{LONGEST};
ghost use Rattle.walk_laws.specs.Walk.{offered};
ghost use Rattle.walk.specs.Limits.{Low};
ghost use Rattle.walk.specs.Marks.{mark_of, entered_by, fresh_mark, fresh_row, opened, placed};

use crate::rules::Rules;

/// What the walk knows of a node: its estimate, if it has one, its parent, the length of the edge to that parent, and whether it is
/// a breakpoint. The driver, and a node without an estimate, have the parent 0 and the edge 0.
#[derive(Clone, Copy, Debug, PartialEq, Eq, Default, Drop)]
pub struct Mark {
    /// The length of the way by which the walk reached the node; `None` where it has not.
    pub est: Option<u64>,
    /// The neighbour on which the node hangs.
    pub parent: usize,
    /// The length of the edge to the parent.
    pub edge: u64,
    /// Whether the node broke off. Later offers still change the values beside it.
    pub broken: bool,
}

/// A node's mark and direct distance, and the walk's place there: where it came from, over an edge of which length, and the next child to
/// try. The place lies in the rows, so that the walk needs no stack. The driver counts as entered from itself.
#[derive(Clone, Copy, Debug, PartialEq, Eq, Drop)]
pub(crate) struct NodeRow {
    pub(crate) mark: Mark,
    pub(crate) direct: u64,
    pub(crate) from: usize,
    pub(crate) from_length: u64,
    pub(crate) next: usize,
}

impl Mark {
    /// The mark of the node k before the walk: the driver's estimate is 0, and no other node has one.
    fn fresh(k: usize) -> Mark
        ensures { result ≡ fresh_mark k }
    {
        let est = (k == 0).then_some(0);
        Mark {
            est,
            ..Mark::default()
        }
    }

    /// The mark once u has offered the estimate e over an edge of length l.
    pub(crate) fn offered(self, u: usize, l: u64, e: u64) -> Mark
        ensures { mark_of result ≡ offered u l e self.est (mark_of self) }
    {
        let better = self.est.is_none_or(|f| e < f || e == f && l < self.edge);
        if better {
            Mark {
                est: Some(e),
                parent: u,
                edge: l,
                ..self
            }
        } else {
            self
        }
    }

    /// The mark once its node v, at this direct distance, is entered.
    pub(crate) fn entered(self, v: usize, direct: u64, rules: Rules) -> Mark
        requires near { direct ≤ LONGEST }
        requires room { Low self.est 0 }
        ensures { mark_of result ≡ entered_by (nat_lt 0 v && nat_lt v rules.pins)
            rules.allowance.p rules.allowance.q direct self.est (mark_of self) }
    {
        match self.est {
            Some(e) if rules.breaks(v, direct, e) => Mark {
                est: Some(direct),
                broken: true,
                ..self
            },
            _ => self,
        }
    }
}

impl NodeRow {
    /// The row of the node k before the walk.
    pub(crate) fn fresh(k: usize, direct: u64) -> NodeRow
        ensures { result ≡ fresh_row k direct }
    {
        NodeRow {
            mark: Mark::fresh(k),
            direct,
            from: 0,
            from_length: 0,
            next: 0,
        }
    }

    /// The node u offers the row's node the estimate e, over an edge of length l.
    pub(crate) fn offer(&mut self, u: usize, l: u64, e: u64)
        ensures mark { mark_of self.new.mark ≡ offered u l e self.old.mark.est (mark_of self.old.mark) }
        ensures place { self.new ≡ placed self.new.mark self.old }
    {
        self.mark = self.mark.offered(u, l, e);
    }

    /// The walk enters the row's node v from the node `from`, over an edge of length `from_length`.
    pub(crate) fn enter(&mut self, v: usize, from: usize, from_length: u64, rules: Rules)
        requires near { self.old.direct ≤ LONGEST }
        requires room { Low self.old.mark.est 0 }
        ensures mark { mark_of self.new.mark ≡ entered_by (nat_lt 0 v && nat_lt v rules.pins)
            rules.allowance.p rules.allowance.q self.old.direct self.old.mark.est (mark_of self.old.mark) }
        ensures place { self.new ≡ opened self.new.mark self.old.direct from from_length }
    {
        self.mark = self.mark.entered(v, self.direct, rules);
        self.from = from;
        self.from_length = from_length;
        self.next = 0;
    }
}
