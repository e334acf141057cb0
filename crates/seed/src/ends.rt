// The ends of a seed's edges, by their nodes.
ghost use Rattle.std.specs.Prelude.{◌≡◌, ◌+◌, ◌<◌, ◌≤◌, List, [], ◌∷◌, ◌++◌, length, vec_capacity, true, false, IfOk};
ghost use Rattle.std.specs.Bool.{nat_lt};
ghost use Rattle.std.specs.List.Sorted.{IsNonDecreasingBy, IsPartitionPoint};
ghost use Rattle.forest.specs.declared.Edge.{Edge};
ghost use Rattle.forest.specs.Growth.{LeastOf};
ghost use Rattle.space.specs.declared.TheConstants.{LONGEST};
ghost use Rattle.seed.specs.Ended.{Listed, OneEndMore, place_of};
ghost use Rattle.seed.specs.declared.store.TheConstants.{NODES};

use crate::end::{End, ROW};
use crate::store::NODES;
use forest::Edge;
use std::alloc::{AllocError, Global};

/// Both ends of each edge, by the node and, at one node, by the node across, with room for `NODES` edges.
#[derive(Drop)]
pub(crate) struct Ends {
    sorted: Vec<End>,
    ghost room: { NODES + NODES ≤ vec_capacity sorted },
    ghost rises: { IsNonDecreasingBy place_of sorted.items },
}

impl Ends {
    /// No ends yet.
    pub(crate) fn new(heap: Global) -> Result<Ends, AllocError>
        ensures { IfOk result (λ l. l.sorted.items ≡ []) }
    {
        let sorted = Vec::with_capacity(heap, NODES + NODES)?;
        Ok(Ends { sorted })
    }

    /// Leaves no ends.
    pub(crate) fn clear(&mut self)
        ensures { self.new.sorted.items ≡ [] }
    {
        self.sorted.clear();
    }

    /// Where the ends begin that stand at `place` or later.
    fn begin(&self, place: usize) -> usize
        ensures within { result ≤ length self.now.sorted.items }
        ensures parts { IsPartitionPoint (λ e. nat_lt (place_of e) place ≡ true) (λ e. nat_lt (place_of e) place ≡ false)
            self.now.sorted.items result }
    {
        self.sorted.as_slice().partition_point(
            |end: &End| -> bool
                ensures { result ≡ nat_lt (place_of end.now) place }
            { end.node as usize * ROW + (end.across as usize) < place },
        )
    }

    fn add(&mut self, end: End)
        requires { length self.old.sorted.items < NODES + NODES }
        ensures count { length self.new.sorted.items ≡ length self.old.sorted.items + 1 }
        ensures added { OneEndMore self.old.sorted.items end self.new.sorted.items }
    {
        let at = self.begin(end.node as usize * ROW + end.across as usize);
        self.sorted.insert(at, end).unwrap();
    }

    /// Adds both ends of an edge.
    pub(crate) fn join(&mut self, edge: Edge)
        requires room { length self.old.sorted.items + 2 ≤ NODES + NODES }
        requires a { edge.a < NODES }
        requires b { edge.b < NODES }
        requires long { edge.length ≤ LONGEST }
        ensures count { length self.new.sorted.items ≡ length self.old.sorted.items + 2 }
        ensures listed { (E : List Edge) → Listed E self.old.sorted.items → Listed (E ++ edge ∷ []) self.new.sorted.items }
    {
        let (a, b) = (edge.a as u16, edge.b as u16);
        let length = edge.length as u32;
        self.add(End {
            across: b,
            node: a,
            length,
        });
        self.add(End {
            across: a,
            node: b,
            length,
        });
    }

    /// The least node at or after `next` and other than `from` to which an end at `v` leads, with the length of its edge.
    pub(crate) fn least(&self, v: usize, from: usize, next: usize) -> Option<(usize, u64)>
        requires { v < NODES }
        ensures { (E : List Edge) → Listed E self.now.sorted.items → LeastOf E v from next result }
    {
        let begin = self.begin(v * ROW + next.min(NODES));
        for i in begin..self.sorted.len() {
            let end = self.sorted[i];
            if end.across as usize != from {
                if end.node as usize != v {
                    return None;
                }
                return Some((end.across as usize, end.length as u64));
            }
        }
        None
    }
}
