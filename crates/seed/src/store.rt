ghost use Rattle.std.specs.Prelude.{◌≡◌, ◌+◌, ◌<◌, ◌≤◌, ◌↔◌, [], length, vec_capacity, IfOk, IsTrue};
ghost use Rattle.forest.specs.Edges.{Fit, Joined, Sound, edge, wire};
ghost use Rattle.forest.specs.Growth.{Grows, LeastOf, head_of};
ghost use Rattle.forest.specs.Rooted.{Forest};
ghost use Rattle.seed.specs.Ended.{Listed};
ghost use Rattle.seed.specs.Labelled.{Labelled};
ghost use Rattle.seed.specs.declared.store.TheConstants.{NODES};

use crate::ends::Ends;
use crate::labels::Labels;
use forest::Edge;
use std::alloc::{AllocError, Global};
use std::marker::Model;
use thiserror::Error;

/// The most nodes that a seed can have.
pub const NODES: usize = 512;

/// The greatest length of an edge.
pub use space::LONGEST;

/// Why a request is refused.
#[derive(Clone, Copy, Debug, Drop, PartialEq, Eq, Error)]
pub enum SeedFault {
    /// A number that is no node, or too many nodes.
    #[error("a number that is no node, or too many nodes")]
    Outside,
    /// The ends are joined already.
    #[error("the ends are joined already")]
    Joined,
    /// The length is 0.
    #[error("the length is 0")]
    Short,
    /// The length is above `LONGEST`.
    #[error("the length is above {LONGEST}")]
    Long,
}

/// Nodes numbered from 0, and edges between them of which none closes a loop.
#[derive(Drop)]
pub struct Seed {
    edges: Vec<Edge>,
    labels: Labels,
    ends: Ends,
    ghost few: { length labels.of.items ≤ NODES },
    ghost room: { NODES ≤ vec_capacity edges },
    ghost fewer: { length edges.items ≤ length labels.of.items },
    ghost sound: { Sound (length labels.of.items) edges.items },
    ghost labelled: { Labelled edges.items labels.of.items },
    ghost paired: { length ends.sorted.items ≡ length edges.items + length edges.items },
    ghost listed: { ∥ Listed edges.items ends.sorted.items ∥₁ },
}

impl Model for Seed {
    ghost use Rattle.std.specs.Prelude.{length};
    ghost use Rattle.seed.specs.SeedValue.{SeedValue};

    ghost Value = { SeedValue };

    ghost view = { λ s. record {
      nodes = length s.labels.of.items;
      edges = s.edges.items;
      few = s.few;
      fewer = s.fewer;
      sound = s.sound;
    } };
}

impl Seed {
    ghost use Rattle.seed.specs.Seeds.{NodeAdded, EdgeAsked, Inside, OneMore, Restarted};

    /// A seed without nodes. All memory that it will ever use is reserved here.
    pub fn new(heap: Global) -> Result<Seed, AllocError>
        ensures nodes { IfOk result (λ s. s.nodes ≡ 0) }
        ensures edges { IfOk result (λ s. s.edges ≡ []) }
    {
        let edges = Vec::with_capacity(heap, NODES)?;
        let labels = Labels::new(heap)?;
        let ends = Ends::new(heap)?;
        Ok(Seed {
            edges,
            labels,
            ends,
        })
    }

    /// Adds a node and answers its number; `None` where there are `NODES` nodes.
    pub fn add_node(&mut self) -> Option<usize>
        ensures { NodeAdded self.old result self.new }
    {
        let node = self.nodes();
        if node >= NODES {
            return None;
        }
        self.labels.add();
        Some(node)
    }

    /// Takes an edge of `length` between `a` and `b`. Refused, with the seed as it was: first where a number is no node, then where
    /// the ends are joined already, then where the length is 0, then where it is above `LONGEST`. Costs a pass over the nodes and one over
    /// the edges.
    pub fn join(&mut self, a: usize, b: usize, length: u64) -> Result<(), SeedFault>
        ensures { EdgeAsked self.old a b length result self.new }
    {
        if a >= self.nodes() || b >= self.nodes() {
            return Err(SeedFault::Outside);
        }
        if self.joined(a, b) {
            return Err(SeedFault::Joined);
        }
        if length == 0 {
            return Err(SeedFault::Short);
        }
        if length > LONGEST {
            return Err(SeedFault::Long);
        }
        self.accept(a, b, length);
        Ok(())
    }

    fn accept(&mut self, a: usize, b: usize, length: u64)
        requires { Fit self.old.nodes self.old.edges (edge a b length) }
        ensures { OneMore self.old (edge a b length) self.new }
    {
        let edge = Edge { a, b, length };
        self.edges.push_reserved(edge);
        self.labels.join(a, b);
        self.ends.join(edge);
    }

    /// Drops all edges; the nodes stay. Costs as a restart with the nodes that there are.
    pub fn drop_edges(&mut self)
        ensures edges { self.new.edges ≡ [] }
        ensures nodes { self.new.nodes ≡ self.old.nodes }
    {
        self.clear(self.nodes());
    }

    /// Starts again with `n` nodes and no edges; refused, with the seed as it was, where `n` is above `NODES`. Where there were no edges, it
    /// costs nothing for a node that stays.
    pub fn restart(&mut self, n: usize) -> Result<(), SeedFault>
        ensures { Restarted self.old n result self.new }
    {
        if n > NODES {
            return Err(SeedFault::Outside);
        }
        self.clear(n);
        Ok(())
    }

    fn clear(&mut self, n: usize)
        requires { n ≤ NODES }
        ensures edges { self.new.edges ≡ [] }
        ensures nodes { self.new.nodes ≡ n }
    {
        self.labels.restart(n, self.edges.is_empty());
        self.edges.clear();
        self.ends.clear();
    }

    /// How many nodes there are.
    pub fn nodes(&self) -> usize
        ensures { result ≡ self.now.nodes }
    {
        self.labels.count()
    }

    /// How many edges there are.
    pub fn count(&self) -> usize
        ensures { result ≡ length self.now.edges }
    {
        self.edges.len()
    }

    /// The edges in the order in which they were taken.
    pub fn edges(&self) -> &[Edge]
        ensures { result.now ≡ self.now.edges }
    {
        self.edges.as_slice()
    }

    /// The sum of the lengths of all edges.
    pub fn wire(&self) -> u64
        ensures { result ≡ wire self.now.edges }
    {
        self.edges.iter().map(|edge| edge.length).sum()
    }

    /// Whether `a` and `b` are nodes that a chain of edges joins. Costs the same however long the chain.
    pub fn joined(&self, a: usize, b: usize) -> bool
        ensures { IsTrue result ↔ (Inside self.now a b × Joined self.now.edges a b) }
    {
        a < self.nodes() && b < self.nodes() && self.labels.joined(a, b)
    }

    /// The least neighbour of `v` that is at least `next` and is not `from`, with the length of its edge: the first child of `v` that is
    /// at least `next`, where `v` was entered from `from`. Costs a search by halves over the edges.
    pub fn neighbour(&self, v: usize, from: usize, next: usize) -> Option<(usize, u64)>
        ensures least { LeastOf self.now.edges v from next result }
        ensures head { (F : Forest) → Grows self.now.edges v from next F → result ≡ head_of F }
    {
        if v >= self.nodes() {
            return None;
        }
        self.ends.least(v, from, next)
    }
}
