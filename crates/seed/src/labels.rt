ghost use Rattle.std.specs.Prelude.{◌≡◌, ◌<◌, ◌≤◌, List, [], ◌∷◌, ◌++◌, length, vec_capacity, ◌↔◌, IfOk, IsTrue};
ghost use Rattle.forest.specs.declared.Edge.{Edge};
ghost use Rattle.forest.specs.Edges.{Joined};
ghost use Rattle.seed.specs.Labelled.{Labelled};
ghost use Rattle.seed.specs.declared.store.TheConstants.{NODES};

use crate::store::NODES;
use std::alloc::{AllocError, Global};

/// A label for each node, and room for `NODES`. Between the edges that were joined, two nodes have equal labels exactly where a chain
/// of edges joins them.
#[derive(Drop)]
pub(crate) struct Labels {
    of: Vec<u16>,
    ghost room: { NODES ≤ vec_capacity of },
}

impl Labels {
    /// No labels yet.
    pub(crate) fn new(heap: Global) -> Result<Labels, AllocError>
        ensures { IfOk result (λ l. l.of.items ≡ []) }
    {
        let of = Vec::with_capacity(heap, NODES)?;
        Ok(Labels { of })
    }

    /// How many nodes have a label.
    pub(crate) fn count(&self) -> usize
        ensures { result ≡ length self.now.of.items }
    {
        self.of.len()
    }

    /// Adds a node with its own number as its label.
    pub(crate) fn add(&mut self)
        requires { length self.old.of.items < NODES }
        ensures { self.new.of.items ≡ self.old.of.items ++ length self.old.of.items ∷ [] }
    {
        let node = self.of.len();
        self.of.push_reserved(node as u16);
    }

    /// Starts again with `n` nodes, each with its own number as its label. `alone` says that no edge joins nodes now: then a node that
    /// stays costs nothing.
    pub(crate) fn restart(&mut self, n: usize, alone: bool)
        requires few { n ≤ NODES }
        requires alone { IsTrue alone → Labelled [] self.old.of.items }
        ensures count { length self.new.of.items ≡ n }
        ensures labels { Labelled [] self.new.of.items }
    {
        self.of.truncate(if alone { n } else { 0 });
        for _ in self.of.len()..n {
            self.add();
        }
    }

    /// Gives the nodes labelled as `b` the label of `a`, which an edge joins with `b` now.
    pub(crate) fn join(&mut self, a: usize, b: usize)
        requires a { a < length self.old.of.items }
        requires b { b < length self.old.of.items }
        ensures count { length self.new.of.items ≡ length self.old.of.items }
        ensures labels { (E : List Edge) (e : Edge) → e.a ≡ a → e.b ≡ b
            → Labelled E self.old.of.items → Labelled (E ++ e ∷ []) self.new.of.items }
    {
        let to = self.of[a];
        let from = self.of[b];
        for label in self.of.iter_mut() {
            *label = if *label == from { to } else { *label };
        }
    }

    /// Whether the edges join `a` and `b`.
    pub(crate) fn joined(&self, a: usize, b: usize) -> bool
        requires a { a < length self.now.of.items }
        requires b { b < length self.now.of.items }
        ensures { (E : List Edge) → Labelled E self.now.of.items → (IsTrue result ↔ Joined E a b) }
    {
        self.of[a] == self.of[b]
    }
}
