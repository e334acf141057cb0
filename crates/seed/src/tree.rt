ghost use Rattle.std.specs.Prelude.{◌≡◌, ℕ, ◌+◌, ◌<◌, ◌↔◌, length, IfSome, IsSome, OnSome};
ghost use Rattle.forest.specs.Edges.{Joined};
ghost use Rattle.forest.specs.Growth.{Planted};
ghost use Rattle.forest.specs.Paths.{IsTree};

use crate::store::Seed;

/// A seed whose edges are one fewer than its nodes, as `Seed::as_tree` found it. Who is passed one need not ask again.
#[derive(Drop)]
pub struct SeedTree<'a> {
    /// The seed, a tree over its nodes.
    pub seed: &'a Seed,
    ghost whole: { length seed.now.edges + 1 ≡ seed.now.nodes },
}

impl Seed {
    /// The seed as a tree; `None` where the edges are not one fewer than the nodes. In a tree every node hangs together with node 0,
    /// between any two nodes there is exactly one path, and seen from node 0 its branches are what `neighbour` finds.
    pub fn as_tree(&self) -> Option<SeedTree<'_>>
        ensures test { IsSome result ↔ (length self.now.edges + 1 ≡ self.now.nodes) }
        ensures same { IfSome result (λ t. t.seed.now ≡ self.now) }
        ensures hangs { OnSome result ((v : ℕ) → v < self.now.nodes → Joined self.now.edges 0 v) }
        ensures paths { OnSome result (IsTree self.now.nodes self.now.edges) }
        ensures planted { OnSome result (Planted self.now.nodes self.now.edges) }
    {
        if self.count() + 1 != self.nodes() {
            return None;
        }
        Some(SeedTree { seed: self })
    }
}
