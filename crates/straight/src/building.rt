ghost use Rattle.std.specs.Prelude.{◌≡◌, ◌≤◌, [], IfOk, vec_capacity};
ghost use Rattle.seed.specs.declared.store.TheConstants.{NODES};
ghost use Rattle.straight.specs.Built.{Answer};

use crate::laying::{Plan, measure};
use seed::{NODES, SeedTree};
use space::{Space, Spot};
use std::alloc::{AllocError, Global};
use std::marker::Model;
use walk::Allowance;

/// The memory for building straight trees, reserved once: the walk, and the breakpoints that it found.
#[derive(Drop)]
pub struct Builder {
    walk: walk::Walk,
    broken: Vec<usize>,
    ghost room: { NODES ≤ vec_capacity broken },
}

// A builder is seen as the breakpoints of the tree that it built last.
impl Model for Builder {
    ghost use Rattle.std.specs.Prelude.{ℕ, List};

    ghost Value = { List ℕ };

    ghost view = { λ b. b.broken.items };
}

impl Builder {
    /// Room for as many nodes as a seed can have, and no breakpoints yet.
    pub fn new(heap: Global) -> Result<Builder, AllocError>
        ensures { IfOk result (λ b. b ≡ []) }
    {
        let walk = walk::Walk::new(heap)?;
        let broken = Vec::with_capacity(heap, NODES)?;
        Ok(Builder { walk, broken })
    }

    /// Builds the straight tree of the seed in place of what the tree held, and answers its wire. The sinks are the nodes from 1 to
    /// `pins` - 1, and `spots` has the spot of each node, those of the pins first. `None`, with the tree and the listed breakpoints as they
    /// were, where there is not one spot for each node.
    pub fn straight<S: Space>(
        &mut self,
        space: &S,
        spots: &[Spot],
        pins: usize,
        allowance: Allowance,
        seed: &SeedTree<'_>,
        tree: &mut tree::Tree,
    ) -> Option<u64>
        ensures { Answer S.Space space.now tree.old self.old spots.now allowance.p allowance.q pins
            seed.now.seed.now self.new result tree.new }
    {
        if seed.seed.nodes() != spots.len() {
            return None;
        }
        measure(&mut self.walk, space, spots)?;
        self.walk.walk(seed, pins, allowance).ok()?;
        let plan = Plan {
            walk: &self.walk,
            spots,
        };
        tree.lay(&plan);
        plan.list(&mut self.broken);
        Some(tree.wire())
    }

    /// The breakpoints of the tree that was built last, in ascending number.
    pub fn broken(&self) -> &[usize]
        ensures { result.now ≡ self.now }
    {
        self.broken.as_slice()
    }
}
