ghost use Rattle.std.specs.Prelude.{◌≡◌, ◌+◌, ◌<◌, [], length, IfOk, IsOk};
ghost use Rattle.span.specs.Grown.{Grown};

use crate::links::Links;
use crate::pins::Pins;
use seed::{Seed, SeedFault};
use space::{Space, Spot};
use std::alloc::{AllocError, Global};

/// The memory for growing spanning seeds, reserved once.
#[derive(Drop)]
pub struct Spanner {
    links: Links,
}

impl Spanner {
    ghost use Rattle.span.specs.Measured.{GrowingBy};
    ghost use Rattle.span.specs.Spanners.{links_of};

    /// Room for the links of as many pins as a seed can have nodes, and no links. All memory that it will ever use is reserved here.
    pub fn new(heap: Global) -> Result<Spanner, AllocError>
        ensures { IfOk result (λ s. links_of s ≡ []) }
    {
        let links = Links::new(heap)?;
        Ok(Spanner { links })
    }

    /// Grows the spanning seed of the pins in place of what the seed had, and answers its wire. Refused, with the seed as it was, where there
    /// is no pin or there are more than `NODES`. For n pins it measures n times (n - 1) / 2 distances.
    pub fn grow<S: Space>(
        &mut self,
        space: &S,
        pins: &[Spot],
        seed: &mut Seed,
    ) -> Result<u64, SeedFault>
        ensures { Grown S.Space space.now pins.now seed.old result seed.new }
    {
        if pins.is_empty() {
            return Err(SeedFault::Outside);
        }
        seed.restart(pins.len())?;
        let pins = Pins { space, spots: pins };
        self.links.start(&pins);
        for _ in 1..pins.spots.len() {
            self.step(&pins, seed)?;
        }
        Ok(seed.wire())
    }

    /// One step: the first of the firsts is taken, and its pin is compared with each pin that is still outside.
    fn step<S: Space>(&mut self, pins: &Pins<S>, seed: &mut Seed) -> Result<(), SeedFault>
        requires growing { GrowingBy pins.now seed.old self.old.links.outside.items }
        requires more { length seed.old.edges + 1 < length pins.now.spots.now }
        ensures done { IsOk result }
        ensures grows { GrowingBy pins.now seed.new self.new.links.outside.items }
        ensures count { length seed.new.edges ≡ length seed.old.edges + 1 }
    {
        let Some(nearest) = self.links.first() else {
            return Err(SeedFault::Outside);
        };
        seed.join(nearest.u, nearest.v, nearest.length)?;
        self.links.forget(nearest);
        self.links.offer(pins, nearest.v);
        Ok(())
    }
}
