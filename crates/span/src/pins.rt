// The pins of a net in a space, and how far apart they are.
ghost use Rattle.std.specs.Prelude.{◌≡◌, ◌<◌, ◌≤◌, length};
ghost use Rattle.space.specs.Spots.{spot_of};
ghost use Rattle.seed.specs.declared.store.TheConstants.{NODES};

use space::{Space, Spot, edge_length, spot_of};
use span_laws::Link;

/// Pins in a space, at most as many as a seed can have nodes.
#[derive(Drop)]
pub(crate) struct Pins<'a, S: Space> {
    /// The space that measures them.
    pub space: &'a S,
    /// Their spots, the driver's first; at most `NODES`.
    pub spots: &'a [Spot],
    ghost few: { length spots.now ≤ NODES },
}

impl<'a, S: Space> Pins<'a, S> {
    ghost use Rattle.span.specs.Measured.{lengths_of};
    ghost use Rattle.span_laws.specs.Spanning.{link as linkBetween};

    /// The link of two pins.
    pub(crate) fn link(&self, u: usize, v: usize) -> Link
        requires { v < length self.now.spots.now }
        ensures { result ≡ linkBetween (lengths_of self.now) u v }
    {
        self.link_from(u, spot_of(self.spots, u), v)
    }

    /// The link of two pins, where the spot of `u` is known.
    pub(crate) fn link_from(&self, u: usize, from: Spot, v: usize) -> Link
        requires from { from ≡ spot_of self.now.spots.now u }
        requires v { v < length self.now.spots.now }
        ensures { result ≡ linkBetween (lengths_of self.now) u v }
    {
        let length = edge_length(self.space, from, self.spots[v]);
        Link { length, u, v }
    }
}
