// The first link of each pin that is still outside.
ghost use Rattle.std.specs.Prelude.{◌≡◌, ◌-◌, ◌<◌, ◌≤◌, All, [], map, length, vec_capacity, filter, IfOk};
ghost use Rattle.seed.specs.declared.store.TheConstants.{NODES};
ghost use Rattle.std.specs.Bool.{nat_lt};
ghost use Rattle.order.specs.Firsts.{Among, FirstOf};
ghost use Rattle.span_laws.specs.Links.{link_before};
ghost use Rattle.span.specs.Measured.{lengths_of};
ghost use Rattle.span.specs.Growth.{Rising, better, elsewhere, fan, offered_link};

use crate::pins::Pins;
use search::first;
use seed::NODES;
use space::{Space, spot_of};
use span_laws::Link;
use std::alloc::{AllocError, Global};

/// The first of two links.
fn nearer(old: Link, new: Link) -> Link
    ensures { result ≡ better old new }
{
    first(&[old, new]).unwrap_or(old)
}

/// The first link of each pin outside, with room for as many as a seed can have nodes.
#[derive(Drop)]
pub(crate) struct Links {
    outside: Vec<Link>,
    ghost room: { NODES ≤ vec_capacity outside },
    ghost rises: { Rising outside.items },
}

impl Links {
    /// No links yet.
    pub(crate) fn new(heap: Global) -> Result<Links, AllocError>
        ensures { IfOk result (λ l. l.outside.items ≡ []) }
    {
        let outside = Vec::with_capacity(heap, NODES)?;
        Ok(Links { outside })
    }

    /// The first of all the links.
    pub(crate) fn first(&self) -> Option<Link>
        ensures { FirstOf link_before self.now.outside.items result }
    {
        first(self.outside.as_slice())
    }

    /// The links from pin 0 to each other pin.
    pub(crate) fn start<S: Space>(&mut self, pins: &Pins<S>)
        ensures { self.new.outside.items ≡ fan (lengths_of pins.now) (length pins.now.spots.now - 1) }
    {
        self.outside.clear();
        for v in 1..pins.spots.len() {
            self.outside.push_reserved(pins.link(0, v));
        }
    }

    /// Leaves out the link of a pin that is inside now.
    pub(crate) fn forget(&mut self, link: Link)
        requires { Among link self.old.outside.items }
        ensures { self.new.outside.items ≡ filter (elsewhere link.v) self.old.outside.items }
    {
        let at = self.outside.as_slice().partition_point(
            |other: &Link| -> bool
                ensures { result ≡ nat_lt other.now.v link.v }
            { other.v < link.v },
        );
        self.outside.remove(at);
    }

    /// Compares the first link of each pin outside with the one from `u`, the newest pin inside.
    pub(crate) fn offer<S: Space>(&mut self, pins: &Pins<S>, u: usize)
        requires { All (λ x. x.v < length pins.now.spots.now) self.old.outside.items }
        ensures { self.new.outside.items ≡ map (offered_link (lengths_of pins.now) u) self.old.outside.items }
    {
        let from = spot_of(pins.spots, u);
        for old in self.outside.iter_mut() {
            *old = nearer(*old, pins.link_from(u, from, old.v));
        }
    }
}
