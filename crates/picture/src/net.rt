// What the answers say of a net.
ghost use Rattle.std.specs.Prelude.{◌≡◌, None};
ghost use Rattle.picture.specs.KnownNet.{net_after};

use crate::counts::Counts;
use crate::job::{JobLine, SpaceWord};

/// A net: its space, its pins and Steiner points, and its worst sink, where it was asked for since the last change.
#[derive(Clone, Copy, Debug, PartialEq, Eq)]
pub struct KnownNet {
    /// Its space, which says how wires are drawn.
    pub space: SpaceWord,
    /// How many pins and Steiner points it has.
    pub counts: Counts,
    /// The number of the worst sink's row; `None` where it was not asked for since the last change.
    pub worst: Option<u64>,
}

impl KnownNet {
    /// A net over plane without pins.
    pub fn without_pins() -> KnownNet
        ensures counts { result.counts ≡ record { pins = 0; points = 0 } }
        ensures worst { result.worst ≡ None }
    {
        KnownNet {
            space: SpaceWord::Plane,
            counts: Counts { pins: 0, points: 0 },
            worst: None,
        }
    }

    /// The net after a call that was accepted, with the first value of its answer.
    pub fn after(self, call: JobLine, value: Option<u64>) -> KnownNet
        ensures { result ≡ net_after call value self }
    {
        let KnownNet { space, counts, .. } = self;
        match call {
            JobLine::Net(space) => KnownNet {
                space,
                counts: counts.after(call),
                worst: None,
            },
            JobLine::Pin | JobLine::Steiner | JobLine::Seed | JobLine::Change => KnownNet {
                space,
                counts: counts.after(call),
                worst: None,
            },
            JobLine::Worst => KnownNet {
                space,
                counts,
                worst: value,
            },
            JobLine::Table | JobLine::Other => self,
        }
    }
}
