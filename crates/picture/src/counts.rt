// How many nodes a net has, and what a row's number says of it.
ghost use Rattle.std.specs.Prelude.{◌≡◌};
ghost use Rattle.picture.specs.Counts.{counts_after, kind_of};

use crate::job::JobLine;

/// How many pins a net has, and how many Steiner points.
#[derive(Clone, Copy, Debug, Default, PartialEq, Eq)]
pub struct Counts {
    /// How many pins, the driver among them.
    pub pins: u64,
    /// How many Steiner points.
    pub points: u64,
}

/// What a row of a tree is.
#[derive(Clone, Copy, Debug, PartialEq, Eq)]
pub enum Kind {
    /// Row 0.
    Driver,
    /// A row from 1 to the number of pins - 1: a sink.
    Pin,
    /// A Steiner point: the rows after the pins.
    Steiner,
    /// A row that was added where wires part.
    Meet,
}

impl Counts {
    /// The counts after a call that was accepted.
    pub fn after(self, call: JobLine) -> Counts
        ensures { result ≡ counts_after call self }
    {
        let Counts { pins, points } = self;
        match call {
            JobLine::Net(_) => Counts { pins: 0, points: 0 },
            JobLine::Pin => Counts {
                pins: pins.saturating_add(1),
                points: 0,
            },
            JobLine::Steiner => Counts {
                pins,
                points: points.saturating_add(1),
            },
            JobLine::Seed => Counts { pins, points: 0 },
            JobLine::Change | JobLine::Worst | JobLine::Table | JobLine::Other => self,
        }
    }

    /// What the row with this number is: row 0 the driver, then the other pins, then the Steiner points, then meets.
    pub fn kind(self, number: u64) -> Kind
        ensures { result ≡ kind_of self number }
    {
        if number == 0 {
            Kind::Driver
        } else if number < self.pins {
            Kind::Pin
        } else if number - self.pins < self.points {
            Kind::Steiner
        } else {
            Kind::Meet
        }
    }
}
