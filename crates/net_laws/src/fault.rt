ghost use Rattle.std.specs.Prelude.{◌≡◌};
ghost use Rattle.net_laws.specs.Faults.{layer_of, number_of};
ghost use Rattle.net_laws.specs.declared.fault.Fault.TheVariants.{Space as carried};

use thiserror::Error;

/// A refusal of the space.
#[derive(Clone, Copy, Debug, PartialEq, Eq, Error)]
pub enum SpaceFault {
    /// 1: the space is more than 100,000,000 wide.
    #[error("the space is too wide")]
    TooWide,
    /// 2: the spot is not admitted.
    #[error("the spot is not admitted")]
    NotAdmitted,
}

/// A refusal of the net, or one of its space carried on whole. A net that refuses a call is as it was before.
#[derive(Clone, Copy, Debug, PartialEq, Eq, Error)]
pub enum Fault {
    /// 1 or 2.
    #[error(transparent)]
    Space(SpaceFault),
    /// 3: there are 256 pins.
    #[error("there are 256 pins")]
    TooManyPins,
    /// 4: an earlier pin is less than 1 away.
    #[error("an earlier pin is less than 1 away")]
    TooClose,
    /// 5: p is not from 0 to 1,000, or q is not from 1 to 1,000.
    #[error("the allowance is out of range")]
    BadAllowance,
    /// 6: there are fewer than two pins.
    #[error("there are fewer than two pins")]
    TooFewPins,
    /// 7: there are 256 Steiner points.
    #[error("there are 256 Steiner points")]
    TooManyPoints,
    /// 8: a number is no node.
    #[error("there is no such node")]
    NoNode,
    /// 9: a path of edges joins the two nodes already.
    #[error("the nodes are joined already")]
    Joined,
    /// 10: the two nodes are less than 1 apart.
    #[error("the nodes are less than 1 apart")]
    NoLength,
    /// 11: no allowance is set.
    #[error("no allowance is set")]
    NoAllowance,
    /// 12: the edges are not one fewer than the nodes.
    #[error("the edges are not one fewer than the nodes")]
    NoSeed,
    /// 13: there is no tree.
    #[error("there is no tree")]
    NoTree,
    /// 14: no move saves wire.
    #[error("no move saves wire")]
    NoMove,
    /// 15: there are 768 rows.
    #[error("there are 768 rows")]
    TooManyRows,
    /// 16: there is no such row, or no such pin.
    #[error("there is no such row or pin")]
    OutOfRange,
}

/// Who refuses.
#[derive(Clone, Copy, Debug, PartialEq, Eq)]
pub enum Layer {
    /// The space: the refusals 1 and 2.
    Space,
    /// The net: the refusals from 3 to 16.
    Net,
}

impl From<SpaceFault> for Fault {
    ghost from_gives = { λ e r. r ≡ carried e };

    fn from(fault: SpaceFault) -> Fault {
        Fault::Space(fault)
    }
}

impl Fault {
    /// Who refuses.
    pub fn layer(self) -> Layer
        ensures { result ≡ layer_of self }
    {
        match self {
            Fault::Space(_) => Layer::Space,
            _ => Layer::Net,
        }
    }

    /// The number of the refusal, from 1 to 16. `as u8` does not give it, since one variant carries a refusal of the space.
    pub fn number(self) -> u8
        ensures { result ≡ number_of self }
    {
        match self {
            Fault::Space(SpaceFault::TooWide) => 1,
            Fault::Space(SpaceFault::NotAdmitted) => 2,
            Fault::TooManyPins => 3,
            Fault::TooClose => 4,
            Fault::BadAllowance => 5,
            Fault::TooFewPins => 6,
            Fault::TooManyPoints => 7,
            Fault::NoNode => 8,
            Fault::Joined => 9,
            Fault::NoLength => 10,
            Fault::NoAllowance => 11,
            Fault::NoSeed => 12,
            Fault::NoTree => 13,
            Fault::NoMove => 14,
            Fault::TooManyRows => 15,
            Fault::OutOfRange => 16,
        }
    }
}
