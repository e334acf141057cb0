//! What a finished walk becomes: the straight tree and the joined tree, and what they keep.

#![tactic(auto)]

mod pair;

ghost use Rattle.build_laws.specs.Joining.{JoiningKeeps};
ghost use Rattle.build_laws.specs.Straight.{StraightKeeps};

pub use pair::Pair;

/// The straight tree of every finished walk is a tree within the bounds on wire and paths.
pub fn straight_keeps()
    ensures keeps { StraightKeeps }
{}

/// Joining rows that hang on the driver keeps the tree, every path, and no more wire.
pub fn joining_keeps()
    ensures keeps { JoiningKeeps }
{}
