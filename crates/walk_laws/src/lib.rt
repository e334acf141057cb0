//! The laws of the walk, as plain mathematics.

#![tactic(auto)]

ghost use Rattle.walk_laws.specs.Promise.{WalkKeeps};
ghost use Rattle.walk_laws.specs.Worked.{Worked};

/// The walk's guarantee stands.
pub fn walk_keeps()
    ensures guarantee { WalkKeeps }
{}

/// The walks worked by hand come out as they should.
pub fn worked_walks()
    ensures worked { Worked }
{}
