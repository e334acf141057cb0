//! The spaces that are built here: the plane, the air, and a lift over any space. `docs/spaces.md` has every rule and limit.

#![tactic(auto)]

pub mod air;
pub mod lift;
pub mod middle_one;
pub mod plane;
mod range;

pub use air::Air;
pub use lift::Lift;
pub use middle_one::middle;
pub use plane::Plane;
