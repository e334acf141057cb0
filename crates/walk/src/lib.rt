//! The walk over a seed: which sinks break off and get a wire of their own, and on which neighbour every other node hangs.

#![tactic(auto)]

mod allowance;
mod row;
mod rules;
mod table;
mod walking;

pub use allowance::{ALLOWANCE_LIMIT, Allowance};
pub use row::Mark;
pub use table::{Walk, WalkFault};
