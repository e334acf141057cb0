//! Seeds: edges between numbered nodes of which none closes a loop.

#![tactic(auto)]

mod end;
mod ends;
mod labels;
mod store;
mod tree;

pub use store::{LONGEST, NODES, Seed, SeedFault};
pub use tree::SeedTree;
