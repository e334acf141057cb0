//! Joining rows that hang on the driver: pair after pair gets a row where the ways to both part.

#![tactic(auto)]

mod joining;
mod partners;

pub use build_laws::Pair;
pub use joining::Joiner;
