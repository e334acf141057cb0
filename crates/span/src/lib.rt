//! The spanning seed of a net's pins, in any wiring space.

#![tactic(auto)]

mod growing;
mod links;
mod pins;

pub use growing::Spanner;
