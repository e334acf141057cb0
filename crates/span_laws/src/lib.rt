//! The spanning seed of a net's pins, and that there is only one: links and their order, definitions and lemmas.

#![tactic(auto)]

mod link;

pub use link::Link;
