//! What it is to be the first of several candidates, under an order without ties: definitions and lemmas.

#![tactic(auto)]

mod rank;

pub use rank::Rank;
