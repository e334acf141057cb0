//! What a net's calls answer, and what holds after every list of them: definitions and proofs.

#![tactic(auto)]

mod call;
mod fault;
mod reading;

pub use call::{Call, JoinCall};
pub use fault::{Fault, Layer, SpaceFault};
pub use reading::{PinPath, Worst};
