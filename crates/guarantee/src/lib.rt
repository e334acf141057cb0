//! Lists of calls on a net, and what holds after every one of them.

#![tactic(auto)]

mod answering;
mod running;

pub use answering::NetCall;
pub use running::{CallCounts, guarantee, run, runs_keep};
