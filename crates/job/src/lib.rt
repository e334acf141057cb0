//! A job run over a net: text in, text out.

#![tactic(auto)]

mod answering;
mod kind;
mod places;
mod running;
mod starting;
mod tabling;

pub use running::Outcome;
pub use starting::run;
