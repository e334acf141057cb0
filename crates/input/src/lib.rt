//! What `route` reads: its arguments, and spots on the lines of standard input.

#![tactic(auto)]

mod arguments;
mod lines;
mod numbers;

pub use arguments::{Arguments, BadArgument};
pub use lines::{Entry, read};
pub use numbers::{price, ratio};
pub use walk::Allowance;
