//! What the lines of a job ask, and how a line is refused as text.

#![tactic(auto)]

mod cutting;
mod decimals;
mod fault;
mod fields;
mod reading;
mod requests;

pub use cutting::next_line;
pub use fault::TextFault;
pub use reading::{LONGEST_LINE, read};
pub use requests::{Request, Word};
