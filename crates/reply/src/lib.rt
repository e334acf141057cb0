//! The answers of a job's lines as text.

#![tactic(auto)]

mod lines;
mod reply;

pub use lines::{LINE, last_line, row_line};
pub use reply::Reply;
