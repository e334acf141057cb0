//! The share move: a new row where the ways from a row to two of its children part.

#![tactic(auto)]

mod meeting;
mod sharing;
mod siblings;

pub use meeting::{hangs, insert_meet};
pub use sharing::{ShareFault, Sharer, share_best};
pub use tree_laws::Share;
