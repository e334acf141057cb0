//! Trees as tables of rows: questions, changes, and the moves that shorten them.

#![tactic(auto)]

mod laying;
mod refining;
mod table;

pub use laying::TreeRows;
pub use refining::{Refiner, hook_best};
pub use space::LONGEST;
pub use table::{HangFault, ROWS, Tree};
pub use tree_laws::{Hook, Row};
