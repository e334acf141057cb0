//! The picture of a net's tree, from a job and its answers.

#![tactic(auto)]

mod answer;
mod counts;
mod frame;
mod job;
mod net;
mod reading;
mod row;
mod shapes;
mod sheet;
mod table;

pub use answer::{AnswerLine, ParseAnswerLineError};
pub use counts::{Counts, Kind};
pub use frame::{Frame, MARGIN, Place, SIDE};
pub use job::{JobLine, SpaceWord, job_line_at, job_lines};
pub use net::KnownNet;
pub use reading::Reading;
pub use row::DrawnRow;
pub use sheet::Picture;
pub use table::DrawnTable;
