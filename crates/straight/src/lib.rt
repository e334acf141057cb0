//! The straight tree of a finished walk: every breakpoint hangs on the driver, and every other node on its parent from the walk.

#![tactic(auto)]

mod building;
mod laying;

pub use building::Builder;
