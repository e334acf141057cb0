//! A net: pins, Steiner points and edges in a wiring space, the tree that is built from them, and the moves that shorten it.

#![tactic(auto)]

mod net;
mod state;

pub use built_spaces::{Air, Lift, Plane};
pub use net::Net;
pub use net_laws::{Call, Fault, JoinCall, Layer, PinPath, SpaceFault, Worst};
pub use space::{Joining, Space, Spot};
pub use tree_laws::Row;
