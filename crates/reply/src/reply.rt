use net_laws::{PinPath, Worst};

/// What an accepted line answers.
#[derive(Clone, Copy, Debug, PartialEq, Eq)]
pub enum Reply {
    /// One number: 0 for W, A and U.
    Number(u64),
    /// K: a pin's path, and its direct distance.
    Path(PinPath),
    /// X: the worst sink, and its figure.
    Worst(Worst),
    /// T: as many rows of the tree, each on a line of its own before the last.
    Rows(usize),
}
