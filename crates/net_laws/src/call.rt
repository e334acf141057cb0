use space::Spot;

/// A call that changes a net over any wiring space. Each stands for the method of the net that is named as it.
#[derive(Clone, Copy, Debug, PartialEq, Eq)]
pub enum Call {
    /// Adds a pin.
    Pin(Spot),
    /// Sets the allowance p/q.
    Allow(u64, u64),
    /// Adds a Steiner point.
    Steiner(Spot),
    /// Adds an edge between two nodes.
    Edge(usize, usize),
    /// Drops the Steiner points, the edges and the tree.
    Unseed,
    /// Grows the spanning seed.
    Span,
    /// Builds the straight tree.
    Straight,
    /// Makes the best hook move.
    Hook,
}

/// A call that changes a net over a joining space.
#[derive(Clone, Copy, Debug, PartialEq, Eq)]
pub enum JoinCall {
    /// A call of any wiring space.
    Wire(Call),
    /// Builds the joined tree.
    Joined,
    /// Makes the best share move.
    Share,
}
