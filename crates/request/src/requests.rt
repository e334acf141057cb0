use net_laws::JoinCall;

/// The space that a word names.
#[derive(Clone, Copy, Debug, PartialEq, Eq)]
pub enum Word {
    /// The plane, a joining space.
    Plane,
    /// The air, which has no meet.
    Air,
}

/// What a line asks.
#[derive(Clone, Copy, Debug, PartialEq, Eq)]
pub enum Request {
    /// W: a net over this space, under a lift where a price is given.
    Space(Word, Option<u32>),
    /// P, A, V, E, U, M, D, J, H and S: a call that changes the net.
    Change(JoinCall),
    /// T: all rows.
    Rows,
    /// K: the path of a pin, and its direct distance.
    Path(usize),
    /// X: the worst sink.
    Worst,
}
