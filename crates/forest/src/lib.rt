//! Edges between numbered nodes, and the trees that they make: definitions and lemmas.

#![tactic(auto)]

/// An edge joins the nodes `a` and `b`.
#[derive(Clone, Copy)]
pub struct Edge {
    /// One end, a node's number.
    pub a: usize,
    /// The other end, a node's number.
    pub b: usize,
    /// Its length, in units of the space's distance.
    pub length: u64,
}
