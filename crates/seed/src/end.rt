// One end of an edge.
ghost use Rattle.std.specs.Prelude.{◌<◌};
ghost use Rattle.seed.specs.declared.store.TheConstants.{NODES};

/// How far apart the places of the ends at two nodes are, where one node follows the other.
pub(crate) const ROW: usize = 65_536;

/// One end of an edge.
#[derive(Clone, Copy)]
pub(crate) struct End {
    /// The node at the other end.
    pub across: u16,
    /// The node at this end.
    pub node: u16,
    /// The edge's length.
    pub length: u32,
    ghost few: { across < NODES },
}
