// How the children of each row follow one another.
ghost use Rattle.std.specs.Prelude.{◌≡◌, ℕ, ◌≤◌, length, slice_index, vec_capacity};
ghost use Rattle.tree.specs.declared.table.TheConstants.{ROWS};
ghost use Rattle.share.specs.Siblings.{Siblings};

use std::alloc::{AllocError, Global};
use tree::{ROWS, Tree};

/// For each row the sibling before it, and while these are found the last child of each row so far; 0 where there is none.
#[derive(Drop)]
pub(crate) struct Children {
    earlier: Vec<usize>,
    last: Vec<usize>,
    ghost earlier_room: { ROWS ≤ vec_capacity earlier },
    ghost last_room: { ROWS ≤ vec_capacity last },
}

/// As many zeros as a tree has rows.
fn zeros(last: &mut Vec<usize>, rows: usize)
    requires few { rows ≤ ROWS }
    requires room { ROWS ≤ vec_capacity last.old }
    ensures count { length last.new.items ≡ rows }
    ensures zeros { (v : ℕ) → slice_index last.new.items v ≡ 0 }
    ensures room { vec_capacity last.new ≡ vec_capacity last.old }
{
    last.clear();
    for _ in 0..rows {
        last.push_reserved(0);
    }
}

impl Children {
    /// No rows yet.
    pub(crate) fn new(heap: Global) -> Result<Children, AllocError> {
        let earlier = Vec::with_capacity(heap, ROWS)?;
        let last = Vec::with_capacity(heap, ROWS)?;
        Ok(Children { earlier, last })
    }

    /// Finds for each row of the tree the sibling before it.
    pub(crate) fn link(&mut self, table: &Tree)
        ensures { Siblings table.now.rows self.new.earlier.items }
    {
        zeros(&mut self.last, table.len());
        self.earlier.clear();
        self.earlier.push_reserved(0);
        for c in 1..table.len() {
            let parent = table.at(c).parent;
            self.earlier.push_reserved(self.last[parent]);
            self.last[parent] = c;
        }
    }

    /// For each row the sibling before it; 0 where there is none.
    pub(crate) fn earlier(&self) -> &[usize]
        ensures { result.now ≡ self.now.earlier.items }
    {
        self.earlier.as_slice()
    }
}
