ghost use Rattle.std.specs.Prelude.{◌≡◌, ◌<◌, ◌≤◌, length, vec_capacity};
ghost use Rattle.tree.specs.declared.table.TheConstants.{ROWS};
ghost use Rattle.tree.specs.TreeValue.{TreeValue};
ghost use Rattle.tree_laws.specs.Trees.{row_of};

use crate::table::Tree;
use tree_laws::Row;

/// Rows that are a tree, each worked out when it is asked for. `tree` is what they are, so who is passed one need not ask again.
pub trait TreeRows {
    ghost tree: { Self → TreeValue };

    /// How many rows there are.
    fn count(&self) -> usize
        ensures { result ≡ length (tree self.now).rows };

    /// The row `k`; any row where there is none.
    fn row(&self, k: usize) -> Row
        ensures { k < length (tree self.now).rows → result ≡ row_of (tree self.now).rows k };
}

impl Tree {
    /// Lays these rows in place of those that stand. Each is asked for once, in ascending number.
    pub fn lay<R: TreeRows>(&mut self, source: &R)
        ensures { self.new.rows ≡ (R.TreeRows.tree source.now).rows }
    {
        fill(&mut self.rows, source);
    }
}

/// Makes the rows these.
fn fill<R: TreeRows>(rows: &mut Vec<Row>, source: &R)
    requires { ROWS ≤ vec_capacity rows.old }
    ensures items { rows.new.items ≡ (R.TreeRows.tree source.now).rows }
    ensures room { vec_capacity rows.new ≡ vec_capacity rows.old }
{
    rows.clear();
    for k in 0..source.count() {
        rows.push_reserved(source.row(k));
    }
}
