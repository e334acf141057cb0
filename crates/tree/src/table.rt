ghost use Rattle.std.specs.Prelude.{◌≡◌, ℕ, ◌≤◌, [], ◌∷◌, length, vec_capacity};
ghost use Rattle.space.specs.declared.TheConstants.{LONGEST};
ghost use Rattle.tree.specs.declared.table.TheConstants.{ROWS};
ghost use Rattle.tree.specs.TreeValue.{alone};
ghost use Rattle.tree_laws.specs.Trees.{RowTree, row_length};

use space::{LONGEST, Spot};
use std::alloc::{AllocError, Global};
use std::marker::Model;
use thiserror::Error;
use tree_laws::Row;

/// The most rows that a tree can have.
pub const ROWS: usize = 768;

/// Why a row can't hang on another.
#[derive(Clone, Copy, Debug, PartialEq, Eq, Error)]
pub enum HangFault {
    /// The row is the driver, which hangs on nothing.
    #[error("the driver hangs on nothing")]
    Driver,
    /// There is no such row.
    #[error("there is no such row")]
    NoRow,
    /// The row to hang it on is none.
    #[error("there is no such row to hang it on")]
    NoParent,
    /// The length is above `LONGEST`.
    #[error("the length is above {}", LONGEST)]
    TooLong,
    /// The row to hang it on is the row itself or hangs below it.
    #[error("the row to hang it on is itself or hangs below it")]
    Below,
}

/// Rows that all hang, one on another, on row 0, the driver.
#[derive(Drop)]
pub struct Tree {
    pub(crate) rows: Vec<Row>,
    ghost room: { ROWS ≤ vec_capacity rows },
    ghost few: { length rows.items ≤ ROWS },
    ghost lengths: { (k : ℕ) → row_length rows.items k ≤ LONGEST },
    ghost tree: { RowTree rows.items },
}

impl Model for Tree {
    ghost use Rattle.tree.specs.TreeValue.{TreeValue};

    ghost Value = { TreeValue };

    ghost view = { λ t. record {
      rows = t.rows.items;
      few = t.few;
      lengths = t.lengths;
      tree = t.tree;
    } };
}

impl Tree {
    ghost use Rattle.std.specs.Prelude.{◌<◌, IfOk};
    ghost use Rattle.tree_laws.specs.Trees.{OnePath, path_length, row_of, under, wire_of};
    ghost use Rattle.tree.specs.Tables.{RowAdded, Changed, CanHang, KnownPaths, Paths, path_at, row_at};

    /// The driver alone, with room for `ROWS` rows.
    pub fn new(heap: Global, driver: Spot) -> Result<Tree, AllocError>
        ensures { IfOk result (λ t. t.rows ≡ alone driver) }
    {
        let mut rows = Vec::with_capacity(heap, ROWS)?;
        rows.push_reserved(root(driver));
        Ok(Tree { rows })
    }

    /// Starts again with the driver alone.
    pub fn restart(&mut self, driver: Spot)
        ensures { self.new.rows ≡ alone driver }
    {
        self.rows.clear();
        self.rows.push_reserved(root(driver));
    }

    /// How many rows there are, from 1 to `ROWS`.
    pub fn len(&self) -> usize
        ensures { result ≡ length self.now.rows }
    {
        self.rows.len()
    }

    /// The row `k`; nothing where there is none.
    pub fn row(&self, k: usize) -> Option<Row>
        ensures { result ≡ row_at self.now.rows k }
    {
        self.rows.get(k).copied()
    }

    /// The row `k`; a row of no length on the driver where there is none.
    pub fn at(&self, k: usize) -> Row
        ensures row { result ≡ row_of self.now.rows k }
        ensures short { result.length ≤ LONGEST }
    {
        self.row(k).unwrap_or_default()
    }

    /// The sum of all lengths.
    pub fn wire(&self) -> u64
        ensures { result ≡ wire_of self.now.rows }
    {
        self.rows.iter().map(|row| row.length).sum()
    }

    /// All rows, the driver's first.
    pub fn rows(&self) -> &[Row]
        ensures { result.now ≡ self.now.rows }
    {
        self.rows.as_slice()
    }

    /// The greatest length of a row.
    pub(crate) fn longest(&self) -> u64 {
        self.rows.iter().map(|row| row.length).max().unwrap_or(0)
    }

    /// The path of the row `k`, the sum of the lengths on the one way from the driver down to it; nothing where there is no such row. Costs
    /// a turn for each row on the way.
    pub fn path(&self, k: usize) -> Option<u64>
        ensures path { result ≡ path_at self.now.rows k }
        ensures way { k < length self.now.rows → OnePath self.now.rows k }
    {
        if k >= self.len() {
            return None;
        }
        Some(self.path_over(k, &[0]))
    }

    /// The path of the row `k`, where those of the first rows are known. Costs a turn for each row from `k` up to one of these.
    fn path_over(&self, k: usize, known: &[u64]) -> u64
        requires row { k < length self.now.rows }
        requires some { 0 < length known.now }
        requires paths { KnownPaths self.now.rows known.now }
        ensures { result ≡ path_length self.now.rows k }
    {
        let mut path = 0;
        let mut at = k;
        for _ in 0..self.len() {
            if at < known.len() {
                return path + known[at];
            }
            let row = self.at(at);
            path += row.length;
            at = row.parent;
        }
        path
    }

    /// Lists the path of each row. Costs a turn for each row from each row up to the first with a lower number.
    pub(crate) fn list_paths(&self, paths: &mut Vec<u64>)
        requires { ROWS ≤ vec_capacity paths.old }
        ensures paths { Paths self.now.rows paths.new.items }
        ensures room { vec_capacity paths.new ≡ vec_capacity paths.old }
    {
        paths.clear();
        paths.push_reserved(0);
        for k in 1..self.len() {
            let path = self.path_over(k, paths.as_slice());
            paths.push_reserved(path);
        }
    }

    /// Whether `u` is `v` or hangs below it. Costs a turn for each row from `u` up to `v` or the driver.
    pub fn under(&self, u: usize, v: usize) -> bool
        ensures { result ≡ under self.now.rows u v }
    {
        let mut at = u;
        for _ in 0..self.len() {
            if at == v {
                return true;
            }
            if at == 0 {
                return false;
            }
            at = self.at(at).parent;
        }
        at == v
    }

    /// Adds a row on `u` and answers its number; nothing, with the tree as it was, where `u` is no row, the length is above `LONGEST`, or
    /// there are `ROWS` rows.
    pub fn add(&mut self, u: usize, spot: Spot, length: u64) -> Option<usize>
        ensures { RowAdded self.old u spot length result self.new }
    {
        let k = self.len();
        if u >= k || length > LONGEST || k >= ROWS {
            return None;
        }
        self.rows.push_reserved(Row {
            parent: u,
            spot,
            length,
        });
        Some(k)
    }

    /// Whether `v` can hang on `u` at a length, or the first reason why it can't.
    fn can_hang(&self, v: usize, u: usize, length: u64) -> Result<(), HangFault>
        ensures { CanHang self.now.rows v u length result }
    {
        if v == 0 {
            return Err(HangFault::Driver);
        }
        if v >= self.len() {
            return Err(HangFault::NoRow);
        }
        if u >= self.len() {
            return Err(HangFault::NoParent);
        }
        if length > LONGEST {
            return Err(HangFault::TooLong);
        }
        if self.under(u, v) {
            return Err(HangFault::Below);
        }
        Ok(())
    }

    /// Hangs `v` on `u` at another length; refused, with the tree as it was, where `v` is the driver, `v` is no row, `u` is no row, the
    /// length is above `LONGEST`, or `u` is `v` or under it: the first of these reasons is the error.
    pub fn hang(&mut self, v: usize, u: usize, length: u64) -> Result<(), HangFault>
        ensures { Changed self.old v u length result self.new }
    {
        self.can_hang(v, u, length)?;
        let row = &mut self.rows[v];
        row.parent = u;
        row.length = length;
        Ok(())
    }
}

/// The row of the driver.
fn root(spot: Spot) -> Row
    ensures { result ∷ [] ≡ alone spot }
{
    Row {
        parent: 0,
        spot,
        length: 0,
    }
}
