ghost use Rattle.std.specs.Prelude.{◌≡◌, ℕ, ◌≤◌, [], length, vec_capacity, IfOk};
ghost use Rattle.space.specs.declared.TheConstants.{LONGEST};
ghost use Rattle.seed.specs.declared.store.TheConstants.{NODES};
ghost use Rattle.walk_laws.specs.Promise.{sum_to};
ghost use Rattle.walk.specs.Marks.{directs, marks_of};

use crate::row::{Mark, NodeRow};
use seed::NODES;
use space::LONGEST;
use std::alloc::{AllocError, Global};
use std::marker::Model;
use thiserror::Error;

/// A row for each node, numbered from 0: its direct distance from the driver, and what the walk knows of it.
#[derive(Drop)]
pub struct Walk {
    pub(crate) rows: Vec<NodeRow>,
    ghost room: { NODES ≤ vec_capacity rows },
    ghost few: { length rows.items ≤ NODES },
    ghost near: { (k : ℕ) → directs rows.items k ≤ LONGEST },
}

impl Model for Walk {
    ghost use Rattle.walk.specs.WalkValue.{WalkValue, value_of};

    ghost Value = { WalkValue };

    ghost view = { λ w. value_of w.rows.items w.few w.near };
}

/// Why a seed is not walked: there is not one row for each of its nodes.
#[derive(Clone, Copy, Debug, Drop, PartialEq, Eq, Error)]
#[error("there is not one row for each node of the seed")]
pub struct WalkFault;

impl Walk {
    ghost use Rattle.walk.specs.Tables.{NodeRowAdded, break_at, direct_at, mark_at};

    /// A walk without rows. All memory that it will ever use is reserved here.
    pub fn new(heap: Global) -> Result<Walk, AllocError>
        ensures marks { IfOk result (λ w. w.marks ≡ []) }
        ensures directs { IfOk result (λ w. w.directs ≡ []) }
    {
        let rows = Vec::with_capacity(heap, NODES)?;
        Ok(Walk { rows })
    }

    /// Drops all rows.
    pub fn clear(&mut self)
        ensures marks { self.new.marks ≡ [] }
        ensures directs { self.new.directs ≡ [] }
    {
        self.rows.clear();
    }

    /// Adds the row of one more node and answers its number; `None`, with the walk as it was, where there are `NODES` rows or the
    /// direct distance is above `LONGEST`.
    pub fn add(&mut self, direct: u64) -> Option<usize>
        ensures { NodeRowAdded self.old direct result self.new }
    {
        let node = self.len();
        if node >= NODES || direct > LONGEST {
            return None;
        }
        self.rows.push_reserved(NodeRow::fresh(node, direct));
        Some(node)
    }

    /// How many rows there are.
    pub fn len(&self) -> usize
        ensures { result ≡ length self.now.marks }
    {
        self.rows.len()
    }

    /// The mark of the row k; `None` where there is no such row.
    pub fn mark(&self, k: usize) -> Option<Mark>
        ensures { result ≡ mark_at self.now.marks k }
    {
        self.rows.get(k).map(|row| row.mark)
    }

    /// The direct distance of the row k; `None` where there is no such row.
    pub fn direct(&self, k: usize) -> Option<u64>
        ensures { result ≡ direct_at self.now.directs k }
    {
        self.rows.get(k).map(|row| row.direct)
    }

    /// How many rows are marked as breakpoints. Costs a pass over the rows.
    pub fn breakpoints(&self) -> usize
        ensures { result ≡ sum_to (break_at (marks_of self.now.marks)) (length self.now.marks) }
    {
        self.rows.iter().filter(|row| row.mark.broken).count()
    }
}
