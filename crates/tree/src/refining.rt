ghost use Rattle.std.specs.Prelude.{◌≡◌, ◌+◌, ◌<◌, ◌≤◌, length, vec_capacity};
ghost use Rattle.order.specs.Bests.{BestOf};
ghost use Rattle.tree_laws.specs.Distances.{Measured};
ghost use Rattle.tree_laws.specs.Hooks.{hook_before};
ghost use Rattle.tree.specs.declared.table.TheConstants.{ROWS};
ghost use Rattle.tree.specs.Hooks.{Hooked};
ghost use Rattle.tree.specs.Tables.{Paths};

use crate::table::{ROWS, Tree};
use search::first;
use space::{Space, Spot, capped_distance};
use std::alloc::{AllocError, Global};
use tree_laws::Hook;

/// The memory for finding hook moves, reserved once: the path of each row, the moves of one row, and the first move of each row.
#[derive(Drop)]
pub struct Refiner {
    paths: Vec<u64>,
    moves: Moves,
    ghost room: { ROWS ≤ vec_capacity paths },
}

/// The moves of one row, the firsts of the rows before it, and the most that one of these saves, or 1.
#[derive(Drop)]
struct Moves {
    row: Vec<Hook>,
    firsts: Vec<Hook>,
    floor: u64,
    ghost row_room: { ROWS ≤ vec_capacity row },
    ghost firsts_room: { ROWS ≤ vec_capacity firsts },
}

impl Refiner {
    /// Room for the moves of as many rows as a tree can have.
    pub fn new(heap: Global) -> Result<Refiner, AllocError> {
        let paths = Vec::with_capacity(heap, ROWS)?;
        let row = Vec::with_capacity(heap, ROWS)?;
        let firsts = Vec::with_capacity(heap, ROWS)?;
        let moves = Moves {
            row,
            firsts,
            floor: 1,
        };
        Ok(Refiner { paths, moves })
    }
}

/// The search for the best move of a tree: the space that measures its rows, and the path of each row.
#[derive(Drop)]
struct HookSearch<'a, S: Space> {
    space: &'a S,
    table: &'a Tree,
    paths: &'a [u64],
    ghost known: { Paths table.now.rows paths.now },
}

/// The row `v` of a tree, whose moves are asked for: those that save `floor` or more.
#[derive(Clone, Copy)]
struct Hanging {
    v: usize,
    spot: Spot,
    length: u64,
    path: u64,
    floor: u64,
}

impl<'a, S: Space> HookSearch<'a, S> {
    ghost use Rattle.order.specs.Bests.{Found};
    ghost use Rattle.tree.specs.Searches.{Firsts, HangsIn, HookMoveAt, HookMoveIn, HookMoveOf, Looked, looked_at};

    /// The move of a row on `u`, where it is one.
    fn weigh(&self, of: Hanging, u: usize) -> Option<Hook>
        requires row { HangsIn S.Space self.now of }
        requires parent { u < length self.now.table.now.rows }
        ensures { BestOf hook_before (HookMoveAt S.Space self.now of u) result }
    {
        let path = self.paths[u];
        if path > of.path {
            return None;
        }
        let new = capped_distance(self.space, self.table.at(u).spot, of.spot);
        if new + of.floor > of.length || path + new > of.path {
            return None;
        }
        // A row below `v` has no shorter path.
        if path == of.path && self.table.under(u, of.v) {
            return None;
        }
        let saving = of.length - new;
        Some(Hook { saving, v: of.v, u })
    }

    /// Lists the moves of a row.
    fn list(&self, of: Hanging, moves: &mut Vec<Hook>)
        requires row { HangsIn S.Space self.now of }
        requires room { ROWS ≤ vec_capacity moves.old }
        ensures found { Found (λ u r. BestOf hook_before (HookMoveAt S.Space self.now of u) r)
            (length self.now.table.now.rows) moves.new.items }
        ensures room { vec_capacity moves.new ≡ vec_capacity moves.old }
    {
        moves.clear();
        for u in 0..self.table.len() {
            if let Some(hook) = self.weigh(of, u) {
                moves.push_reserved(hook);
            }
        }
    }

    /// The first move of the row `v` that saves `floor` or more. A move saves at most the row's length.
    fn first_of_row(&self, v: usize, floor: u64, moves: &mut Vec<Hook>) -> Option<Hook>
        requires row { v < length self.now.table.now.rows }
        requires some { 0 < floor }
        requires room { ROWS ≤ vec_capacity moves.old }
        ensures best { BestOf hook_before (HookMoveOf S.Space self.now v floor) result }
        ensures room { vec_capacity moves.new ≡ vec_capacity moves.old }
    {
        let row = self.table.at(v);
        if row.length < floor {
            return None;
        }
        let of = Hanging {
            v,
            spot: row.spot,
            length: row.length,
            path: self.paths[v],
            floor,
        };
        self.list(of, moves);
        first(moves.as_slice())
    }

    /// Finds the first move of each row that is longer than `half`, or of each other row, where it saves no less than one found before.
    fn look(&self, long: bool, half: u64, moves: &mut Moves)
        requires found { Firsts S.Space self.now moves.old.firsts.items moves.old.floor }
        requires room { length moves.old.firsts.items
            + looked_at self.now.table.now.rows half long (length self.now.table.now.rows) ≤ ROWS }
        ensures found { Firsts S.Space self.now moves.new.firsts.items moves.new.floor }
        ensures looked { Looked S.Space self.now long half moves.old.firsts.items
            moves.new.firsts.items }
        ensures few { length moves.new.firsts.items ≤ length moves.old.firsts.items
            + looked_at self.now.table.now.rows half long (length self.now.table.now.rows) }
    {
        for v in 0..self.table.len() {
            if (self.table.at(v).length > half) == long {
                if let Some(hook) = self.first_of_row(v, moves.floor, &mut moves.row) {
                    moves.floor = hook.saving;
                    moves.firsts.push_reserved(hook);
                }
            }
        }
    }

    /// The first of all moves: the first of each row, and then the first of these. The longer rows are looked at first, since what they save
    /// leaves out others.
    fn best(&self, moves: &mut Moves) -> Option<Hook>
        ensures { BestOf hook_before (HookMoveIn S.Space self.now) result }
    {
        moves.firsts.clear();
        moves.floor = 1;
        let half = self.table.longest() / 2;
        self.look(true, half, moves);
        self.look(false, half, moves);
        first(moves.firsts.as_slice())
    }
}

/// Makes the best hook move of the tree and answers what it saves; nothing, with the tree as it was, where no move saves 1 or more. Costs
/// at most a distance for each two rows.
pub fn hook_best<S: Space>(space: &S, table: &mut Tree, refiner: &mut Refiner) -> Option<u64>
    ensures answer { Hooked S.Space space.now table.old result table.new }
    ensures measured { Measured S.Space space.now table.old.rows
        → Measured S.Space space.now table.new.rows }
{
    table.list_paths(&mut refiner.paths);
    let search = HookSearch {
        space,
        table: &*table,
        paths: refiner.paths.as_slice(),
    };
    let hook = search.best(&mut refiner.moves)?;
    let length = table.at(hook.v).length - hook.saving;
    table.hang(hook.v, hook.u, length).ok()?;
    Some(hook.saving)
}
