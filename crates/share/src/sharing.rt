ghost use Rattle.std.specs.Prelude.{◌≡◌, ◌<◌, ◌≤◌, length, vec_capacity};
ghost use Rattle.order.specs.Bests.{BestOf};
ghost use Rattle.tree.specs.declared.table.TheConstants.{ROWS};
ghost use Rattle.tree_laws.specs.Shares.{share_before};
ghost use Rattle.share.specs.Shares.{Shared};
ghost use Rattle.share.specs.Siblings.{Siblings};

use crate::meeting::insert_meet;
use crate::siblings::Children;
use search::first;
use space::{Joining, capped_distance, meet_or_start};
use std::alloc::{AllocError, Global};
use thiserror::Error;
use tree::{ROWS, Tree};
use tree_laws::Share;

/// Why no share move was made.
#[derive(Clone, Copy, Debug, PartialEq, Eq, Error)]
pub enum ShareFault {
    /// No move saves 1 or more.
    #[error("no share move saves wire")]
    Nothing,
    /// There is a move, and no room for another row.
    #[error("there is no room for another row")]
    Full,
}

/// The memory for finding share moves, reserved once: how the children of each row follow one another, the moves of one row, and the first
/// move of each row.
#[derive(Drop)]
pub struct Sharer {
    children: Children,
    moves: Moves,
}

/// The moves of one row with those before it, and the firsts of the rows before.
#[derive(Drop)]
struct Moves {
    row: Vec<Share>,
    firsts: Vec<Share>,
    ghost row_room: { ROWS ≤ vec_capacity row },
    ghost firsts_room: { ROWS ≤ vec_capacity firsts },
}

impl Sharer {
    /// Room for the moves of as many rows as a tree can have.
    pub fn new(heap: Global) -> Result<Sharer, AllocError> {
        let children = Children::new(heap)?;
        let row = Vec::with_capacity(heap, ROWS)?;
        let firsts = Vec::with_capacity(heap, ROWS)?;
        let moves = Moves { row, firsts };
        Ok(Sharer { children, moves })
    }
}

/// The search for the best move of a tree: the space that measures its rows, and for each row the sibling before it.
#[derive(Drop)]
struct ShareSearch<'a, S: Joining> {
    space: &'a S,
    table: &'a Tree,
    earlier: &'a [usize],
    ghost linked: { Siblings table.now.rows earlier.now },
}

impl<'a, S: Joining> ShareSearch<'a, S> {
    ghost use Rattle.order.specs.Bests.{Decides};
    ghost use Rattle.share.specs.Searches.{ShareMoveAt, ShareMoveIn, ShareMoveOf};

    /// The move of the rows `a` and `b`, where it is one.
    fn weigh(&self, a: usize, b: usize) -> Option<Share>
        ensures { BestOf share_before (ShareMoveAt S.Space S.Joining.own self.now a b) result }
    {
        if a == 0 {
            return None;
        }
        if b <= a {
            return None;
        }
        let one = self.table.row(a)?;
        let two = self.table.row(b)?;
        let v = one.parent;
        if two.parent != v {
            return None;
        }
        let from = self.table.at(v).spot;
        let z = meet_or_start(self.space, from, one.spot, two.spot);
        let saving = capped_distance(self.space, from, z);
        if saving == 0 {
            return None;
        }
        Some(Share { saving, v, a, b })
    }

    /// Lists the moves of the row `b` with the siblings before it.
    fn list(&self, b: usize, moves: &mut Vec<Share>)
        requires row { b < length self.now.table.now.rows }
        requires room { ROWS ≤ vec_capacity moves.old }
        ensures decides { Decides share_before (ShareMoveOf S.Space S.Joining.own self.now b) moves.new.items }
        ensures room { vec_capacity moves.new ≡ vec_capacity moves.old }
    {
        moves.clear();
        let mut a = self.earlier[b];
        while a != 0 {
            if let Some(share) = self.weigh(a, b) {
                moves.push_reserved(share);
            }
            a = self.earlier[a];
        }
    }

    /// The first of all moves: the first of each row, and then the first of these.
    fn best(&self, moves: &mut Moves) -> Option<Share>
        ensures { BestOf share_before (ShareMoveIn S.Space S.Joining.own self.now) result }
    {
        moves.firsts.clear();
        for b in 0..self.table.len() {
            self.list(b, &mut moves.row);
            if let Some(share) = first(moves.row.as_slice()) {
                moves.firsts.push_reserved(share);
            }
        }
        first(moves.firsts.as_slice())
    }
}

/// Makes the best share move and answers what it saves; the tree stays as it was where no move saves 1 or more, and where there is no
/// room for another row. Costs a meet and a distance for each two children of a row.
pub fn share_best<S: Joining>(
    space: &S,
    table: &mut Tree,
    sharer: &mut Sharer,
) -> Result<u64, ShareFault>
    ensures { Shared S.Space S.Joining.own space.now table.old result table.new }
{
    sharer.children.link(table);
    let search = ShareSearch {
        space,
        table: &*table,
        earlier: sharer.children.earlier(),
    };
    let share = search.best(&mut sharer.moves).ok_or(ShareFault::Nothing)?;
    insert_meet(space, table, share.v, share.a, share.b).ok_or(ShareFault::Full)?;
    Ok(share.saving)
}
