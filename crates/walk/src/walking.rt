// The walk: from fresh rows, down to the next child where there is one, else back up.
ghost use Rattle.std.specs.Prelude.{◌≡◌, ℕ, ◌+◌, ◌<◌, ◌≤◌, ◌↔◌, length, IsOk, OnErr, OnOk, ◌≢◌, slice_index_or};
ghost use Rattle.space.specs.declared.TheConstants.{LONGEST};
ghost use Rattle.walk_laws.specs.Walk.{relax};
ghost use Rattle.walk.specs.Limits.{Low};
ghost use Rattle.walk.specs.Marks.{Gone, Places, directs, idle, marks, rules_by};
ghost use Rattle.walk.specs.Tables.{Renewed};
ghost use Rattle.walk.specs.Walked.{DirectsKept, Ready, Walked, WalkedOver, rules_in};

use crate::allowance::Allowance;
use crate::row::NodeRow;
use crate::rules::Rules;
use crate::table::{Walk, WalkFault};
use seed::SeedTree;

impl Walk {
    /// Walks over the seed from node 0, the driver, and leaves in each row what the walk makes of its node. The sinks are the nodes from
    /// 1 to `pins` - 1, and the others are Steiner points; any number is taken, so that from 0 or 1 pins there are no sinks, and from more
    /// pins than nodes every node but the driver is one. What an earlier walk left is forgotten first. Refused, with the walk as it was,
    /// where there is not one row for each of the seed's nodes. Costs two searches by halves over the edges for each edge.
    pub fn walk(
        &mut self,
        tree: &SeedTree<'_>,
        pins: usize,
        allowance: Allowance,
    ) -> Result<(), WalkFault>
        ensures taken { IsOk result ↔ (length self.old.marks ≡ tree.now.seed.now.nodes) }
        ensures refused { OnErr result (self.new ≡ self.old) }
        ensures walked { OnOk result
            (WalkedOver (rules_in allowance pins self.old.directs) tree.now.seed.now self.new.marks) }
        ensures kept { self.new.directs ≡ self.old.directs }
    {
        if self.len() != tree.seed.nodes() {
            return Err(WalkFault);
        }
        let rows = self.rows.as_mut_slice();
        renew_all(rows);
        take_steps(rows, tree, Rules { pins, allowance });
        Ok(())
    }
}

/// Makes every row fresh; the direct distances stay.
fn renew_all(rows: &mut [NodeRow])
    ensures { Renewed rows.old rows.new }
{
    for (k, row) in rows.iter_mut().enumerate() {
        *row = NodeRow::fresh(k, row.direct);
    }
}

/// Takes the steps of the walk over a seed, from fresh rows.
fn take_steps(rows: &mut [NodeRow], tree: &SeedTree<'_>, rules: Rules)
    requires ready { Ready tree.now.seed.now.nodes rows.old }
    requires short { (k : ℕ) → directs rows.old k ≤ LONGEST }
    ensures walked { Walked (rules_by rules rows.old) tree.now.seed.now.nodes
        tree.now.seed.now.edges (marks rows.new) }
    ensures kept { DirectsKept rows.old rows.new }
{
    let seed = tree.seed;
    let mut v = 0;
    for step in 0..2 * seed.count() {
        let row = rows[v];
        match seed.neighbour(v, row.from, row.next) {
            Some((u, l)) => {
                descend(rows, v, u, l, rules);
                v = u;
            }
            None => {
                relax(rows, v, row.from, row.from_length);
                v = row.from;
            }
        }
    }
}

/// The walk goes down from v to its next child u.
fn descend(rows: &mut [NodeRow], v: usize, u: usize, l: u64, rules: Rules)
    requires near { v < length rows.old }
    requires far { u < length rows.old }
    requires apart { u ≢ v }
    requires short { (k : ℕ) → directs rows.old k ≤ LONGEST }
    requires told { Low (slice_index_or rows.old v idle).mark.est l }
    requires room { Low (relax v u l (marks rows.old) u).est 0 }
    ensures { Gone rules.allowance.p rules.allowance.q rules.pins v u l rows.old rows.new }
{
    relax(rows, v, u, l);
    rows[u].enter(u, v, l, rules);
    rows[v].next = u + 1;
}

/// The node u relaxes the node v over their edge of length l.
fn relax(rows: &mut [NodeRow], u: usize, v: usize, l: u64)
    requires near { u < length rows.old }
    requires far { v < length rows.old }
    requires room { Low (slice_index_or rows.old u idle).mark.est l }
    ensures after { marks rows.new ≡ relax u v l (marks rows.old) }
    ensures places { Places rows.old rows.new }
{
    let Some(e) = rows[u].mark.est else {
        return;
    };
    let sum = e + l;
    rows[v].offer(u, l, sum);
}
