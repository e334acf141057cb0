ghost use Rattle.std.specs.Prelude.{◌≡◌, ◌+◌, ◌≤◌, length, vec_capacity};
ghost use Rattle.order.specs.Bests.{BestOf, Decides};
ghost use Rattle.space.specs.declared.TheConstants.{LONGEST};
ghost use Rattle.tree.specs.declared.table.TheConstants.{ROWS};
ghost use Rattle.build_laws.specs.Pairs.{pair_before};
ghost use Rattle.joined.specs.Joinings.{Rising, Rows};

use build_laws::Pair;
use search::first;
use space::{Joining, LONGEST, Spot, capped_distance};
use std::alloc::{AllocError, Global};
use tree::{ROWS, Tree};

/// The memory for pairs, reserved once: the first pair of each member, and the pairs of one member.
#[derive(Drop)]
pub(crate) struct Partners {
    /// The first pair of each member that has a lower one.
    pub firsts: Vec<Pair>,
    /// The pairs of the member that is searched.
    pairs: Vec<Pair>,
    ghost firsts_room: { ROWS ≤ vec_capacity firsts },
    ghost pairs_room: { ROWS ≤ vec_capacity pairs },
}

impl Partners {
    /// Room for the pairs of as many members as a tree can have rows.
    pub fn new(heap: Global) -> Result<Partners, AllocError> {
        let firsts = Vec::with_capacity(heap, ROWS)?;
        let pairs = Vec::with_capacity(heap, ROWS)?;
        Ok(Partners { firsts, pairs })
    }
}

/// The members of a group, the tree of their rows, and the space that measures it.
#[derive(Drop)]
pub(crate) struct Group<'a, S: Joining> {
    /// The joining space that measures the rows.
    pub space: &'a S,
    /// The tree whose rows the members are.
    pub table: &'a Tree,
    /// The numbers of the members' rows, rising; at most `ROWS`.
    pub members: &'a [usize],
    ghost few: { length members.now ≤ ROWS },
    ghost rows: { Rows table.now.rows members.now },
    ghost rising: { Rising members.now },
}

/// What a step does to the group: the members `a` and `b` go, and `new` comes.
#[derive(Clone, Copy)]
pub(crate) struct Change {
    /// The row of one member that goes.
    pub a: usize,
    /// The row of the other member that goes.
    pub b: usize,
    /// The row that comes, their meet.
    pub new: usize,
}

impl<'a, S: Joining> Group<'a, S> {
    ghost use Rattle.joined.specs.Groups.{far_in, FirstsIn, LastingIn, NoneFarther, PartnerIn, ReadyIn, RenewedIn, StaleIn};

    /// How far the meet of two spots is from the driver's, seen from there. The two cases lie apart, so that what a meet rests on is not asked
    /// again for its distance.
    fn far(&self, driver: Spot, one: Spot, two: Spot) -> u64
        ensures value { result ≡ far_in S.Space S.Joining.own self.now driver one two }
        ensures bound { result ≤ LONGEST }
    {
        match self.space.meet(driver, one, two) {
            Some(meet) => capped_distance(self.space, driver, meet),
            None => capped_distance(self.space, driver, driver),
        }
    }

    /// Lists the pairs of `b` with lower members, none of which is farther than `most`, that are farther than all before them. No other can be
    /// the first: the members rise. So the list ends at a pair that is as far as `most`.
    fn list(&self, b: usize, most: u64, pairs: &mut Vec<Pair>)
        requires most { NoneFarther S.Space S.Joining.own self.now b most }
        requires room { ROWS ≤ vec_capacity pairs.old }
        ensures decides { Decides pair_before (PartnerIn S.Space S.Joining.own self.now b) pairs.new.items }
        ensures room { vec_capacity pairs.new ≡ vec_capacity pairs.old }
    {
        pairs.clear();
        let rows = self.table.rows();
        let driver = self.table.at(0).spot;
        let spot = self.table.at(b).spot;
        let mut least = 0;
        for &a in self.members {
            if a >= b || least > most {
                break;
            }
            let far = self.far(driver, rows[a].spot, spot);
            if far >= least {
                pairs.push_reserved(Pair { far, a, b });
                least = far + 1;
            }
        }
    }

    /// The first of the pairs of `b` with a lower member, none of which is farther than `most`.
    fn first_of(&self, b: usize, most: u64, pairs: &mut Vec<Pair>) -> Option<Pair>
        requires most { NoneFarther S.Space S.Joining.own self.now b most }
        requires room { ROWS ≤ vec_capacity pairs.old }
        ensures best { BestOf pair_before (PartnerIn S.Space S.Joining.own self.now b) result }
        ensures room { vec_capacity pairs.new ≡ vec_capacity pairs.old }
    {
        self.list(b, most, pairs);
        first(pairs.as_slice())
    }

    /// The first pair of each member that has a lower one.
    pub fn start(&self, partners: &mut Partners)
        ensures firsts { FirstsIn S.Space S.Joining.own self.now partners.new.firsts.items }
        ensures few { length partners.new.firsts.items ≤ length self.now.members.now }
    {
        partners.firsts.clear();
        for &member in self.members {
            if let Some(found) = self.first_of(member, LONGEST, &mut partners.pairs) {
                partners.firsts.push_reserved(found);
            }
        }
    }

    /// The first pair of a member after a step, where `pair` was that before it. There is none where the member has gone; else it is as it was
    /// unless its partner has gone. Then it is searched anew, and is no farther than it was, since fewer lower members are left.
    fn renewed(&self, pair: Pair, change: Change, pairs: &mut Vec<Pair>) -> Option<Pair>
        requires stale { StaleIn S.Space S.Joining.own self.now change pair }
        requires room { ROWS ≤ vec_capacity pairs.old }
        ensures renewed { RenewedIn S.Space S.Joining.own self.now change pair result }
        ensures room { vec_capacity pairs.new ≡ vec_capacity pairs.old }
    {
        let Change { a, b, .. } = change;
        if pair.b == a || pair.b == b {
            return None;
        }
        if pair.a != a && pair.a != b {
            return Some(pair);
        }
        self.first_of(pair.b, pair.far, pairs)
    }

    /// Makes the first pairs of the members before a step those that these have after it.
    fn renew_old(&self, change: Change, partners: &mut Partners)
        requires { ReadyIn S.Space S.Joining.own self.now change partners.old.firsts.items }
        ensures firsts { LastingIn S.Space S.Joining.own self.now change
            partners.old.firsts.items partners.new.firsts.items }
        ensures few { length partners.new.firsts.items ≤ length partners.old.firsts.items }
    {
        let mut kept = 0;
        for i in 0..partners.firsts.len() {
            let old = partners.firsts[i];
            if let Some(pair) = self.renewed(old, change, &mut partners.pairs) {
                partners.firsts[kept] = pair;
                kept += 1;
            }
        }
        partners.firsts.truncate(kept);
    }

    /// Makes the first pairs of the members before a step those after it.
    pub fn renew(&self, change: Change, partners: &mut Partners)
        requires { ReadyIn S.Space S.Joining.own self.now change partners.old.firsts.items }
        ensures firsts { FirstsIn S.Space S.Joining.own self.now partners.new.firsts.items }
        ensures few { length partners.new.firsts.items ≤ length partners.old.firsts.items + 1 }
    {
        self.renew_old(change, partners);
        if let Some(found) = self.first_of(change.new, LONGEST, &mut partners.pairs) {
            partners.firsts.push_reserved(found);
        }
    }
}
