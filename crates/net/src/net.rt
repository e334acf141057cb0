ghost use Rattle.std.specs.Prelude.{◌≡◌, ◌<◌, true, is_err, is_ok, IfOk, Ok, Some};
ghost use Rattle.net.specs.Held.{total_joining, total_wiring};
ghost use Rattle.net.specs.NetValue.{Answered, JoinAnswered};
ghost use Rattle.net_laws.specs.Answers.{AllowAnswer, EdgeAnswer, HookAnswer, JoinedAnswer, PinAnswer, ShareAnswer, SpanBy, SteinerAnswer, StraightAnswer};
ghost use Rattle.net_laws.specs.Readings.{PathAnswer, RowAnswer, RowsAnswer, WorstAnswer, figure_of};
ghost use Rattle.net_laws.specs.Sinks.{FiguredSinkAt};
ghost use Rattle.net_laws.specs.Builds.{Bounds, EdgeForEdge, NoMoreThanStraight};
ghost use Rattle.net_laws.specs.Spaces.{TiedToSpace, joining, wiring};
ghost use Rattle.net_laws.specs.States.{fresh};
ghost use Rattle.net_laws.specs.Worsts.{worst_before};
ghost use Rattle.net_laws.specs.declared.call.Call.TheVariants.{Edge as EdgeCall, Hook as HookCall, Pin as PinCall, Span as SpanCall, Steiner as SteinerCall, Straight as StraightCall, Unseed as UnseedCall};
ghost use Rattle.net_laws.specs.declared.call.JoinCall.TheVariants.{Joined as JoinedCall, Share as ShareCall};
ghost use Rattle.order.specs.Bests.{BestOf};
ghost use Rattle.space.specs.Totals.{capped_distance, edge_length};

use crate::state::NetState;
use joined::Joiner;
use net_laws::{Fault, PinPath, Worst};
use search::first_found;
use share::Sharer;
use space::{Joining, Space, Spot, capped_distance, edge_length};
use span::Spanner;
use std::alloc::{AllocError, Global};
use std::marker::Model;
use straight::Builder;
use tree::{Refiner, Tree};
use tree_laws::Row;
use walk::Allowance;

/// A net in a wiring space, to which it is tied: its spots are admitted there, its pins are at least 1 apart, and the lengths of its edges and
/// of the rows of its tree are the space's distances. All memory is reserved when it is made; no call takes more.
///
/// It has at most 256 pins and 256 Steiner points, and its tree at most 768 rows. A call that is refused leaves the net as it was.
#[derive(Drop)]
pub struct Net<S: Space> {
    space: S,
    state: NetState,
    // The memory that the calls work in.
    spanner: Spanner,
    builder: Builder,
    joiner: Joiner,
    refiner: Refiner,
    sharer: Sharer,
}

impl<S: Space> Model for Net<S> {
    ghost use Rattle.net.specs.NetValue.{NetValue};

    ghost Value = { NetValue S };

    ghost use Rattle.net_laws.specs.Spaces.{TiedToSpace};

    ghost view = { λ n. record { space = n.space; state = n.state } };

    ghost invariant = { λ n. TiedToSpace S.Space n.space n.state };
}

impl<S: Space + Drop> Net<S> {
    /// A net without nodes in the space. Memory for the largest net is taken here, and fails here.
    pub fn new(heap: Global, space: S) -> Result<Net<S>, AllocError>
        ensures made { IfOk result (λ n. n ≡ record { space = space; state = fresh }) }
        ensures tied { IfOk result (λ n. TiedToSpace S.Space n.space n.state) }
    {
        let state = NetState::new(heap)?;
        let spanner = Spanner::new(heap)?;
        let builder = Builder::new(heap)?;
        let joiner = Joiner::new(heap)?;
        let refiner = Refiner::new(heap)?;
        let sharer = Sharer::new(heap)?;
        Ok(Net {
            space,
            state,
            spanner,
            builder,
            joiner,
            refiner,
            sharer,
        })
    }
}

impl<S: Space> Net<S> {
    /// Adds a pin, the first of them the driver, and answers its number. Steiner points, edges and tree are dropped. Refused, in this order, where
    /// the space is too wide (1) or does not admit the spot (2), there are 256 pins (3), or a pin is less than 1 away (4).
    pub fn pin(&mut self, spot: Spot) -> Result<usize, Fault>
        ensures answer { Answered S.Space self.old self.new (PinCall spot) result }
        ensures always { PinAnswer (total_wiring S.Space self.old.space) self.old.state self.new.state spot result }
        ensures tied { TiedToSpace S.Space self.new.space self.new.state }
        ensures unchanged { is_err result ≡ true → self.new ≡ self.old }
        ensures stays { self.new.space ≡ self.old.space }
    {
        self.state.pin(&self.space, spot)
    }

    /// Sets the allowance p/q: a sink's path may be (p + q) / q of its direct distance. The tree is dropped. Refused where p is above 1,000, or q
    /// is 0 or above 1,000 (5).
    pub fn allow(&mut self, p: u64, q: u64) -> Result<(), Fault>
        ensures answer { AllowAnswer (wiring S.Space self.old.space) self.old.state self.new.state p q result }
        ensures tied { TiedToSpace S.Space self.new.space self.new.state }
        ensures unchanged { is_err result ≡ true → self.new ≡ self.old }
        ensures stays { self.new.space ≡ self.old.space }
    {
        let state = &mut self.state;
        let allowance = Allowance::new(p, q).ok_or(Fault::BadAllowance)?;
        state.allow(allowance);
        Ok(())
    }

    /// Adds a Steiner point and answers its number. The tree is dropped. Refused, in this order, where there are fewer than two pins (6), the
    /// space does not admit the spot (2), or there are 256 Steiner points (7).
    pub fn steiner(&mut self, spot: Spot) -> Result<usize, Fault>
        ensures answer { Answered S.Space self.old self.new (SteinerCall spot) result }
        ensures always { SteinerAnswer (total_wiring S.Space self.old.space) self.old.state self.new.state spot result }
        ensures tied { TiedToSpace S.Space self.new.space self.new.state }
        ensures unchanged { is_err result ≡ true → self.new ≡ self.old }
        ensures stays { self.new.space ≡ self.old.space }
    {
        self.state.steiner(&self.space, spot)
    }

    /// Adds an edge between the nodes `a` and `b`, and answers its length. The tree is dropped. Refused, in this order, where there are fewer than
    /// two pins (6), a number is no node (8), a path of edges joins the nodes already (9), or they are less than 1 apart (10).
    pub fn edge(&mut self, a: usize, b: usize) -> Result<u64, Fault>
        ensures answer { Answered S.Space self.old self.new (EdgeCall a b) result }
        ensures always { EdgeAnswer (total_wiring S.Space self.old.space) self.old.state self.new.state a b result }
        ensures tied { TiedToSpace S.Space self.new.space self.new.state }
        ensures unchanged { is_err result ≡ true → self.new ≡ self.old }
        ensures stays { self.new.space ≡ self.old.space }
    {
        self.state.edge(&self.space, a, b)
    }

    /// Drops the Steiner points, the edges and the tree.
    pub fn unseed(&mut self)
        ensures answer { Answered S.Space self.old self.new UnseedCall (Ok 0) }
        ensures tied { TiedToSpace S.Space self.new.space self.new.state }
        ensures stays { self.new.space ≡ self.old.space }
    {
        self.state.unseed();
    }

    /// Grows the spanning seed of the pins in place of Steiner points and edges, and answers its wire. The tree is dropped. Refused where there are
    /// fewer than two pins (6). The time grows with the square of the pins.
    pub fn span(&mut self) -> Result<u64, Fault>
        ensures answer { Answered S.Space self.old self.new SpanCall result }
        ensures always { SpanBy (total_wiring S.Space self.old.space) self.old.state self.new.state
            (edge_length S.Space self.old.space) result }
        ensures tied { TiedToSpace S.Space self.new.space self.new.state }
        ensures unchanged { is_err result ≡ true → self.new ≡ self.old }
        ensures stays { self.new.space ≡ self.old.space }
    {
        self.state.paired()?;
        Ok(self.state.span(&self.space, &mut self.spanner))
    }

    /// Builds the straight tree of the seed, in place of a tree that stands, and answers its wire. Refused, in this order, where there are fewer
    /// than two pins (6), no allowance is set (11), or the edges are not one fewer than the nodes (12).
    pub fn straight(&mut self) -> Result<u64, Fault>
        ensures answer { Answered S.Space self.old self.new StraightCall result }
        ensures always { StraightAnswer (total_wiring S.Space self.old.space) self.old.state self.new.state result }
        ensures tied { TiedToSpace S.Space self.new.space self.new.state }
        ensures bounds { is_ok result ≡ true
            → Bounds (wiring S.Space self.old.space) self.old.state self.new.state }
        ensures spared { is_ok result ≡ true
            → EdgeForEdge (wiring S.Space self.old.space) self.old.state self.new.state }
        ensures unchanged { is_err result ≡ true → self.new ≡ self.old }
        ensures stays { self.new.space ≡ self.old.space }
    {
        self.state.straight(&self.space, &mut self.builder)
    }

    /// Makes the best hook move of the tree and answers what it saves. Refused where no tree stands (13) or no move saves wire (14). The time grows
    /// with the square of the rows.
    pub fn hook(&mut self) -> Result<u64, Fault>
        ensures answer { Answered S.Space self.old self.new HookCall result }
        ensures always { HookAnswer (total_wiring S.Space self.old.space) self.old.state self.new.state result }
        ensures tied { TiedToSpace S.Space self.new.space self.new.state }
        ensures unchanged { is_err result ≡ true → self.new ≡ self.old }
        ensures stays { self.new.space ≡ self.old.space }
    {
        self.state.hook(&self.space, &mut self.refiner)
    }

    /// How many rows the tree has; they are numbered from 0. Refused where no tree stands (13).
    pub fn rows(&self) -> Result<usize, Fault>
        ensures { RowsAnswer self.now.state result }
    {
        Ok(self.state.tree()?.len())
    }

    /// The row `k` of the tree. Refused where no tree stands (13), or there is no such row (16).
    pub fn row(&self, k: usize) -> Result<Row, Fault>
        ensures { RowAnswer self.now.state k result }
    {
        let tree = self.state.tree()?;
        tree.row(k).ok_or(Fault::OutOfRange)
    }

    /// How far the pin `k` is from the driver: along the tree, and directly. Refused where no tree stands (13), or there is no such pin (16). The time
    /// grows with the rows on the path.
    pub fn path(&self, k: usize) -> Result<PinPath, Fault>
        ensures answer { PathAnswer (S.Space.between self.now.space) self.now.state k result }
        ensures always { PathAnswer (capped_distance S.Space self.now.space) self.now.state k result }
    {
        let tree = self.state.tree()?;
        if k >= self.state.pins {
            return Err(Fault::OutOfRange);
        }
        let path = tree.path(k).ok_or(Fault::OutOfRange)?;
        let direct = capped_distance(&self.space, self.state.spots[0], self.state.spots[k]);
        Ok(PinPath { path, direct })
    }

    /// 1000 times the path of the pin `k` by its direct distance, the fraction dropped.
    fn figure(&self, tree: &Tree, k: usize) -> u64
        requires pin { k < self.now.state.pins }
        requires stands { self.now.state.tree ≡ Some tree.now.rows }
        ensures { result ≡ figure_of (edge_length S.Space self.now.space) self.now.state tree.now.rows k }
    {
        let direct = edge_length(&self.space, self.state.spots[0], self.state.spots[k]);
        1000 * tree.path(k).unwrap_or(0) / direct
    }

    /// The pin `k` with its figure, where it is a sink.
    fn sink(&self, tree: &Tree, k: usize) -> Option<Worst>
        requires pin { k < self.now.state.pins }
        requires stands { self.now.state.tree ≡ Some tree.now.rows }
        ensures { BestOf worst_before
            (FiguredSinkAt (edge_length S.Space self.now.space) self.now.state tree.now.rows k) result }
    {
        if k == 0 {
            return None;
        }
        let figure = self.figure(tree, k);
        Some(Worst { pin: k, figure })
    }

    /// The sink whose path is the longest by its direct distance. Refused where no tree stands (13).
    pub fn worst(&self) -> Result<Worst, Fault>
        ensures answer { WorstAnswer (S.Space.between self.now.space) self.now.state result }
        ensures always { WorstAnswer (edge_length S.Space self.now.space) self.now.state result }
    {
        let tree = self.state.tree()?;
        // There are 2 pins or more, so there is a sink.
        Ok(first_found(self.state.pins, |k| self.sink(tree, k)).unwrap())
    }
}

impl<S: Joining> Net<S> {
    /// Builds the straight tree of the seed and joins its breakpoints pair after pair, in place of a tree that stands, and answers the wire. Refused
    /// as `straight` is (6, 11, 12).
    pub fn joined(&mut self) -> Result<u64, Fault>
        ensures answer { JoinAnswered S.Space S.Joining.own self.old self.new JoinedCall result }
        ensures always { JoinedAnswer (total_joining S.Space S.Joining.own self.old.space) self.old.state self.new.state result }
        ensures tied { TiedToSpace S.Space self.new.space self.new.state }
        ensures bounds { is_ok result ≡ true
            → Bounds (joining S.Space S.Joining.own self.old.space) self.old.state self.new.state }
        ensures spared { is_ok result ≡ true
            → EdgeForEdge (joining S.Space S.Joining.own self.old.space) self.old.state self.new.state }
        ensures shorter { is_ok result ≡ true
            → NoMoreThanStraight (joining S.Space S.Joining.own self.old.space) self.old.state self.new.state }
        ensures unchanged { is_err result ≡ true → self.new ≡ self.old }
        ensures stays { self.new.space ≡ self.old.space }
    {
        self.state
            .joined(&self.space, &mut self.builder, &mut self.joiner)
    }

    /// Makes the best share move of the tree and answers what it saves. Refused, in this order, where no tree stands (13), no move saves wire (14), or
    /// the tree has 768 rows (15). The time grows with the square of the rows.
    pub fn share(&mut self) -> Result<u64, Fault>
        ensures answer { JoinAnswered S.Space S.Joining.own self.old self.new ShareCall result }
        ensures always { ShareAnswer (total_joining S.Space S.Joining.own self.old.space) self.old.state self.new.state result }
        ensures tied { TiedToSpace S.Space self.new.space self.new.state }
        ensures unchanged { is_err result ≡ true → self.new ≡ self.old }
        ensures stays { self.new.space ≡ self.old.space }
    {
        self.state.share(&self.space, &mut self.sharer)
    }
}
