// What a net holds but its space, and the calls on it. They go by distances made total; the net, which is tied to its space, answers by the space's own.
ghost use Rattle.std.specs.Prelude.{◌≡◌, ◌+◌, ◌<◌, ◌≤◌, ℕ, true, length, vec_capacity, is_err, IfOk, IfErr, None, Some, IsTrue, ◌↔◌};
ghost use Rattle.forest.specs.Edges.{Joined, wire};
ghost use Rattle.net.specs.declared.state.TheConstants.{PINS, POINTS};
ghost use Rattle.net.specs.Held.{Checked, JoinableIn, JoinsIn, StraightBuilt, fault_of};
ghost use Rattle.net_laws.specs.Answers.{EdgeAnswer, HookAnswer, JoinedAnswer, PinAnswer, ShareAnswer, SteinerAnswer};
ghost use Rattle.net_laws.specs.States.{fresh, unseeded, with_allowance, with_edge, with_pin, with_point, with_seed};
ghost use Rattle.net.specs.Held.{total_joining, total_wiring};
ghost use Rattle.net_laws.specs.declared.fault.Fault.TheVariants.{NoTree, TooFewPins};
ghost use Rattle.space.specs.Totals.{meet_or_start, capped_distance};
ghost use Rattle.space.specs.declared.TheConstants.{LONGEST};
ghost use Rattle.span.specs.Lengths.{lengths};
ghost use Rattle.space.specs.Spots.{spot_of};
ghost use Rattle.span_laws.specs.Spanning.{SpanningSeed};

use joined::Joiner;
use net_laws::{Fault, SpaceFault};
use seed::Seed;
use share::{ShareFault, Sharer, share_best};
use space::{Joining, LONGEST, Space, Spot, capped_distance};
use span::Spanner;
use std::alloc::{AllocError, Global};
use std::marker::Model;
use straight::Builder;
use tree::{Refiner, Tree, hook_best};
use walk::Allowance;

/// The most pins that a net can have.
pub(crate) const PINS: usize = 256;

/// The most Steiner points that a net can have.
pub(crate) const POINTS: usize = 256;

/// The spots of the nodes, pins first and then Steiner points; how many of them are pins; the allowance; the edges; and the tree. Where none
/// stands, the `Tree` is for the next, and its memory stays reserved.
#[derive(Drop)]
pub(crate) struct NetState {
    pub(crate) spots: Vec<Spot>,
    pub(crate) pins: usize,
    allowance: Option<Allowance>,
    seed: Seed,
    table: Tree,
    stands: bool,
    ghost room: { PINS + POINTS ≤ vec_capacity spots },
    ghost first: { pins ≤ length spots.items },
    ghost few: { pins ≤ PINS },
    ghost points: { length spots.items ≤ pins + POINTS },
    ghost nodes: { seed.nodes ≡ length spots.items },
}

impl Model for NetState {
    ghost use Rattle.net_laws.specs.States.{State};

    ghost Value = { State };

    ghost use Rattle.net.specs.Held.{ratio_of, rows_standing};

    ghost view = { λ n. record {
      spots = n.spots.items;
      pins = n.pins;
      allowance = ratio_of n.allowance;
      edges = n.seed.edges;
      tree = rows_standing n.stands n.table;
    } };
}

/// Whether each of the pins is at least 1 away from `spot`.
fn apart<S: Space>(space: &S, pins: &[Spot], spot: Spot) -> bool
    ensures { IsTrue result ↔
        ((k : ℕ) → k < length pins.now → 1 ≤ capped_distance S.Space space.now (spot_of pins.now k) spot) }
{
    pins.iter()
        .all(|pin| capped_distance(space, *pin, spot) != 0)
}

/// The refusal of a share move as one of the net.
fn fault_of(fault: ShareFault) -> Fault
    ensures { result ≡ fault_of fault }
{
    match fault {
        ShareFault::Nothing => Fault::NoMove,
        ShareFault::Full => Fault::TooManyRows,
    }
}

impl NetState {
    /// A state without nodes.
    pub(crate) fn new(heap: Global) -> Result<NetState, AllocError>
        ensures { IfOk result (λ n. n ≡ fresh) }
    {
        let spots = Vec::with_capacity(heap, PINS + POINTS)?;
        let seed = Seed::new(heap)?;
        let table = Tree::new(heap, Spot::default())?;
        Ok(NetState {
            spots,
            pins: 0,
            allowance: None,
            seed,
            table,
            stands: false,
        })
    }

    /// Refuses where there are fewer than two pins.
    pub(crate) fn paired(&self) -> Result<(), Fault>
        ensures { Checked (2 ≤ self.now.pins) TooFewPins result }
    {
        (self.pins >= 2).then_some(()).ok_or(Fault::TooFewPins)
    }

    /// Adds a pin in place of Steiner points, edges and tree, and answers its number.
    fn add_pin(&mut self, spot: Spot) -> usize
        requires { self.old.pins < PINS }
        ensures number { result ≡ self.old.pins }
        ensures added { self.new ≡ with_pin self.old spot }
    {
        let pin = self.pins;
        self.spots.truncate(pin);
        self.spots.push_reserved(spot);
        self.seed.restart(pin + 1).unwrap();
        self.pins = pin + 1;
        self.stands = false;
        pin
    }

    /// Adds a pin, where the space admits it and it is apart from the others.
    pub(crate) fn pin<S: Space>(&mut self, space: &S, spot: Spot) -> Result<usize, Fault>
        ensures answer { PinAnswer (total_wiring S.Space space.now) self.old self.new spot result }
        ensures unchanged { is_err result ≡ true → self.new ≡ self.old }
    {
        if space.widest() > LONGEST {
            return Err(Fault::Space(SpaceFault::TooWide));
        }
        if !space.admits(spot) {
            return Err(Fault::Space(SpaceFault::NotAdmitted));
        }
        if self.pins >= PINS {
            return Err(Fault::TooManyPins);
        }
        if !apart(space, &self.spots[..self.pins], spot) {
            return Err(Fault::TooClose);
        }
        Ok(self.add_pin(spot))
    }

    /// Sets the allowance and drops the tree.
    pub(crate) fn allow(&mut self, allowance: Allowance)
        ensures { self.new ≡ with_allowance self.old allowance.p allowance.q }
    {
        self.allowance = Some(allowance);
        self.stands = false;
    }

    /// Adds a Steiner point, drops the tree, and answers the point's number.
    fn add_point(&mut self, spot: Spot) -> usize
        requires { length self.old.spots < self.old.pins + POINTS }
        ensures number { result ≡ length self.old.spots }
        ensures added { self.new ≡ with_point self.old spot }
    {
        let point = self.spots.len();
        self.spots.push_reserved(spot);
        self.seed.add_node().unwrap();
        self.stands = false;
        point
    }

    /// Adds a Steiner point, where the space admits it.
    pub(crate) fn steiner<S: Space>(&mut self, space: &S, spot: Spot) -> Result<usize, Fault>
        ensures answer { SteinerAnswer (total_wiring S.Space space.now) self.old self.new spot result }
        ensures unchanged { is_err result ≡ true → self.new ≡ self.old }
    {
        self.paired()?;
        if !space.admits(spot) {
            return Err(Fault::Space(SpaceFault::NotAdmitted));
        }
        if self.spots.len() >= self.pins + POINTS {
            return Err(Fault::TooManyPoints);
        }
        Ok(self.add_point(spot))
    }

    /// Adds an edge and drops the tree.
    fn add_edge(&mut self, a: usize, b: usize, long: u64)
        requires one { a < length self.old.spots }
        requires other { b < length self.old.spots }
        requires open { Joined self.old.edges a b → ⊥ }
        requires fit { (0 < long) × (long ≤ LONGEST) }
        ensures { self.new ≡ with_edge self.old a b long }
    {
        self.seed.join(a, b, long).unwrap();
        self.stands = false;
    }

    /// Adds an edge between two nodes that no path of edges joins, and answers its length.
    pub(crate) fn edge<S: Space>(&mut self, space: &S, a: usize, b: usize) -> Result<u64, Fault>
        ensures answer { EdgeAnswer (total_wiring S.Space space.now) self.old self.new a b result }
        ensures unchanged { is_err result ≡ true → self.new ≡ self.old }
    {
        self.paired()?;
        let nodes = self.spots.len();
        if a >= nodes || b >= nodes {
            return Err(Fault::NoNode);
        }
        if self.seed.joined(a, b) {
            return Err(Fault::Joined);
        }
        let length = capped_distance(space, self.spots[a], self.spots[b]);
        if length == 0 {
            return Err(Fault::NoLength);
        }
        self.add_edge(a, b, length);
        Ok(length)
    }

    /// Drops the Steiner points, the edges and the tree.
    pub(crate) fn unseed(&mut self)
        ensures { self.new ≡ unseeded self.old }
    {
        self.spots.truncate(self.pins);
        self.seed.restart(self.pins).unwrap();
        self.stands = false;
    }

    /// Grows the spanning seed of the pins in place of Steiner points, edges and tree, and answers its wire.
    pub(crate) fn span<S: Space>(&mut self, space: &S, spanner: &mut Spanner) -> u64
        requires { 2 ≤ self.old.pins }
        ensures spans { SpanningSeed self.old.pins (lengths S.Space space.now self.old.spots) self.new.edges }
        ensures wire { result ≡ wire self.new.edges }
        ensures grown { self.new ≡ with_seed self.old self.new.edges }
    {
        self.spots.truncate(self.pins);
        self.stands = false;
        // The call is not refused here; `unwrap` would have that proved once more, beside the answer.
        spanner
            .grow(space, self.spots.as_slice(), &mut self.seed)
            .unwrap_or(0)
    }

    /// The tree, where one stands.
    pub(crate) fn tree(&self) -> Result<&Tree, Fault>
        ensures some { IfOk result (λ t. self.now.tree ≡ Some t.now.rows) }
        ensures none { IfErr result (λ e. (e ≡ NoTree) × (self.now.tree ≡ None)) }
    {
        if !self.stands {
            return Err(Fault::NoTree);
        }
        Ok(&self.table)
    }

    /// Builds the straight tree and answers its wire. Refused where there are fewer than two pins, no allowance is set, or the seed is no tree.
    pub(crate) fn straight<S: Space>(
        &mut self,
        space: &S,
        builder: &mut Builder,
    ) -> Result<u64, Fault>
        ensures built { StraightBuilt (capped_distance S.Space space.now)
            self.old builder.new result self.new }
        ensures unchanged { is_err result ≡ true → self.new ≡ self.old }
    {
        self.paired()?;
        let Some(allowance) = self.allowance else {
            return Err(Fault::NoAllowance);
        };
        let Some(seed) = self.seed.as_tree() else {
            return Err(Fault::NoSeed);
        };
        let spots = self.spots.as_slice();
        let table = &mut self.table;
        let wire = builder.straight(space, spots, self.pins, allowance, &seed, table);
        self.stands = true;
        // There is a spot for each node, so a tree was built.
        Ok(wire.unwrap_or(0))
    }

    /// Joins rows on the driver, pair after pair, and answers the wire of the tree.
    fn join<S: Joining>(&mut self, space: &S, joiner: &mut Joiner, members: &[usize]) -> u64
        requires { JoinableIn self.old members.now }
        ensures { JoinsIn (capped_distance S.Space space.now) (meet_or_start S.Space S.Joining.own space.now)
            self.old members.now result self.new }
    {
        // The call is not refused here; `unwrap` would have that proved once more, beside the answer.
        joiner.join(space, &mut self.table, members).unwrap_or(0)
    }

    /// Builds the straight tree, joins its breakpoints pair after pair, and answers the wire. Refused as `straight` is.
    pub(crate) fn joined<S: Joining>(
        &mut self,
        space: &S,
        builder: &mut Builder,
        joiner: &mut Joiner,
    ) -> Result<u64, Fault>
        ensures answer { JoinedAnswer (total_joining S.Space S.Joining.own space.now) self.old self.new result }
        ensures unchanged { is_err result ≡ true → self.new ≡ self.old }
    {
        self.straight(space, builder)?;
        Ok(self.join(space, joiner, builder.broken()))
    }

    /// Makes the best hook move of the tree and answers what it saves.
    pub(crate) fn hook<S: Space>(&mut self, space: &S, refiner: &mut Refiner) -> Result<u64, Fault>
        ensures answer { HookAnswer (total_wiring S.Space space.now) self.old self.new result }
        ensures unchanged { is_err result ≡ true → self.new ≡ self.old }
    {
        if !self.stands {
            return Err(Fault::NoTree);
        }
        let saving = hook_best(space, &mut self.table, refiner).ok_or(Fault::NoMove)?;
        Ok(saving)
    }

    /// Makes the best share move of the tree and answers what it saves.
    pub(crate) fn share<S: Joining>(&mut self, space: &S, sharer: &mut Sharer) -> Result<u64, Fault>
        ensures answer { ShareAnswer (total_joining S.Space S.Joining.own space.now) self.old self.new result }
        ensures unchanged { is_err result ≡ true → self.new ≡ self.old }
    {
        if !self.stands {
            return Err(Fault::NoTree);
        }
        share_best(space, &mut self.table, sharer).map_err(fault_of)
    }
}
