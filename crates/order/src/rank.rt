ghost use Rattle.std.specs.Prelude.{◌≡◌, Bool};
ghost use Rattle.order.specs.Orders.{Order};

/// Candidates of one kind, of which any two different ones have a first.
// `Ord` says only that ties are equal by `==`; a search rests on more: two different candidates never tie.
pub trait Rank: Sized {
    ghost before: { Self → Self → Bool };

    /// Whether this candidate comes before the other.
    fn precedes(&self, other: &Self) -> bool
        ensures { result ≡ before self.now other.now };

    ghost order: { Order before };
}
