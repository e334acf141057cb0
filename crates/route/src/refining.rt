// Moves until none is left.
ghost use Rattle.std.specs.Prelude.{◌≡◌, is_ok};

use net::{Fault, Joining, Net, Space};

/// The most turns of refining. Each move saves 1 or more, so the moves run out, but in a wide space there may be more of them than this.
pub const TURNS: u32 = 768 * 768;

/// How many moves of one kind were made, and what they saved.
#[derive(Clone, Copy, Default)]
pub struct Made {
    /// How many moves were made.
    pub moves: u64,
    /// How much wire they saved in all, in units of distance.
    pub saved: u64,
}

/// What refining did, and whether it went on until it was refused.
#[derive(Clone, Copy, Default)]
pub struct Refined {
    /// The hook moves.
    pub hooks: Made,
    /// The share moves.
    pub shares: Made,
    /// Whether the last turn made no move; false where each of `TURNS` turns made one.
    pub refused: bool,
}

impl Made {
    /// Counts a move where it was made, and answers whether it was.
    fn count(&mut self, answer: Result<u64, Fault>) -> bool
        ensures { result ≡ is_ok answer }
    {
        let Ok(saving) = answer else {
            return false;
        };
        self.moves = self.moves.saturating_add(1);
        self.saved = self.saved.saturating_add(saving);
        true
    }
}

/// Makes turn after turn until one makes no move.
fn turns<T: FnMut(&mut Refined) -> bool>(mut turn: T) -> Refined
    requires { T.IsAlwaysCallable turn }
{
    let mut refined = Refined::default();
    for _ in 0..TURNS {
        if !turn(&mut refined) {
            refined.refused = true;
            return refined;
        }
    }
    refined
}

/// Hooks until a hook is refused.
pub fn hooks<S: Space>(net: &mut Net<S>) -> Refined {
    turns(|refined| refined.hooks.count(net.hook()))
}

/// Hooks and shares in turn until both are refused in one turn.
pub fn hooks_and_shares<S: Joining>(net: &mut Net<S>) -> Refined {
    turns(|refined| {
        let hooked = refined.hooks.count(net.hook());
        let shared = refined.shares.count(net.share());
        hooked || shared
    })
}
