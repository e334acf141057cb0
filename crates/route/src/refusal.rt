// How a refusal is printed.
ghost use Rattle.std.specs.Prelude.{◌≡◌};
ghost use Rattle.net_laws.specs.Faults.{layer_of};
ghost use Rattle.route.specs.Letters.{letter_of};

use net::{Fault, Layer};
use std::fmt;

/// A refusal as its layer's letter, its number and its reason.
#[derive(Clone, Copy)]
pub struct Refusal(pub Fault);

/// The letter of the layer that refuses: `s` for the space, `n` for the net.
fn letter(fault: Fault) -> char
    ensures { result ≡ letter_of (layer_of fault) }
{
    match fault.layer() {
        Layer::Space => 's',
        Layer::Net => 'n',
    }
}

impl fmt::Display for Refusal {
    fn fmt<W: fmt::Write>(&self, f: &mut fmt::Formatter<W>) -> fmt::Result {
        let Refusal(fault) = self;
        let letter = letter(*fault);
        let number = fault.number();
        write!(f, "refused, {letter}{number}: {fault}")
    }
}
