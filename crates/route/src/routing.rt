// A net from its pins to its refined tree.
ghost use Rattle.std.specs.Prelude.{◌≡◌, ◌+◌, ◌*◌, ◌/◌, true, is_ok, Err, IfErr, IfOk, Some};
ghost use Rattle.net_laws.specs.declared.fault.Fault.{Fault};
ghost use Rattle.route.specs.Stops.{refusal_in};
ghost use Rattle.route.specs.declared.routing.Stop.TheVariants.{Print as printed};

use crate::printing::{print_figure, print_refusal};
use crate::refining::{Refined, TURNS, hooks, hooks_and_shares};
use crate::refusal::Refusal;
use crate::table::{on_driver, print_meets, print_pins, print_rows, wire};
use input::{Allowance, Entry};
use net::{Fault, Joining, Net, Space, Worst};
use std::io;

/// Why a net is not routed: a line could not be printed, or a call was refused.
#[derive(Drop)]
enum Stop {
    Print(io::Error),
    Refused(&'static str, Fault),
}

impl From<io::Error> for Stop {
    ghost from_gives = { λ e r. r ≡ printed e };

    fn from(error: io::Error) -> Stop {
        Stop::Print(error)
    }
}

/// A net that is routed: where its report is printed, the space that it is in, and the allowance that it is built by.
#[derive(Drop)]
pub struct Route<'a, S: Space> {
    /// Where the report is printed.
    pub rt: &'a HostRuntime,
    /// The net that is routed.
    pub net: Net<S>,
    /// The space that the net is in.
    pub space: S,
    /// The allowance of every sink.
    pub allowance: Allowance,
}

impl<'a, S: Space> Route<'a, S> {
    /// Routes the spots in a space that can only measure, and answers how many pins were routed: all that were taken, or none.
    pub fn measuring(&mut self, entries: &[Entry]) -> io::Result<usize> {
        let pins = self.enter(entries)?;
        let built = self.build().map(|()| hooks(&mut self.net));
        self.finish(built, pins)
    }

    /// Enters the spots as pins, reports those that are refused, and answers how many were taken.
    fn enter(&mut self, entries: &[Entry]) -> io::Result<usize> {
        let mut pins: usize = 0;
        for entry in entries {
            match self.net.pin(entry.spot) {
                Ok(_) => pins = pins.saturating_add(1),
                Err(fault) => print_left_out(self.rt, *entry, fault)?,
            }
        }
        print_figure(self.rt, "pins", pins as u64)?;
        Ok(pins)
    }

    /// Sets the allowance, grows the spanning seed of the pins, builds the straight tree and prints how it hangs.
    fn build(&mut self) -> Result<(), Stop> {
        self.net
            .allow(self.allowance.p(), self.allowance.q())
            .map_err(|fault| Stop::Refused("allowance", fault))?;
        done(self.rt, "spanning seed", self.net.span())?;
        done(self.rt, "straight tree", self.net.straight())?;
        print_figure(self.rt, "on the driver", on_driver(&self.net))?;
        self.print_worst("straight worst")?;
        Ok(())
    }

    /// Prints the refusal, where there is one, else the refined tree; answers how many pins were routed.
    fn finish(&self, built: Result<Refined, Stop>, pins: usize) -> io::Result<usize> {
        match built {
            Ok(refined) => {
                self.print_tree(refined)?;
                Ok(pins)
            }
            Err(Stop::Refused(name, fault)) => {
                print_refusal(self.rt, name, fault)?;
                Ok(0)
            }
            Err(Stop::Print(error)) => Err(error),
        }
    }

    /// Prints what refining did, the worst sink, the rows of the tree, and how far each pin is.
    fn print_tree(&self, refined: Refined) -> io::Result<()> {
        print_figure(self.rt, "refined tree", wire(&self.net))?;
        print_refined(self.rt, refined)?;
        self.print_worst("worst sink")?;
        print_rows(self.rt, &self.net)?;
        print_pins(self.rt, &self.net)
    }

    /// Prints the worst sink with its figure, and the greatest figure that the allowance leaves, both in thousandths.
    fn print_worst(&self, name: &str) -> io::Result<()> {
        match self.net.worst() {
            Ok(Worst { pin, figure }) => {
                let most = most_allowed(self.allowance);
                println!(self.rt;
                    "  {name:<15} {figure:>12}  thousandths of the direct distance at pin {pin}, {most} allowed"
                )
            }
            Err(fault) => print_refusal(self.rt, name, fault),
        }
    }
}

impl<'a, S: Joining> Route<'a, S> {
    /// Routes the spots in a space that can join wires too, and answers how many pins were routed: all that were taken, or none.
    pub fn joining(&mut self, entries: &[Entry]) -> io::Result<usize> {
        let pins = self.enter(entries)?;
        let built = self
            .build_joined()
            .map(|()| hooks_and_shares(&mut self.net));
        let routed = self.finish(built, pins)?;
        print_meets(self.rt, &self.net, &self.space, routed)?;
        Ok(routed)
    }

    /// Builds the joined tree in place of the straight one.
    fn build_joined(&mut self) -> Result<(), Stop> {
        self.build()?;
        done(self.rt, "joined tree", self.net.joined())
    }
}

/// Prints that the net refused a spot as a pin.
fn print_left_out(rt: &HostRuntime, entry: Entry, fault: Fault) -> io::Result<()> {
    let Entry { line, spot } = entry;
    let refusal = Refusal(fault);
    println!(rt; "  line {line}: {spot} {refusal}")
}

/// Prints the wire that a call answered.
fn done(rt: &HostRuntime, name: &'static str, answer: Result<u64, Fault>) -> Result<(), Stop>
    ensures made { IfOk result (λ u. is_ok answer ≡ true) }
    ensures refused { IfErr result (λ stop. (fault : Fault) → refusal_in stop ≡ Some fault → answer ≡ Err fault) }
{
    let wire = answer.map_err(|fault| Stop::Refused(name, fault))?;
    print_figure(rt, name, wire)?;
    Ok(())
}

fn print_refined(rt: &HostRuntime, refined: Refined) -> io::Result<()> {
    let Refined {
        hooks,
        shares,
        refused,
    } = refined;
    print_figure(rt, "saved", hooks.saved.saturating_add(shares.saved))?;
    print_figure(rt, "hooks", hooks.moves)?;
    print_figure(rt, "shares", shares.moves)?;
    if refused {
        return Ok(());
    }
    print_figure(rt, "stopped at turn", u64::from(TURNS))
}

/// What a path may be in thousandths of the direct distance, the fraction dropped.
fn most_allowed(allowance: Allowance) -> u64
    ensures { result ≡ 1000 * (allowance.p + allowance.q) / allowance.q }
{
    let p = allowance.p();
    let q = allowance.q();
    1000 * (p + q) / q
}
