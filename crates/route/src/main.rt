#![tactic(auto)]

// Routes a net from its pins to its tree, in a lift over plane and in a lift over air: `route [PRICE] [ALLOWANCE]`. Standard input has a
// spot `x,y,level` a line, the driver first; PRICE is the price of the lift, 40 where there is none; ALLOWANCE is p/q, 1/4 where there
// is none.
mod printing;
mod refining;
mod refusal;
mod routing;
mod table;

use clap::{Arg, Command};
use input::Arguments;
use net::{Air, Lift, Net, Plane, Space};
use routing::Route;
use std::alloc::{AllocError, Global};
use std::process::ExitCode;
use std::{env, io};

/// The name of the first argument.
const PRICE: &str = "PRICE";

/// The name of the second argument.
const ALLOWANCE: &str = "ALLOWANCE";

fn main(rt: HostRuntime) -> anyhow::Result<ExitCode> {
    run(&rt)
}

/// Reads the arguments and routes; prints why they are no arguments, or the help, where they ask for it.
fn run(rt: &HostRuntime) -> anyhow::Result<ExitCode> {
    let words: Vec<String> = env::args(rt)?.collect(rt.alloc())?;
    match command(rt.alloc())?.try_get_matches_from(words.as_slice()) {
        Ok(matches) => {
            let price = matches.get_str(PRICE);
            let allowance = matches.get_str(ALLOWANCE);
            route(rt, Arguments::new(price, allowance)?)?;
            Ok(ExitCode::SUCCESS)
        }
        Err(error) => {
            error.print(rt)?;
            Ok(ExitCode::from(u8::from(error.use_stderr())))
        }
    }
}

/// The command line. A word that begins with a hyphen is a value where it is no option, so a price below 0 is refused as a price.
fn command<'a>(alloc: Global) -> Result<Command<'a>, AllocError> {
    let price = Arg::new(alloc, PRICE).allow_hyphen_values(true).help(
        "The price of a level in both lifts, from 0 to 4294967295; 40 where it is not given",
    );
    let allowance = Arg::new(alloc, ALLOWANCE).allow_hyphen_values(true).help(
        "How much longer than its direct distance a path may be, as p/q; 1/4 where it is not given",
    );
    Command::new(alloc, "route")
        .about("Routes the net on standard input, one spot x,y,level a line, the driver first")
        .arg(price)?
        .arg(allowance)
}

/// Routes the spots of standard input in both spaces.
fn route(rt: &HostRuntime, arguments: Arguments) -> io::Result<()> {
    let entries = input::read(rt)?;
    let on_plane = over(rt, "plane", Plane, arguments)?.joining(&entries)?;
    let in_air = over(rt, "air", Air, arguments)?.measuring(&entries)?;
    println!(rt; "{on_plane} pins routed over plane, {in_air} over air")
}

/// A net without pins in a lift over the space, and the heading of its report.
fn over<'a, S: Space + Copy + Drop>(
    rt: &'a HostRuntime,
    name: &str,
    below: S,
    arguments: Arguments,
) -> io::Result<Route<'a, Lift<S>>> {
    let Arguments { price, allowance } = arguments;
    println!(rt; "lift over {name}, price {price}, allowance {allowance}")?;
    let space = Lift { below, price };
    let net = Net::new(rt.alloc(), space)?;
    Ok(Route {
        rt,
        net,
        space,
        allowance,
    })
}
