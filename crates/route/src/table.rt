// The rows of a tree, and what it says of pins.
use net::{Joining, Net, PinPath, Row, Space, Spot};
use std::io;

/// The wire of the net's tree: the sum of its rows' lengths, 0 where there is no tree.
pub fn wire<S: Space>(net: &Net<S>) -> u64 {
    (0..net.rows().unwrap_or(0))
        .map_while(|k| net.row(k).ok())
        .fold(0, |wire: u64, row| wire.saturating_add(row.length))
}

/// How many rows of the net's tree hang on the driver, 0 where there is no tree.
pub fn on_driver<S: Space>(net: &Net<S>) -> u64 {
    (1..net.rows().unwrap_or(0))
        .map_while(|k| net.row(k).ok())
        .fold(
            0,
            |count: u64, row| if row.parent == 0 {
                count.saturating_add(1)
            } else {
                count
            },
        )
}

/// A heading, and a line for each row of the net's tree.
pub fn print_rows<S: Space>(rt: &HostRuntime, net: &Net<S>) -> io::Result<()> {
    rt.println("    row  parent         x         y  level     length")?;
    for (k, row) in (0..net.rows().unwrap_or(0))
        .map_while(|k| net.row(k).ok())
        .enumerate()
    {
        print_row(rt, k, row)?;
    }
    Ok(())
}

/// A row's number, its parent, its spot and its length.
fn print_row(rt: &HostRuntime, number: usize, row: Row) -> io::Result<()> {
    let Row {
        parent,
        spot,
        length,
    } = row;
    let Spot { x, y, level } = spot;
    println!(rt; "  {number:>5}  {parent:>6}  {x:>8}  {y:>8}  {level:>5}  {length:>9}")
}

/// A heading, and a line for each pin: its number, its direct distance from the driver, and its path along the net's tree.
pub fn print_pins<S: Space>(rt: &HostRuntime, net: &Net<S>) -> io::Result<()> {
    rt.println("    pin     direct       path")?;
    for (k, reach) in (0..net.rows().unwrap_or(0))
        .map_while(|k| net.path(k).ok())
        .enumerate()
    {
        let PinPath { path, direct } = reach;
        println!(rt; "  {k:>5}  {direct:>9}  {path:>9}")?;
    }
    Ok(())
}

/// Where wires from the driver to each sink and the next may part at the latest, for the sinks below a number.
pub fn print_meets<S: Joining>(
    rt: &HostRuntime,
    net: &Net<S>,
    space: &S,
    pins: usize,
) -> io::Result<()> {
    for next in 2..pins {
        let sink = next - 1;
        if let Some(spot) = meet(net, space, sink, next) {
            println!(rt; "  meet of pins {sink} and {next}: {spot}")?;
        }
    }
    Ok(())
}

/// The meet of two rows' spots, seen from the driver; nothing where the net has no such rows.
fn meet<S: Joining>(net: &Net<S>, space: &S, a: usize, b: usize) -> Option<Spot> {
    let driver = net.row(0).ok()?;
    let a = net.row(a).ok()?;
    let b = net.row(b).ok()?;
    space.meet(driver.spot, a.spot, b.spot)
}
