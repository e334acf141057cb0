// Lines of the report: a name, and a figure or a refusal.
use crate::refusal::Refusal;
use net::Fault;
use std::io;

/// Prints a figure with its name.
pub fn print_figure(rt: &HostRuntime, name: &str, figure: u64) -> io::Result<()> {
    println!(rt; "  {name:<15} {figure:>12}")
}

/// Prints a refusal in place of a figure.
pub fn print_refusal(rt: &HostRuntime, name: &str, fault: Fault) -> io::Result<()> {
    let refusal = Refusal(fault);
    println!(rt; "  {name:<15} {refusal}")
}
