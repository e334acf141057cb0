//! What only code can show: spaces of another crate, the ends of the spaces' ranges, calls that no net makes, the marks of whole walks, lists
//! of calls over other spaces, the limits and refusals by the calls that meet them, counted meets, pictures that are not stored, and what another
//! crate knows of a net.

#![tactic(auto)]

#[cfg(test)]
mod asking;
#[cfg(test)]
mod calls;
#[cfg(test)]
mod counted;
#[cfg(test)]
mod limits;
pub mod line;
#[cfg(test)]
mod lists;
#[cfg(test)]
mod marks;
#[cfg(test)]
mod pictures;
#[cfg(test)]
mod ranges;
#[cfg(test)]
mod refusals;
#[cfg(test)]
mod spots;
pub mod tied;
#[cfg(test)]
mod turns;
pub mod vast;
#[cfg(test)]
mod worked;
