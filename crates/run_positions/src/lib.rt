//! Positions of a run: its machine after any number of steps, forwards and backwards, and where it stops.
//!
//! Over anything that runs a machine and can be kept and brought back (`Runner`).
#![tactic(auto)]

mod kept;
mod positions;
mod runners;
mod stops;

pub use no_memory::NoMemory;
pub use positions::{LAST, Positions};
pub use runners::Runner;
pub use stops::Stops;
