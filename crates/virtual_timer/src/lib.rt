// A guest's clock, its timer, and the moment at which a wait for an interrupt ends.
#![tactic(auto)]

mod clocks;
mod laws;
mod waits;

pub use clocks::{Clock, WaitEnd};
pub use laws::wake_moment_is_least;
