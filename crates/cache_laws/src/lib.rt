// Laws of how long a run of the lone machine uses a cached translation.
#![tactic(auto)]

mod laws;

pub use laws::{runs_are_architectural, runs_are_fresh, stale_until_the_fence};
