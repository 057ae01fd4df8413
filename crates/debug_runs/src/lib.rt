//! A guest of a configuration as a run that can be shown at any position.
#![tactic(auto)]

mod host_runs;

pub use host_runs::{HostRun, booted};
