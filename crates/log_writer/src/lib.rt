//! The log of the run of a machine, written step by step.
#![tactic(auto)]

mod counts;
mod log_ends;
mod logs;
mod plain_runs;
mod stale_logs;
mod steps;

pub use log_ends::LogEnd;
pub use logs::log_of;
pub use step_logs::{Act, CachedName, Kinds, MadeAccess, MemoryValue, TryRunner, Use};
