//! The log of a guest of a configuration.
#![tactic(auto)]

mod cached_names;
mod host_tries;
mod logs;
mod uses;

pub use log_writer::{Kinds, LogEnd};
pub use logs::log_of;
