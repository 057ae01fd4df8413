//! The top call of the log: the words of its command line, the guest that they name, and its log.
#![tactic(auto)]

mod asked;
mod guests;
mod tracing;

pub use tracing::trace;
