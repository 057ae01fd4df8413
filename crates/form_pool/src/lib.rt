//! Forms of a machine, kept as chunks of bytes that they share.
#![tactic(auto)]

mod chunks;
mod pools;
mod trails;

pub use no_memory::NoMemory;
pub use pools::FormPool;
