//! Out of memory, as the one refusal of a call that takes memory.
#![tactic(auto)]

mod wants;

pub use wants::NoMemory;
