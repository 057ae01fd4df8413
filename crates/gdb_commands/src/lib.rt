//! What gdb asks of a stub: the command of a packet's payload.
#![tactic(auto)]

mod commands;
mod numbers;

pub use commands::{Command, Place, Request, StopKind, command_of};
pub use no_memory::NoMemory;
pub use numbers::{decimal_in, hex_in};
