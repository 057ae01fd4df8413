//! The debugger: the words of its command line, the guest that they name, and the talk with gdb about it.
#![tactic(auto)]

mod debugging;
mod guests;

pub use debugging::debug;
