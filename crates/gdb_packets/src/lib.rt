//! What gdb and a stub say to each other: packets, what acknowledges them, and bytes as digits.
//!
//! The form is that of gdb's remote serial protocol ("Overview" of its appendix in the manual of gdb).
#![tactic(auto)]

mod digits;
mod escapes;
mod frames;
mod laws;
mod messages;
mod unread;

pub use digits::{digit_value, hex_of, unhex};
pub use frames::frame;
pub use laws::{digits_are_read_back, frames_are_read_back};
pub use messages::{Message, Payload, Received};
pub use no_memory::NoMemory;
pub use unread::Unread;
