// From a word to the instruction that it is.
#![tactic(auto)]

mod atomics;
mod decoding;
mod fields;
mod registers;
mod systems;

pub use decoding::{decode, decode_common, decode_system};
