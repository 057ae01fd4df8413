//! The log of a run: what it says of each step, as definitions, and the lines of which a step's states are
//! enough.
#![tactic(auto)]

mod calls;
mod laws;
mod registers;
mod translations;
mod traps;
mod uses;

pub use calls::{call_line, wake_of};
pub use laws::{log_is_one, trap_lines_tell, uncached_uses_none, uses_are_few};
pub use log_lines::{
    CallLine, Cause, Crossing, Head, Kinds, Leaf, Line, MemoryValue, StepLine, Taken, Translation,
    TrapLine, Wake, WorldLine, Written,
};
pub use registers::changed_from;
pub use translations::{first_translation, leaf_of_first, leaf_of_second, second_translation};
pub use traps::{trap_line, world_entered, world_left};
pub use uses::{Use, is_stale, translation_of};
