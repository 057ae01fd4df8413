//! A stub for gdb: what it is shown of a run, moves of the run as it asks for them, and the talk with it.
#![tactic(auto)]

mod answers;
mod looking;
mod moves;
mod register_texts;
mod sessions;
mod stop_sets;
mod talks;

pub use no_memory::NoMemory;
pub use sessions::Session;
pub use talks::{Talk, TalkEnd};
