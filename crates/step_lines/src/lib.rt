//! The lines that a step has in the log, by what it was and by the state before and after it.
#![tactic(auto)]

mod accesses;
mod acts;
mod calls;
mod fences;
mod steps;
mod traps;

pub use accesses::{MadeAccess, is_reading, is_writing};
pub use acts::{Act, act_of};
pub use calls::{byte_put, call_line, input_read};
pub use fences::{Held, fence_line};
pub use log_lines::{Head, Line, MemoryValue};
pub use steps::step_line;
pub use traps::{enter_line, leave_line, trap_line};
