//! The lines of the log of a run, as text: what each kind of event says, and the bytes of its line.
#![tactic(auto)]

mod heads;
mod kinds;
mod lines;
mod numbers;
mod steps;
mod translations;
mod traps;

pub use heads::Head;
pub use kinds::{Kind, Kinds, kind_named, kinds_of};
pub use lines::{
    CallLine, CountKey, CountLine, FenceLine, FenceOp, Line, MOST_BYTES, Text, Wake, text_of,
};
pub use steps::{MemoryValue, StepLine, Written};
pub use translations::{FillLine, Leaf, Stage, StaleLine, Translation};
pub use traps::{Cause, Crossing, Taken, TrapLine, WorldLine};
