// The one access to data that an instruction makes: where it is made, and how the instruction is completed
// there, on any memory.
#![tactic(auto)]

mod places;
mod purposes;

pub use op_defs::{DataAccess, Purpose};
pub use phys_mem::Mem;
pub use places::{is_aligned, place_for, place_or_page};
pub use purposes::{complete, kind_of, load, store};
pub use two_stage_walk::Place;
