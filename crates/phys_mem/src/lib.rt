// Machine memory, whatever is read and written as it is, and one guest's RAM in it.
#![tactic(auto)]

mod accesses;
mod memory;
mod ram;
mod slices;

pub use accesses::Mem;
pub use arch_defs::{BLOCK_SIZE, FRAME_SIZE, Part, RAM_BASE};
pub use memory::PhysMem;
pub use no_memory::NoMemory;
pub use ram::Ram;
