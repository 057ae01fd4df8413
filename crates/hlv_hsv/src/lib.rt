// HLV, HLVX and HSV: accesses as VS or VU by an instruction that runs with V = 0, on any memory.
#![tactic(auto)]

mod accesses;

pub use accesses::{access, place};
pub use hcsr_emulation::Accessed;
pub use op_defs::Op;
pub use phys_mem::Mem;
