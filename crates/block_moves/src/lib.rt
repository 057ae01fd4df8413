// Blocks of a guest's RAM that move to other blocks of machine memory.
#![tactic(auto)]

mod laws;
mod moving;

pub use arch_defs::Part;
pub use laws::ram_moves;
pub use moving::{move_block, without_blocks};
pub use phys_mem::PhysMem;
pub use shadow_pool::Pool;
