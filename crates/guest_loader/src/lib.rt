// Loads a guest's image into its RAM in machine memory.
#![tactic(auto)]

mod loading;

pub use arch_defs::Part;
pub use loading::{fits, load, load_over_zeros};
pub use phys_mem::PhysMem;
