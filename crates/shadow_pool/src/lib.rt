// The spaces of cached second-stage translations of a guest, each folded into a table of its own.
#![tactic(auto)]

mod laws;
mod pools;
mod slots;

pub use arch_defs::{Entry, Fence, Key, Part};
pub use laws::{entered_is_in_front, front_gives_entries, pool_is_apart, tidy_pool_lasts};
pub use phys_mem::PhysMem;
pub use pools::Pool;
