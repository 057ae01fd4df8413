// The host's second-stage table of a guest.
#![tactic(auto)]

mod building;
mod laws;

pub use arch_defs::Part;
pub use building::{build, frame_of};
pub use laws::{gives_ram, walks_to_ram};
pub use phys_mem::PhysMem;
