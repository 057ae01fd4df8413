// A space of cached second-stage translations, folded into one table.
#![tactic(auto)]

mod cached;
mod devices;
mod frames;
mod laws;
mod levels;
mod listing;
mod spaces;
mod writing;

pub use arch_defs::{Entry, Part};
pub use guest_settings::MOST_ENTRIES;
pub use laws::{gives_entries, spaces_are_apart, tidy_is_folded, tidy_lasts, untouched_are_zeros};
pub use phys_mem::PhysMem;
pub use spaces::Space;
