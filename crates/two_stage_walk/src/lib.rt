// Both stages of translation, for any memory as it is.
#![tactic(auto)]

mod devices;
mod guest_addresses;
mod second_answers;
mod second_places;
mod translating;
mod traps;
mod virtual_addresses;
mod walked_entries;

pub use arch_defs::{Found, MissingPlace, SecondWalkEnd};
pub use devices::is_on_device;
pub use guest_addresses::{second_root_of, second_walk};
pub use phys_mem::Mem;
pub use second_answers::{SecondAnswer, second_noted};
pub use second_places::second_place;
pub use translating::{Place, locate, translate, translate_found};
pub use traps::{guest_page_trap, missing_place_trap};
pub use virtual_addresses::{
    first_leaf, first_stage, found_by, leaf_address, privilege_of, supervisor_of, unread, word_at,
};
pub use walked_entries::entry_by_walk;
