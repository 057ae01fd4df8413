// One walk of a page table, for everything that reads its entries.
#![tactic(auto)]

mod entries;
mod fetching;
mod laws;
mod meeting;
mod noting;
mod permissions;
mod places;
mod walking;

pub use arch_defs::{LeafPte, Privilege, Pte, Shape, WalkEnd};
pub use entries::{leaf_to, pointer_to, pte_of, pte_word};
pub use fetching::Fetch;
pub use laws::{
    entries_are_valid, entries_met_are_linked, leaf_has_the_standard_address,
    walks_depend_on_entries_met, walks_end_by_levels, words_read_back, words_say,
};
pub use meeting::places_met;
pub use noting::Notes;
pub use permissions::{permits_first, permits_second};
pub use walking::{walk, walk_noted};
