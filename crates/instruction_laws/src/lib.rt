// Laws of one instruction of the lone machine: how it ends, and that it is the same at other places.
#![tactic(auto)]

mod laws;

pub use laws::{missed_places_are_told, ram_is_renamed, renamed_places};
