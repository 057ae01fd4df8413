// The world switch: what the hart has for a guest, and what the guest has after the hart has run.
#![tactic(auto)]

mod laws;
mod switching;

pub use laws::{accesses_alike, instructions_alike, load_and_save, traps_alike};
pub use switching::{fix_up, load, own_address, save, tag_of, to_guest_hs, to_nested};
