// Traps: which interrupt is due, where a trap goes, what entry into HS and VS and SRET change.
#![tactic(auto)]

mod entering;
mod interrupts;
mod laws;
mod returning;

pub use entering::{enter_hs, enter_vs, target};
pub use interrupts::pending;
pub use laws::{due_is_taken, entries_leave, returns_restore, trap_targets};
pub use returning::sret;
