//! The steps that have cached each translation last, of those of a run that are logged.
#![tactic(auto)]

mod laws;
mod notes;

pub use laws::{notes_can_be_renewed, notes_tell_since};
pub use notes::{CachedName, CachingSteps, Note, first_name, second_name, used_name};
