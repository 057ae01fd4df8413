// Calls of the supervisor execution environment.
#![tactic(auto)]

mod calls;

pub use calls::{CallEnd, call};
