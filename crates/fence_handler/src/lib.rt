// What a fence names.
#![tactic(auto)]

mod laws;
mod requests;

pub use arch_defs::Fence;
pub use laws::{first_instructions_make_fence, instruction_makes_fence};
pub use requests::request;
