// The instructions of opcode SYSTEM that the mode decides on, for a lone machine and for the hart alike.
#![tactic(auto)]

mod csrs;
mod instructions;
mod refusals;

pub use csrs::access_csr;
pub use instructions::{Performed, perform, perform_sret};
pub use refusals::{refusal_code, refusal_of};
