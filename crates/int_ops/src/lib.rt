// The arithmetic of RV64I, M and A.
#![tactic(auto)]

mod arithmetic;
mod atomics;
mod instructions;
mod words;

pub use arithmetic::double_alu;
pub use atomics::sized_amo;
pub use instructions::{alu, amo};
pub use words::word_alu;
