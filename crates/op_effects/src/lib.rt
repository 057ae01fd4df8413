// What an instruction asks for, read off the registers.
#![tactic(auto)]

mod effects;

pub use effects::{address_at, effect_of, even, is_branch_taken, operand_of, writes};
pub use op_defs::Effect;
