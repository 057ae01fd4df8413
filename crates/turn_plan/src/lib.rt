//! Lists of turns: whose turn it is, and for how many steps.
//!
//! `Turns` is seen by clauses as its list of pairs of a guest's number and the steps of its turn.
#![tactic(auto)]

mod laws;
mod turns;

pub use laws::equal_weights_are_rounds;
pub use turns::Turns;
