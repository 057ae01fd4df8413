// The hart on which all guests run, by both stages of translation over machine memory, and the account of
// what it did.
#![tactic(auto)]

mod accesses;
mod common_instructions;
mod endings;
mod hart_refs;
mod harts;
mod laws;
mod leaves;
mod next_accesses;
mod plain_steps;
mod rare_instructions;
mod steps;
mod tallies;
mod walked_accesses;
mod wanted_accesses;

pub use harts::{Hart, Stop, Why};
pub use laws::guest_page_faults_exit;
pub use leaves::{Leaves, found_at_exit, next_at_exit};
pub use next_accesses::{access_at_pc, word_at_pc};
pub use phys_mem::PhysMem;
pub use tallies::Tally;
pub use wanted_accesses::{wanted_at, wanted_of};
