//! The cached translations by which accesses go, and what the tables give in their place.
#![tactic(auto)]

mod accesses;
mod first_stage;
mod front_mmu;
mod laws;
mod second_stage;
mod steps;
mod tables;

pub use laws::{filled_lead_into, machines_go_through, steps_use};
pub use run_log::{Leaf, Use};
pub use steps::step_uses;
pub use tables::leaf_by_tables;
