// The guests on the hart: turns of steps, which are the steps of their lone machines.
#![tactic(auto)]

mod addresses;
mod booting;
mod free_blocks;
mod hosts;
mod laws;
mod memory_views;
mod next_steps;
mod plain_runs;
mod questions;
mod relocation;
mod remaking;
mod retirement;
mod sources;
mod trying;
mod turning;

pub use hosts::Host;
pub use laws::{clear_steps_are_calm, tries_make_steps, turns_are_apart, turns_count_alike};
pub use memory_views::MemoryView;
pub use questions::Question;
pub use relocation::{MoveFault, Moves};
pub use sources::{Source, fresh_sources};
pub use trying::Made;
