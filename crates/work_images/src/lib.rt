//! Generated guests: hypervisors whose commands come from a generator of numbers.
#![tactic(auto)]

mod commands;
mod generated;
mod instructions;
mod laws;
mod lines;
mod noises;
mod numbers;
mod program;

pub use generated::guests;
pub use laws::image_length;
pub use noises::noise;
