// The machine that the hypervisor gives each guest: one instruction, steps, runs and the report.
#![tactic(auto)]

mod events;

pub use events::Event;
pub use guest_settings::{Bytes, GuestSpec, Inputs, Name, Status};
