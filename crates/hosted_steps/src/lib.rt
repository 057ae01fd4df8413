// The theorem of the house: a step of the hart, loaded for a guest, is a try of the guest's lone machine.
#![tactic(auto)]

mod laws;

pub use laws::{device_stays, hart_steps_follow};
