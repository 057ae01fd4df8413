// How machine memory is shared out among guests.
#![tactic(auto)]

mod faults;
mod planning;

pub use arch_defs::{Need, Part};
pub use faults::PlanFault;
pub use planning::{Split, plan};
