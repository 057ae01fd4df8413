// Between the host and the hart: steps of a guest on the hart, and what the hart leaves to the host.
#![tactic(auto)]

mod device_accesses;
mod entry_limit;
mod exit_cases;
mod found_leaves;
mod guests;
mod hart_entry;
mod hart_exit;
mod host_interrupts;
mod miss;
mod next_steps;
mod system;
mod traps;
mod wfi;

pub use console_dev::Console;
pub use entry_limit::limit;
pub use guests::Guest;
pub use hart_entry::{Entered, enter, enter_once, enter_plain};
pub use hart_exit::{Handled, handle};
pub use host_interrupts::{host_takes, interrupt};
pub use next_steps::{NextStep, access_next, found_next, step_next, word_next};
pub use shadow_pool::Pool;
