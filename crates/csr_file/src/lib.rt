// Reads and writes of the control and status registers, in every mode.
#![tactic(auto)]

mod access;
mod hypervisors;
mod interrupts;
mod laws;
mod names;
mod reach;
mod supervisors;

pub use access::{read, shown, write, write_register};
pub use arch_defs::CsrEnd;
pub use hypervisors::hedeleg_bits;
pub use laws::{illegal_as_in_hs, leaves_others, reads_back, reads_what_was_written};
pub use names::CSR_NAMES;
pub use reach::named_to_write;
pub use supervisors::{satp_bits, supervisor_root_of};
