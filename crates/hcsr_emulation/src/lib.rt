// Instructions on which the mode decides, made for a guest in its own mode: those on control and status
// registers, and SRET; and how each of the others ends, or goes on.
#![tactic(auto)]

mod emulation;
mod registers;

pub use emulation::{Emulated, emulate, is_decided};
pub use op_defs::Op;
pub use registers::{Accessed, access};
