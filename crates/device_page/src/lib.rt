// The device page: a console at one page of guest physical addresses.
#![tactic(auto)]

mod accesses;
mod instructions;

pub use accesses::access;
pub use console_dev::Console;
pub use instructions::serve;
