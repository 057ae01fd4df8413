// A guest's console: the bytes that it has put, and the inputs that come to it.
#![tactic(auto)]

mod consoles;

pub use consoles::Console;
pub use no_memory::NoMemory;
