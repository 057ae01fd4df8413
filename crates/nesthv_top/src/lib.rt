// The top call: a command's words, the files that it names, and the text that it writes.
#![tactic(auto)]

mod checking;
mod ends;
mod laws;
mod lines;
mod loading;
mod obeying;
mod programs;
mod reads;
mod replaying;
mod running;
mod top;
mod works;

pub use ends::{Ended, Job, LoadEnd, Loaded};
pub use laws::sections_are_own;
pub use lines::tell;
pub use loading::load;
pub use programs::program;
pub use reads::Reads;
pub use top::{nesthv, status_of};
