//! The log of one step of a machine's run: what is kept before it, what its last try is about to do, and its
//! lines.
#![tactic(auto)]

mod befores;
mod laws;
mod putting;
mod runners;
mod stale_uses;
mod step_texts;
mod tries;

pub use befores::Before;
pub use caching_steps::{CachedName, CachingSteps};
pub use laws::steps_read_one_input;
pub use log_lines::{Kinds, MemoryValue};
pub use putting::put_line;
pub use run_log::Use;
pub use runners::TryRunner;
pub use stale_uses::{StaleUse, StaleUses, renewed};
pub use step_lines::{Act, MadeAccess};
pub use step_texts::{Tried, put_first, put_from_steps};
pub use tries::{Data, Try};
