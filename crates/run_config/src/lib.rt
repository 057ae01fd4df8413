//! The configuration of a run, formats 1 and 2: a TOML document that describes the guests and their turns.
//!
//! `read` takes the bytes of the document. It answers the configuration that `accept` of
//! `specs/Accept.antt` has for them, or the first fault. `inputs` takes the bytes of a file of inputs.
#![tactic(auto)]

mod configuration;
mod ends;
mod faults;
mod formats;
mod guests;
mod input_pairs;
mod input_records;
mod keys;
mod kinds;
mod pairs;
mod reading;
mod rows;
mod schedules;
mod settings;
mod values;

pub use configuration::Config;
pub use ends::ReadEnd;
pub use faults::ConfigFault;
pub use guests::{FileName, FreshGuest, GuestSettings, InputSource, Origin};
pub use input_records::{InputEnd, bad_record, inputs};
pub use keys::ConfigKey;
pub use reading::{accepted_is_within_limits, read};
pub use turn_plan::Turns;
