//! A guest's section in the report: one header line, the console's bytes, and a line feed.
#![tactic(auto)]

pub use headers::header;
pub use sections::{GuestLine, section};

mod headers;
mod sections;
