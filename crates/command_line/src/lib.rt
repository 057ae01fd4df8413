//! The words of a command line, and what they ask for.
#![tactic(auto)]

pub use commands::{FileRequest, Request, are_plain, number_of, request_of};

mod commands;
