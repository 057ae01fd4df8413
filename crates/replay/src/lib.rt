//! A sink that compares what is put into it with bytes that are expected.
#![tactic(auto)]

pub use comparisons::{Compare, Verdict};

mod comparisons;
