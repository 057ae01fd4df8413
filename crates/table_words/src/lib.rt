// Page tables in machine memory: doublewords, and the entries that they are.
#![tactic(auto)]

mod doublewords;

pub use doublewords::{doubleword_at, set_word};
pub use phys_mem::PhysMem;
