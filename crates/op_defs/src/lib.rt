// The instructions, the table of their words, and what each asks for.
#![tactic(auto)]

mod ops;

pub use ops::{
    AluOp, AmoOp, CsrOp, CsrSource, DataAccess, Effect, Op, Privileged, Purpose, Test, WordOp,
};
