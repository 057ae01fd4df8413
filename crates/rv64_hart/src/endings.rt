// How an instruction and a step end, in a byte.

ghost use Rattle.std.specs.Prelude.{◌≡◌};
ghost use Rattle.arch_defs.specs.Interrupts.{interrupt_of};
ghost use Rattle.arch_defs.specs.Traps.{exception};

use arch_defs::{Mode, Trap};

/// How an instruction ended.
#[derive(Clone, Copy)]
pub enum Ended {
    /// It was made, and the step is what its word says.
    Plain,
    /// It was made, and is of opcode SYSTEM.
    System,
    /// It raised a trap, which is told apart, and nothing has changed.
    Raised,
}

/// How a step of a run ended.
#[derive(Clone, Copy)]
pub enum StepEnd {
    /// The run goes on after it.
    Continues,
    /// The run ends after it, since it entered VS by a trap and is watched.
    Ends,
    /// It would trap to HS, by a trap that is told apart, and was not made.
    Left,
}

/// How many common instructions were made, and the word before which they ended, if that was for its sake.
#[derive(Clone, Copy)]
pub struct CommonStretch {
    pub made: u64,
    pub word: Option<u32>,
}

/// How many instructions were made, and how the last one ended, which is made unless it raised a trap.
#[derive(Clone, Copy)]
pub struct Stretch {
    pub made: u64,
    pub end: Ended,
}

/// How many steps were made, and how the last one ended.
#[derive(Clone, Copy)]
pub struct Round {
    pub made: u64,
    pub end: StepEnd,
}

/// Raises an exception of an instruction.
#[inline(always)]
pub(crate) fn raise(mode: Mode, cause: u64, tval: u64, trap: &mut Trap) -> Ended
    ensures trap { trap.new ≡ exception mode cause tval }
    ensures raised { result ≡ Ended.Raised }
{
    *trap = Trap::of_exception(mode, cause, tval);
    Ended::Raised
}

/// Raises an interrupt.
#[cold]
#[inline(never)]
pub(crate) fn raise_interrupt(code: u64, trap: &mut Trap) -> Ended
    ensures trap { trap.new ≡ interrupt_of code }
    ensures raised { result ≡ Ended.Raised }
{
    *trap = Trap::of_interrupt(code);
    Ended::Raised
}
