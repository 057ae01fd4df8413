// What a step was.

use arch_defs::Level;

/// What a step that was made is to the account.
#[derive(Clone, Copy, PartialEq, Eq)]
pub enum Event {
    /// An instruction that did not trap and whose word is not of opcode SYSTEM, at this pc.
    Plain { pc: u64, word: u32 },
    /// A trap into this level, of an interrupt or of an exception.
    Trap { level: Level, interrupt: bool },
    /// An instruction of opcode SYSTEM that did not trap, or a call of the environment.
    System,
}
