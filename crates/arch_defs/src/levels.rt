// The levels that take traps, and the codes of their interrupts.

/// Where a trap goes: to HS, or with V = 1 by delegation to VS (Privileged Architecture 20211203, 8.6.2).
#[derive(Clone, Copy, PartialEq, Eq)]
pub enum Level {
    HS,
    VS,
}

/// Supervisor software interrupt (Privileged Architecture 20211203, 8.6.1, as all codes here).
pub const SUPERVISOR_SOFTWARE: u64 = 1;

/// VS-level software interrupt.
pub const VS_SOFTWARE: u64 = 2;

/// Supervisor timer interrupt.
pub const SUPERVISOR_TIMER: u64 = 5;

/// VS-level timer interrupt.
pub const VS_TIMER: u64 = 6;

/// Supervisor external interrupt.
pub const SUPERVISOR_EXTERNAL: u64 = 9;

/// VS-level external interrupt.
pub const VS_EXTERNAL: u64 = 10;
