// The account of what the hart did.

ghost use Rattle.std.specs.Prelude.{◌≡◌, ◌+◌, ◌%◌, ◌^◌, ◌<◌, ◌≤◌};

use std::marker::Model;

/// How often the hart was entered, how many steps it made, and the sum of pc and word of the plain ones,
/// modulo 2^64. Only the hart raises them, and there is no way to copy them.
#[derive(Drop)]
pub struct Tally {
    entries: u64,
    taken: u64,
    trace: u64,
}

impl Model for Tally {
    ghost use Rattle.std.specs.Prelude.{◌^◌, ◌<◌};
    ghost use Rattle.rv64_hart.specs.Counts.{Counts};

    ghost Value = { Counts };

    ghost view = { λ t. record { entries = t.entries; taken = t.taken; trace = t.trace } };

    ghost invariant = { λ t. t.trace < 2 ^ 64 };
}

impl Tally {
    /// All zeros.
    pub fn new() -> Tally
        ensures { result ≡ record { entries = 0; taken = 0; trace = 0 } }
    {
        Tally {
            entries: 0,
            taken: 0,
            trace: 0,
        }
    }

    /// How often the hart was entered.
    pub fn entries(&self) -> u64
        ensures { result ≡ self.now.entries }
    {
        self.entries
    }

    /// How many steps the hart made.
    pub fn taken(&self) -> u64
        ensures { result ≡ self.now.taken }
    {
        self.taken
    }

    /// The sum of pc and word of the hart's plain steps, modulo 2^64.
    pub fn trace(&self) -> u64
        ensures trace { result ≡ self.now.trace }
        ensures small { result < 2 ^ 64 }
    {
        self.trace
    }

    // The hart is entered.
    pub(crate) fn enter(&mut self)
        requires { self.old.entries < 2 ^ 62 }
        ensures { self.new ≡ record self.old { entries = self.old.entries + 1 } }
    {
        self.entries += 1;
    }

    // The hart has made that many steps.
    pub(crate) fn take(&mut self, taken: u64)
        requires { self.old.taken + taken ≤ 2 ^ 62 }
        ensures { self.new ≡ record self.old { taken = self.old.taken + taken } }
    {
        self.taken += taken;
    }

    // The hart has made a plain step.
    pub(crate) fn count(&mut self, pc: u64, word: u32)
        ensures { self.new ≡ record self.old { trace = (self.old.trace + (pc + word)) % 2 ^ 64 } }
    {
        self.trace = self.trace.wrapping_add(pc.wrapping_add(word as u64));
    }

    // The hart has made plain steps, by which the trace is this.
    pub(crate) fn go_on_at(&mut self, trace: u64)
        ensures { self.new ≡ record self.old { trace = trace } }
    {
        self.trace = trace;
    }
}
