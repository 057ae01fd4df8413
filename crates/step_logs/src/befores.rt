// What is kept of a machine for the time after its step.

ghost use Rattle.std.specs.Prelude.{◌≡◌};
ghost use Rattle.step_logs.specs.Befores.{before_of, first_input, head_before, hgatp_in, key_before};

use crate::runners::TryRunner;
use arch_defs::{Csrs, Mode, Regs};
use log_lines::{CountKey, Head};

/// A machine before a step of this number: its registers, how many bytes are on its console, and how many
/// inputs it has not read, with the next one.
#[derive(Drop)]
pub struct Before {
    pub number: u64,
    pub regs: Regs,
    pub csrs: Csrs,
    pub mode: Mode,
    pub bytes: usize,
    pub unread: usize,
    pub input: Option<(u64, u8)>,
}

// The first of some inputs.
fn first_input(inputs: &[(u64, u8)]) -> Option<(u64, u8)>
    ensures { result ≡ first_input inputs.now }
{
    match inputs {
        [] => None,
        [first, ..] => Some(*first),
    }
}

impl Before {
    /// That of a machine that is run.
    pub fn of<R: TryRunner>(runner: &R, number: u64) -> Before
        ensures { result ≡ before_of number (R.machine runner.now) }
    {
        let virt = runner.state();
        let inputs = runner.inputs();
        Before {
            number,
            regs: virt.regs,
            csrs: virt.csrs,
            mode: virt.mode,
            bytes: runner.console().len(),
            unread: inputs.len(),
            input: first_input(inputs),
        }
    }

    /// The head of its lines.
    pub fn head(&self) -> Head
        ensures { result ≡ head_before self.now }
    {
        Head {
            step: self.number,
            mode: self.mode,
            pc: self.regs.pc,
        }
    }

    /// Where its instruction is counted.
    pub fn key(&self) -> CountKey
        ensures { result ≡ key_before self.now }
    {
        CountKey {
            mode: self.mode,
            hgatp: hgatp_in(self.mode, &self.csrs),
            pc: self.regs.pc,
        }
    }
}

// hgatp with V = 1.
fn hgatp_in(mode: Mode, csrs: &Csrs) -> Option<u64>
    ensures { result ≡ hgatp_in mode csrs.now }
{
    if mode.is_virtual() {
        Some(csrs.hgatp.bits())
    } else {
        None
    }
}
