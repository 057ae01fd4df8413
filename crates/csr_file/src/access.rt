// Reads and writes by number.

ghost use Rattle.std.specs.Prelude.{◌≡◌};
ghost use Rattle.arch_defs.specs.CsrAccess.{read_csr, write_csr, shown, written, named, named_to_write};
ghost use Rattle.csr_file.specs.Changes.{Changed};

use crate::hypervisors::{enable_shown, hypervisor_shown, write_enable, write_hypervisor};
use crate::interrupts::{interrupts_shown, write_interrupts};
use crate::reach::{named, named_to_write};
use crate::supervisors::{supervisor_shown, write_supervisor};
use arch_defs::{CsrEnd, Csrs, Mode, Register};

/// What a register shows.
#[tactic(auto, unfolding(arch_defs::specs::CsrAccess::shown))]
pub fn shown(csrs: &Csrs, register: Register) -> u64
    ensures { result ≡ shown csrs.now register }
{
    match register {
        Register::Supervisor(copied) => supervisor_shown(&csrs.hs, copied),
        Register::VirtualSupervisor(copied) => supervisor_shown(&csrs.vs, copied),
        Register::Interrupt(interrupt) => interrupts_shown(csrs, interrupt),
        Register::Enable(bit) => enable_shown(csrs, bit),
        Register::Hypervisor(hypervisor) => hypervisor_shown(csrs, hypervisor),
        Register::Time => csrs.time,
        Register::GuestTime => csrs.time.wrapping_add(csrs.htimedelta),
    }
}

/// Changes what a write of a register changes.
#[tactic(auto, unfolding(arch_defs::specs::CsrAccess::written))]
pub fn write_register(csrs: &mut Csrs, register: Register, value: u64)
    ensures { csrs.new ≡ written csrs.old register value }
{
    match register {
        Register::Supervisor(copied) => write_supervisor(&mut csrs.hs, copied, value),
        Register::VirtualSupervisor(copied) => write_supervisor(&mut csrs.vs, copied, value),
        Register::Interrupt(interrupt) => write_interrupts(csrs, interrupt, value),
        Register::Enable(bit) => write_enable(csrs, bit, value),
        Register::Hypervisor(hypervisor) => write_hypervisor(csrs, hypervisor, value),
        Register::Time | Register::GuestTime => {}
    }
}

/// Reads the register that a number names in a mode.
#[tactic(auto, unfolding(arch_defs::specs::CsrAccess::read_csr))]
pub fn read(csrs: &Csrs, mode: Mode, number: u16) -> Result<u64, CsrEnd>
    ensures { result ≡ read_csr csrs.now mode number }
{
    match named(csrs, mode, number) {
        Ok(register) => Ok(shown(csrs, register)),
        Err(end) => Err(end),
    }
}

/// Writes the register that a number names in a mode. A refusal changes nothing.
#[tactic(auto, unfolding(arch_defs::specs::CsrAccess::write_csr))]
pub fn write(csrs: &mut Csrs, mode: Mode, number: u16, value: u64) -> Result<(), CsrEnd>
    ensures { Changed (write_csr csrs.old mode number value) csrs.old csrs.new result }
{
    match named_to_write(csrs, mode, number) {
        Ok(register) => {
            write_register(csrs, register, value);
            Ok(())
        }
        Err(end) => Err(end),
    }
}
