// What a mode reaches by a number: a register, or an exception.

ghost use Rattle.std.specs.Prelude.{◌≡◌};
ghost use Rattle.arch_defs.specs.CsrAccess.{reached_in_u, reached_in_vs, reached_in_vu, reached, reached_by, named, named_to_write};

use crate::names::register_of;
use arch_defs::{CsrEnd, Csrs, EnableCsr, InterruptCsr, Mode, Register, SupervisorCsr};

#[tactic(auto, unfolding(arch_defs::specs::CsrAccess::reached_in_u))]
fn reached_in_u(csrs: &Csrs, register: Register) -> Result<Register, CsrEnd>
    ensures { result ≡ reached_in_u csrs.now register }
{
    match register {
        Register::Time => {
            if csrs.scounteren_tm {
                Ok(Register::Time)
            } else {
                Err(CsrEnd::Illegal)
            }
        }
        _ => Err(CsrEnd::Illegal),
    }
}

// In VS a number of a supervisor register names the VS copy, where there is one.
#[tactic(auto, unfolding(arch_defs::specs::CsrAccess::reached_in_vs))]
fn reached_in_vs(csrs: &Csrs, register: Register) -> Result<Register, CsrEnd>
    ensures { result ≡ reached_in_vs csrs.now register }
{
    match register {
        Register::Supervisor(SupervisorCsr::Atp) => {
            if csrs.hstatus.vtvm {
                Err(CsrEnd::Virtual)
            } else {
                Ok(Register::VirtualSupervisor(SupervisorCsr::Atp))
            }
        }
        Register::Supervisor(copied) => Ok(Register::VirtualSupervisor(copied)),
        Register::Interrupt(InterruptCsr::Sie) => { Ok(Register::Interrupt(InterruptCsr::Vsie)) }
        Register::Interrupt(InterruptCsr::Sip) => { Ok(Register::Interrupt(InterruptCsr::Vsip)) }
        Register::Enable(EnableCsr::Scounteren) => Ok(Register::Enable(EnableCsr::Scounteren)),
        Register::Enable(EnableCsr::Senvcfg) => Ok(Register::Enable(EnableCsr::Senvcfg)),
        Register::Time => {
            if csrs.hcounteren_tm {
                Ok(Register::GuestTime)
            } else {
                Err(CsrEnd::Virtual)
            }
        }
        _ => Err(CsrEnd::Virtual),
    }
}

#[tactic(auto, unfolding(arch_defs::specs::CsrAccess::reached_in_vu))]
fn reached_in_vu(csrs: &Csrs, register: Register) -> Result<Register, CsrEnd>
    ensures { result ≡ reached_in_vu csrs.now register }
{
    match register {
        Register::Time => {
            if csrs.hcounteren_tm && csrs.scounteren_tm {
                Ok(Register::GuestTime)
            } else {
                Err(CsrEnd::Virtual)
            }
        }
        _ => Err(CsrEnd::Virtual),
    }
}

#[tactic(auto, unfolding(arch_defs::specs::CsrAccess::reached))]
fn reached(csrs: &Csrs, mode: Mode, register: Register) -> Result<Register, CsrEnd>
    ensures { result ≡ reached csrs.now mode register }
{
    match mode {
        Mode::HS => Ok(register),
        Mode::U => reached_in_u(csrs, register),
        Mode::VS => reached_in_vs(csrs, register),
        Mode::VU => reached_in_vu(csrs, register),
    }
}

/// The register that a read of this number shows.
#[tactic(auto, unfolding(arch_defs::specs::CsrAccess::reached_by))]
pub fn named(csrs: &Csrs, mode: Mode, number: u16) -> Result<Register, CsrEnd>
    ensures { result ≡ named csrs.now mode number }
{
    match register_of(number) {
        Some(register) => reached(csrs, mode, register),
        None => Err(CsrEnd::Illegal),
    }
}

/// The register that a write of this number changes. From 0xC00 on all are read-only.
#[tactic(auto, unfolding(arch_defs::specs::CsrAccess::named_to_write))]
pub fn named_to_write(csrs: &Csrs, mode: Mode, number: u16) -> Result<Register, CsrEnd>
    ensures { result ≡ named_to_write csrs.now mode number }
{
    if number >= 0xC00 {
        return Err(CsrEnd::Illegal);
    }
    named(csrs, mode, number)
}
