// SRET (Privileged Architecture 20211203, 4.1.1 and 8.6.4).

ghost use Rattle.std.specs.Prelude.{◌≡◌, IsTrue};
ghost use Rattle.arch_defs.specs.Traps.{is_supervisor, mode_of, returned, returned_from_hs, returned_from_vs, returned_supervisor};

use arch_defs::{Csrs, Mode, Regs, SupervisorCsrs};

/// Does SRET in HS or VS. Gives the mode that it returns to.
#[tactic(auto, unfolding(arch_defs::specs::Traps::returned))]
pub fn sret(csrs: &mut Csrs, regs: &mut Regs, mode: Mode) -> Mode
    requires { IsTrue (is_supervisor mode) }
    ensures control { csrs.new ≡ (returned csrs.old regs.old mode).csrs }
    ensures general { regs.new ≡ (returned csrs.old regs.old mode).regs }
    ensures level { result ≡ (returned csrs.old regs.old mode).mode }
{
    if mode.is_virtual() {
        return_from_vs(csrs, regs)
    } else {
        return_from_hs(csrs, regs)
    }
}

fn return_from_hs(csrs: &mut Csrs, regs: &mut Regs) -> Mode
    ensures control { csrs.new ≡ (returned_from_hs csrs.old regs.old).csrs }
    ensures general { regs.new ≡ (returned_from_hs csrs.old regs.old).regs }
    ensures level { result ≡ (returned_from_hs csrs.old regs.old).mode }
{
    let mode = mode_of(csrs.hstatus.spv, csrs.hs.status.spp);
    regs.pc = csrs.hs.epc;
    csrs.hs = left(csrs.hs);
    csrs.hstatus.spv = false;
    mode
}

fn return_from_vs(csrs: &mut Csrs, regs: &mut Regs) -> Mode
    ensures control { csrs.new ≡ (returned_from_vs csrs.old regs.old).csrs }
    ensures general { regs.new ≡ (returned_from_vs csrs.old regs.old).regs }
    ensures level { result ≡ (returned_from_vs csrs.old regs.old).mode }
{
    let mode = mode_of(true, csrs.vs.status.spp);
    regs.pc = csrs.vs.epc;
    csrs.vs = left(csrs.vs);
    mode
}

// The registers of the level that SRET leaves.
fn left(registers: SupervisorCsrs) -> SupervisorCsrs
    ensures { result ≡ returned_supervisor registers }
{
    let mut registers = registers;
    registers.status.sie = registers.status.spie;
    registers.status.spie = true;
    registers.status.spp = false;
    registers
}

fn mode_of(virtual_mode: bool, supervisor: bool) -> Mode
    ensures { result ≡ mode_of virtual_mode supervisor }
{
    match (virtual_mode, supervisor) {
        (false, true) => Mode::HS,
        (false, false) => Mode::U,
        (true, true) => Mode::VS,
        (true, false) => Mode::VU,
    }
}
