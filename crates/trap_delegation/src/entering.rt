// The target of a trap, and its entry (Privileged Architecture 20211203, 8.2.1, 8.2.2, 8.6.2 and 8.6.3).

ghost use Rattle.std.specs.Prelude.{◌≡◌, IsTrue};
ghost use Rattle.arch_defs.specs.Traps.{cause_of, entered_hs, entered_supervisor, entered_vs, handler_of, htinst_of, htval_of, is_delegated, is_guest_page_fault, is_supervisor, is_virtual, target, vs_code_of};

use crate::interrupts::vs_bit;
use arch_defs::{Csrs, Level, Mode, Regs, SupervisorCsrs, Trap};

// What htinst shows of a fault of the implicit read of a first-stage entry (RV64).
const IMPLICIT_READ: u64 = 0x3000;

// The bit of scause that says that the trap is an interrupt.
const INTERRUPT: u64 = 1 << 63;

/// Where a trap from this mode goes: to VS exactly with V = 1 where hedeleg, or hideleg for an interrupt,
/// has the code.
#[tactic(auto, unfolding(arch_defs::specs::Traps::target))]
pub fn target(csrs: &Csrs, mode: Mode, trap: &Trap) -> Level
    ensures { result ≡ target csrs.now mode trap.now }
{
    if mode.is_virtual() && is_delegated(csrs, trap.interrupt, trap.cause) {
        Level::VS
    } else {
        Level::HS
    }
}

/// Takes a trap from this mode into HS, at the pc of `regs`. Gives the mode, HS.
#[tactic(auto, unfolding(arch_defs::specs::Traps::entered_hs))]
pub fn enter_hs(csrs: &mut Csrs, regs: &mut Regs, mode: Mode, trap: &Trap) -> Mode
    ensures control { csrs.new ≡ (entered_hs csrs.old regs.old mode trap.now).csrs }
    ensures general { regs.new ≡ (entered_hs csrs.old regs.old mode trap.now).regs }
    ensures level { result ≡ (entered_hs csrs.old regs.old mode trap.now).mode }
{
    let cause = cause_of(trap.interrupt, trap.cause);
    let handler = handler_of(csrs.hs.tvec, trap.interrupt, trap.cause);
    csrs.hs = entered_supervisor(csrs.hs, mode.is_supervisor(), regs.pc, cause, trap.tval);
    csrs.hstatus.gva = trap.gva;
    csrs.hstatus.spv = mode.is_virtual();
    if mode.is_virtual() {
        csrs.hstatus.spvp = mode.is_supervisor();
    }
    csrs.htval = htval_of(trap);
    csrs.htinst = htinst_of(trap);
    regs.pc = handler;
    Mode::HS
}

/// Takes a trap from VS or VU into VS, at the pc of `regs`. Gives the mode, VS.
#[tactic(auto, unfolding(arch_defs::specs::Traps::entered_vs))]
pub fn enter_vs(csrs: &mut Csrs, regs: &mut Regs, mode: Mode, trap: &Trap) -> Mode
    requires { IsTrue (is_virtual mode) }
    ensures control { csrs.new ≡ (entered_vs csrs.old regs.old mode trap.now).csrs }
    ensures general { regs.new ≡ (entered_vs csrs.old regs.old mode trap.now).regs }
    ensures level { result ≡ (entered_vs csrs.old regs.old mode trap.now).mode }
{
    let code = vs_code_of(trap);
    let cause = cause_of(trap.interrupt, code);
    let handler = handler_of(csrs.vs.tvec, trap.interrupt, code);
    csrs.vs = entered_supervisor(csrs.vs, mode.is_supervisor(), regs.pc, cause, trap.tval);
    regs.pc = handler;
    Mode::VS
}

// The registers of the level that a trap goes to.
fn entered_supervisor(
    registers: SupervisorCsrs,
    supervisor: bool,
    pc: u64,
    cause: u64,
    tval: u64,
) -> SupervisorCsrs
    ensures { result ≡ entered_supervisor registers supervisor pc cause tval }
{
    let mut registers = registers;
    registers.status.spp = supervisor;
    registers.status.spie = registers.status.sie;
    registers.status.sie = false;
    registers.epc = pc;
    registers.cause = cause;
    registers.tval = tval;
    registers
}

fn cause_of(interrupt: bool, code: u64) -> u64
    ensures { result ≡ cause_of interrupt code }
{
    if interrupt {
        INTERRUPT + code % INTERRUPT
    } else {
        code
    }
}

// The base of tvec, or with mode 1 an interrupt's own place beyond it.
fn handler_of(tvec: u64, interrupt: bool, code: u64) -> u64
    ensures { result ≡ handler_of tvec interrupt code }
{
    let base = tvec / 4 * 4;
    if interrupt && tvec % 4 == 1 {
        base.wrapping_add(code.wrapping_mul(4))
    } else {
        base
    }
}

// Whether a trap is a guest-page fault: of a fetch, a load, or a store or atomic operation.
fn is_guest_page_fault(trap: &Trap) -> bool
    ensures { result ≡ is_guest_page_fault trap.now }
{
    !trap.interrupt && matches!(trap.cause, 20 | 21 | 23)
}

fn htval_of(trap: &Trap) -> u64
    ensures { result ≡ htval_of trap.now }
{
    if is_guest_page_fault(trap) {
        trap.tval2
    } else {
        0
    }
}

fn htinst_of(trap: &Trap) -> u64
    ensures { result ≡ htinst_of trap.now }
{
    if is_guest_page_fault(trap) && trap.implicit && trap.tval2 != 0 {
        IMPLICIT_READ
    } else {
        0
    }
}

// The code that vscause gets: VS sees its interrupts as supervisor interrupts.
fn vs_code_of(trap: &Trap) -> u64
    ensures { result ≡ vs_code_of trap.now }
{
    if trap.interrupt {
        trap.cause.saturating_sub(1)
    } else {
        trap.cause
    }
}

fn is_delegated(csrs: &Csrs, interrupt: bool, code: u64) -> bool
    ensures { result ≡ is_delegated csrs.now interrupt code }
{
    if interrupt {
        vs_bit(csrs.hideleg, code)
    } else {
        code < 64 && (csrs.hedeleg >> code) & 1 == 1
    }
}
