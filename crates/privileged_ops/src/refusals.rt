// Which modes do not allow an instruction, and what its exception is then (Privileged Architecture 20211203,
// 8.2.1, 8.3.1, 8.3.2 and 8.6.1).

ghost use Rattle.std.specs.Prelude.{◌≡◌, None, Some};
ghost use Rattle.arch_defs.specs.declared.csr_names.CsrEnd.TheVariants.{Illegal, Virtual};
ghost use Rattle.arch_defs.specs.declared.registers.Regs.{Regs};
ghost use Rattle.op_defs.specs.Meaning.{meaning};
ghost use Rattle.machine_defs.specs.Privileges.{by_mode, illegal_unless, refusal, refusal_code, virtual_if};
ghost use Rattle.privileged_ops.specs.PrivilegedEnds.{effect_refusal};

use arch_defs::{CsrEnd, HypervisorStatus, ILLEGAL_INSTRUCTION, Mode, VIRTUAL_INSTRUCTION};
use op_defs::{Op, Privileged};

const ILLEGAL: Option<CsrEnd> = Some(CsrEnd::Illegal);

const VIRTUAL: Option<CsrEnd> = Some(CsrEnd::Virtual);

/// Why a mode does not allow an instruction, by hstatus: it is illegal or virtual there. None where the mode
/// allows it, and for an instruction on a register, which says itself who may read and write it.
#[tactic(auto, unfolding(machine_defs::specs::Privileges::refusal))]
pub fn refusal(effect: &Privileged, hstatus: &HypervisorStatus, mode: Mode) -> Option<CsrEnd>
    ensures { result ≡ refusal effect.now hstatus.now mode }
{
    match *effect {
        Privileged::Csr { .. } => None,
        Privileged::Sret => supervisor_refusal(hstatus.vtsr, mode),
        Privileged::Wfi => supervisor_refusal(hstatus.vtw, mode),
        Privileged::SfenceVma(_) => supervisor_refusal(hstatus.vtvm, mode),
        Privileged::HfenceVvma(_) => hypervisor_refusal(ILLEGAL, mode),
        Privileged::HfenceGvma(_) => hypervisor_refusal(ILLEGAL, mode),
        Privileged::HlvAccess(_) => hypervisor_refusal(illegal_unless(hstatus.hu), mode),
    }
}

/// Why a mode does not allow an instruction, by hstatus, whatever the registers are from which it has its
/// operands. None where the mode allows it, and for an instruction on which the mode does not decide.
#[tactic(auto, unfolding(op_defs::specs::Meaning::meaning, machine_defs::specs::Privileges::refusal))]
pub fn refusal_of(op: &Op, hstatus: &HypervisorStatus, mode: Mode) -> Option<CsrEnd>
    ensures { (regs : Regs) → result ≡ effect_refusal (meaning op.now regs) hstatus.now mode }
{
    match *op {
        Op::Sret => supervisor_refusal(hstatus.vtsr, mode),
        Op::Wfi => supervisor_refusal(hstatus.vtw, mode),
        Op::SfenceVma { .. } => supervisor_refusal(hstatus.vtvm, mode),
        Op::HfenceVvma { .. } | Op::HfenceGvma { .. } => hypervisor_refusal(ILLEGAL, mode),
        Op::GuestLoad { .. } | Op::GuestFetch { .. } | Op::GuestStore { .. } => {
            hypervisor_refusal(illegal_unless(hstatus.hu), mode)
        }
        _ => None,
    }
}

/// The row of an instruction that HS may make, and VS unless a bit of hstatus keeps it.
#[inline(always)]
pub(crate) fn supervisor_refusal(kept: bool, mode: Mode) -> Option<CsrEnd>
    ensures { result ≡ by_mode mode None (Some Illegal) (virtual_if kept) (Some Virtual) }
{
    by_mode(mode, None, ILLEGAL, virtual_if(kept), VIRTUAL)
}

// The row of one that HS may make, and U where this says nothing against it.
#[inline(always)]
fn hypervisor_refusal(u: Option<CsrEnd>, mode: Mode) -> Option<CsrEnd>
    ensures { result ≡ by_mode mode None u (Some Virtual) (Some Virtual) }
{
    by_mode(mode, None, u, VIRTUAL, VIRTUAL)
}

// What stands in the column of a mode.
fn by_mode(
    mode: Mode,
    hs: Option<CsrEnd>,
    u: Option<CsrEnd>,
    vs: Option<CsrEnd>,
    vu: Option<CsrEnd>,
) -> Option<CsrEnd>
    ensures { result ≡ by_mode mode hs u vs vu }
{
    match mode {
        Mode::HS => hs,
        Mode::U => u,
        Mode::VS => vs,
        Mode::VU => vu,
    }
}

// A virtual instruction where a bit of hstatus keeps it from VS.
fn virtual_if(kept: bool) -> Option<CsrEnd>
    ensures { result ≡ virtual_if kept }
{
    if kept { VIRTUAL } else { None }
}

// An illegal instruction unless a bit of hstatus lets U make it.
fn illegal_unless(allowed: bool) -> Option<CsrEnd>
    ensures { result ≡ illegal_unless allowed }
{
    if allowed { None } else { ILLEGAL }
}

/// The code of the exception of a refused instruction (8.6.1).
pub fn refusal_code(end: CsrEnd) -> u64
    ensures { result ≡ refusal_code end }
{
    match end {
        CsrEnd::Illegal => ILLEGAL_INSTRUCTION,
        CsrEnd::Virtual => VIRTUAL_INSTRUCTION,
    }
}
