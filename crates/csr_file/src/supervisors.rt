// The registers of which HS and VS each have a copy, as numbers.

ghost use Rattle.std.specs.Prelude.{◌≡◌};
ghost use Rattle.arch_defs.specs.Bits.{bit_number};
ghost use Rattle.arch_defs.specs.CsrBits.{sstatus_bits, sstatus_of, tvec_bits, epc_bits, satp_bits, supervisor_root_of};
ghost use Rattle.arch_defs.specs.CsrAccess.{supervisor_shown, supervisor_written};

use arch_defs::{SupervisorCsr, SupervisorCsrs, SupervisorMode, SupervisorRoot, SupervisorStatus};

/// UXL or VSXL: a width of 64 bits.
pub const WIDTH_64: u64 = 0x2_0000_0000;

#[tactic(auto, unfolding(arch_defs::specs::CsrBits::sstatus_bits))]
fn sstatus_bits(status: SupervisorStatus) -> u64
    ensures { result ≡ sstatus_bits status }
{
    status.sie as u64 * 0x2
        + status.spie as u64 * 0x20
        + status.spp as u64 * 0x100
        + status.sum as u64 * 0x4_0000
        + status.mxr as u64 * 0x8_0000
        + WIDTH_64
}

#[tactic(auto, unfolding(arch_defs::specs::CsrBits::sstatus_of))]
fn sstatus_of(value: u64) -> SupervisorStatus
    ensures { result ≡ sstatus_of value }
{
    SupervisorStatus {
        sie: (value >> 1) & 1 == 1,
        spie: (value >> 5) & 1 == 1,
        spp: (value >> 8) & 1 == 1,
        sum: (value >> 18) & 1 == 1,
        mxr: (value >> 19) & 1 == 1,
    }
}

// All but bit 1.
#[tactic(auto, unfolding(arch_defs::specs::CsrBits::tvec_bits))]
fn tvec_bits(value: u64) -> u64
    ensures { result ≡ tvec_bits value }
{
    (value >> 2) * 4 + (value & 1)
}

// All but bits 1:0.
#[tactic(auto, unfolding(arch_defs::specs::CsrBits::epc_bits))]
fn epc_bits(value: u64) -> u64
    ensures { result ≡ epc_bits value }
{
    (value >> 2) * 4
}

/// satp or vsatp as a number (Privileged Architecture 20211203, 4.1.11).
#[tactic(auto, unfolding(arch_defs::specs::CsrBits::satp_bits))]
pub fn satp_bits(root: SupervisorRoot) -> u64
    ensures { result ≡ satp_bits root }
{
    match root {
        SupervisorRoot::Bare => 0,
        SupervisorRoot::Table { mode, asid, ppn } => {
            mode.number() * 0x1000_0000_0000_0000
                + (asid & 0xFFFF) * 0x1000_0000_0000
                + (ppn & 0xFFF_FFFF_FFFF)
        }
    }
}

/// satp or vsatp after a write of this number: of a MODE that names no table and is not 0 it stays.
#[tactic(auto, unfolding(arch_defs::specs::CsrBits::supervisor_root_of))]
pub fn supervisor_root_of(kept: SupervisorRoot, value: u64) -> SupervisorRoot
    ensures { result ≡ supervisor_root_of kept value }
{
    match SupervisorMode::of(value >> 60) {
        Some(mode) => SupervisorRoot::Table {
            mode,
            asid: (value >> 44) & 0xFFFF,
            ppn: value & 0xFFF_FFFF_FFFF,
        },
        None => {
            if value >> 60 == 0 {
                SupervisorRoot::Bare
            } else {
                kept
            }
        }
    }
}

/// What one of the registers shows.
#[tactic(auto, unfolding(arch_defs::specs::CsrAccess::supervisor_shown))]
pub fn supervisor_shown(registers: &SupervisorCsrs, register: SupervisorCsr) -> u64
    ensures { result ≡ supervisor_shown registers.now register }
{
    match register {
        SupervisorCsr::Status => sstatus_bits(registers.status),
        SupervisorCsr::Tvec => tvec_bits(registers.tvec),
        SupervisorCsr::Scratch => registers.scratch,
        SupervisorCsr::Epc => epc_bits(registers.epc),
        SupervisorCsr::Cause => registers.cause,
        SupervisorCsr::Tval => registers.tval,
        SupervisorCsr::Atp => satp_bits(registers.atp),
    }
}

/// Writes one of the registers.
#[tactic(auto, unfolding(arch_defs::specs::CsrAccess::supervisor_written))]
pub fn write_supervisor(registers: &mut SupervisorCsrs, register: SupervisorCsr, value: u64)
    ensures { registers.new ≡ supervisor_written registers.old register value }
{
    match register {
        SupervisorCsr::Status => registers.status = sstatus_of(value),
        SupervisorCsr::Tvec => registers.tvec = tvec_bits(value),
        SupervisorCsr::Scratch => registers.scratch = value,
        SupervisorCsr::Epc => registers.epc = epc_bits(value),
        SupervisorCsr::Cause => registers.cause = value,
        SupervisorCsr::Tval => registers.tval = value,
        SupervisorCsr::Atp => registers.atp = supervisor_root_of(registers.atp, value),
    }
}
