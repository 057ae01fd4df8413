// The other registers of the hypervisor extension, and those of one bit, as numbers.

ghost use Rattle.std.specs.Prelude.{◌≡◌};
ghost use Rattle.arch_defs.specs.Bits.{bit, bit_number};
ghost use Rattle.arch_defs.specs.CsrBits.{hstatus_bits, hstatus_of, hedeleg_bits};
ghost use Rattle.arch_defs.specs.CsrAccess.{enable_shown, enable_written, hypervisor_shown, hypervisor_written};

use crate::supervisors::WIDTH_64;
use arch_defs::{Csrs, EnableCsr, GuestRoot, HypervisorCsr, HypervisorStatus};

#[tactic(auto, unfolding(arch_defs::specs::CsrBits::hstatus_bits))]
fn hstatus_bits(status: HypervisorStatus) -> u64
    ensures { result ≡ hstatus_bits status }
{
    status.gva as u64 * 0x40
        + status.spv as u64 * 0x80
        + status.spvp as u64 * 0x100
        + status.hu as u64 * 0x200
        + status.vtvm as u64 * 0x10_0000
        + status.vtw as u64 * 0x20_0000
        + status.vtsr as u64 * 0x40_0000
        + WIDTH_64
}

#[tactic(auto, unfolding(arch_defs::specs::CsrBits::hstatus_of))]
fn hstatus_of(value: u64) -> HypervisorStatus
    ensures { result ≡ hstatus_of value }
{
    HypervisorStatus {
        gva: (value >> 6) & 1 == 1,
        spv: (value >> 7) & 1 == 1,
        spvp: (value >> 8) & 1 == 1,
        hu: (value >> 9) & 1 == 1,
        vtvm: (value >> 20) & 1 == 1,
        vtw: (value >> 21) & 1 == 1,
        vtsr: (value >> 22) & 1 == 1,
    }
}

/// Codes 0 to 8, 12, 13 and 15.
#[tactic(auto, unfolding(arch_defs::specs::CsrBits::hedeleg_bits))]
pub fn hedeleg_bits(value: u64) -> u64
    ensures { result ≡ hedeleg_bits value }
{
    (value & 0x1FF) + ((value >> 12) & 3) * 0x1000 + ((value >> 15) & 1) * 0x8000
}

/// What a register of one bit shows: TM is bit 1, FIOM bit 0.
#[tactic(auto, unfolding(arch_defs::specs::CsrAccess::enable_shown))]
pub fn enable_shown(csrs: &Csrs, register: EnableCsr) -> u64
    ensures { result ≡ enable_shown csrs.now register }
{
    match register {
        EnableCsr::Scounteren => csrs.scounteren_tm as u64 * 2,
        EnableCsr::Senvcfg => csrs.senvcfg_fiom as u64,
        EnableCsr::Hcounteren => csrs.hcounteren_tm as u64 * 2,
        EnableCsr::Henvcfg => csrs.henvcfg_fiom as u64,
    }
}

/// Writes a register of one bit.
#[tactic(auto, unfolding(arch_defs::specs::CsrAccess::enable_written))]
pub fn write_enable(csrs: &mut Csrs, register: EnableCsr, value: u64)
    ensures { csrs.new ≡ enable_written csrs.old register value }
{
    match register {
        EnableCsr::Scounteren => csrs.scounteren_tm = (value >> 1) & 1 == 1,
        EnableCsr::Senvcfg => csrs.senvcfg_fiom = value & 1 == 1,
        EnableCsr::Hcounteren => csrs.hcounteren_tm = (value >> 1) & 1 == 1,
        EnableCsr::Henvcfg => csrs.henvcfg_fiom = value & 1 == 1,
    }
}

/// What one of the other registers of the hypervisor extension shows.
#[tactic(auto, unfolding(arch_defs::specs::CsrAccess::hypervisor_shown))]
pub fn hypervisor_shown(csrs: &Csrs, register: HypervisorCsr) -> u64
    ensures { result ≡ hypervisor_shown csrs.now register }
{
    match register {
        HypervisorCsr::Hstatus => hstatus_bits(csrs.hstatus),
        HypervisorCsr::Hedeleg => hedeleg_bits(csrs.hedeleg),
        HypervisorCsr::Htimedelta => csrs.htimedelta,
        HypervisorCsr::Hgeie | HypervisorCsr::Hgeip => 0,
        HypervisorCsr::Htval => csrs.htval,
        HypervisorCsr::Htinst => csrs.htinst,
        HypervisorCsr::Hgatp => csrs.hgatp.bits(),
    }
}

/// Writes one of them.
#[tactic(auto, unfolding(arch_defs::specs::CsrAccess::hypervisor_written))]
pub fn write_hypervisor(csrs: &mut Csrs, register: HypervisorCsr, value: u64)
    ensures { csrs.new ≡ hypervisor_written csrs.old register value }
{
    match register {
        HypervisorCsr::Hstatus => csrs.hstatus = hstatus_of(value),
        HypervisorCsr::Hedeleg => csrs.hedeleg = hedeleg_bits(value),
        HypervisorCsr::Htimedelta => csrs.htimedelta = value,
        HypervisorCsr::Hgeie | HypervisorCsr::Hgeip => {}
        HypervisorCsr::Htval => csrs.htval = value,
        HypervisorCsr::Htinst => csrs.htinst = value,
        HypervisorCsr::Hgatp => csrs.hgatp = GuestRoot::of(value),
    }
}
