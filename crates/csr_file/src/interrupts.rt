// The registers of interrupts, as numbers.

ghost use Rattle.std.specs.Prelude.{◌≡◌, if◌then◌else◌};
ghost use Rattle.arch_defs.specs.Bits.{bit, bit_number};
ghost use Rattle.arch_defs.specs.CsrBits.{sip_bits, supervisor_interrupts, hip_bits, virtual_interrupts, delegated, delegated_become};
ghost use Rattle.arch_defs.specs.CsrAccess.{interrupts_shown, interrupts_written};

use arch_defs::{Csrs, InterruptCsr, Interrupts};

// In the places of sie, sip, vsie and vsip.
#[tactic(auto, unfolding(arch_defs::specs::CsrBits::sip_bits))]
fn sip_bits(set: Interrupts) -> u64
    ensures { result ≡ sip_bits set }
{
    set.software as u64 * 0x2 + set.timer as u64 * 0x20 + set.external as u64 * 0x200
}

#[tactic(auto, unfolding(arch_defs::specs::CsrBits::supervisor_interrupts))]
fn supervisor_interrupts(value: u64) -> Interrupts
    ensures { result ≡ supervisor_interrupts value }
{
    Interrupts {
        software: (value >> 1) & 1 == 1,
        timer: (value >> 5) & 1 == 1,
        external: (value >> 9) & 1 == 1,
    }
}

// In the places of hideleg, hie, hip and hvip, one bit higher.
#[tactic(auto, unfolding(arch_defs::specs::CsrBits::hip_bits))]
fn hip_bits(set: Interrupts) -> u64
    ensures { result ≡ hip_bits set }
{
    set.software as u64 * 0x4 + set.timer as u64 * 0x40 + set.external as u64 * 0x400
}

#[tactic(auto, unfolding(arch_defs::specs::CsrBits::virtual_interrupts))]
fn virtual_interrupts(value: u64) -> Interrupts
    ensures { result ≡ virtual_interrupts value }
{
    Interrupts {
        software: (value >> 2) & 1 == 1,
        timer: (value >> 6) & 1 == 1,
        external: (value >> 10) & 1 == 1,
    }
}

// Those of a set that hideleg delegates.
#[tactic(auto, unfolding(arch_defs::specs::CsrBits::delegated))]
fn delegated(hideleg: Interrupts, set: Interrupts) -> Interrupts
    ensures { result ≡ delegated hideleg set }
{
    Interrupts {
        software: hideleg.software && set.software,
        timer: hideleg.timer && set.timer,
        external: hideleg.external && set.external,
    }
}

fn chosen(choice: bool, before: bool, after: bool) -> bool
    ensures { result ≡ (if choice then after else before) }
{
    if choice { after } else { before }
}

// A set in which those that hideleg delegates have become others.
#[tactic(auto, unfolding(arch_defs::specs::CsrBits::delegated_become))]
fn delegated_become(hideleg: Interrupts, before: Interrupts, after: Interrupts) -> Interrupts
    ensures { result ≡ delegated_become hideleg before after }
{
    Interrupts {
        software: chosen(hideleg.software, before.software, after.software),
        timer: chosen(hideleg.timer, before.timer, after.timer),
        external: chosen(hideleg.external, before.external, after.external),
    }
}

/// What a register of interrupts shows.
#[tactic(auto, unfolding(arch_defs::specs::CsrAccess::interrupts_shown))]
pub fn interrupts_shown(csrs: &Csrs, register: InterruptCsr) -> u64
    ensures { result ≡ interrupts_shown csrs.now register }
{
    match register {
        InterruptCsr::Sie => sip_bits(csrs.sie),
        InterruptCsr::Sip => sip_bits(csrs.sip),
        InterruptCsr::Vsie => sip_bits(delegated(csrs.hideleg, csrs.hie)),
        InterruptCsr::Vsip => sip_bits(delegated(csrs.hideleg, csrs.hvip)),
        InterruptCsr::Hideleg => hip_bits(csrs.hideleg),
        InterruptCsr::Hie => hip_bits(csrs.hie),
        InterruptCsr::Hip | InterruptCsr::Hvip => hip_bits(csrs.hvip),
    }
}

/// Writes a register of interrupts.
#[tactic(auto, unfolding(arch_defs::specs::CsrAccess::interrupts_written))]
pub fn write_interrupts(csrs: &mut Csrs, register: InterruptCsr, value: u64)
    ensures { csrs.new ≡ interrupts_written csrs.old register value }
{
    match register {
        InterruptCsr::Sie => csrs.sie = supervisor_interrupts(value),
        InterruptCsr::Sip => csrs.sip.software = (value >> 1) & 1 == 1,
        InterruptCsr::Vsie => {
            csrs.hie = delegated_become(csrs.hideleg, csrs.hie, supervisor_interrupts(value));
        }
        InterruptCsr::Vsip => {
            let after = (value >> 1) & 1 == 1;
            csrs.hvip.software = chosen(csrs.hideleg.software, csrs.hvip.software, after);
        }
        InterruptCsr::Hideleg => csrs.hideleg = virtual_interrupts(value),
        InterruptCsr::Hie => csrs.hie = virtual_interrupts(value),
        InterruptCsr::Hip => csrs.hvip.software = (value >> 2) & 1 == 1,
        InterruptCsr::Hvip => csrs.hvip = virtual_interrupts(value),
    }
}
