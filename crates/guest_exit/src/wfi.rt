// WFI of a guest (Privileged Architecture 20211203, 3.3.3).

ghost use Rattle.std.specs.Prelude.{◌≡◌, ◌≢◌, ◌&&◌, ◌||◌, false};
ghost use Rattle.arch_defs.specs.Bits.{bit};
ghost use Rattle.arch_defs.specs.CsrBits.{sip_bits, supervisor_interrupts};
ghost use Rattle.machine_defs.specs.Machine.{has_enabled_interrupt, waited};
ghost use Rattle.rv64_hart.specs.Leaves.{leaves_list};
ghost use Rattle.hosted_steps.specs.ExitCases.{having_found};
ghost use Rattle.guest_exit.specs.HartExit.{CanWait, MakesTold, with_pc};

use crate::guests::Guest;
use crate::hart_exit::Handled;
use arch_defs::{Csrs, Interrupts};
use machine_defs::Status;
use rv64_hart::Leaves;
use virtual_timer::{WaitEnd, wake_moment_is_least};

/// A WFI, which stood at `pc` and has left the guest its state. Where an interrupt is pending and enabled it
/// goes on at once, and else it waits for the wake moment, or for good: then pc is what it was, and the
/// first-stage translations that it has found are not cached.
pub fn wait(guest: &mut Guest, pc: u64, found: &Leaves) -> Handled
    requires can { CanWait guest.old found.now }
    ensures made { MakesTold result (with_pc guest.old pc) guest.new
        (λ m. waited (having_found (leaves_list found.now) m) guest.old.virt) }
    ensures went { result ≢ Handled.Retry }
    ensures runs { result ≢ Handled.Stopped }
{
    if has_enabled_interrupt(&guest.virt.csrs) {
        found.fill(&mut guest.virt.first);
        guest.tick();
        return Handled::Stepped;
    }
    wait_for_wake(guest, pc, found)
}

// A WFI at which no enabled interrupt is pending.
fn wait_for_wake(guest: &mut Guest, pc: u64, found: &Leaves) -> Handled
    requires can { CanWait guest.old found.now }
    requires none { has_enabled_interrupt guest.old.virt.csrs ≡ false }
    ensures made { MakesTold result (with_pc guest.old pc) guest.new
        (λ m. waited (having_found (leaves_list found.now) m) guest.old.virt) }
    ensures went { result ≢ Handled.Retry }
    ensures runs { result ≢ Handled.Stopped }
{
    wake_moment_is_least();
    let sie = sie_number(guest.virt.csrs.sie);
    match guest.clock.wait(sie, guest.console.next()) {
        WaitEnd::Woke => {
            found.fill(&mut guest.virt.first);
            guest.count();
            Handled::Stepped
        }
        WaitEnd::ForGood => {
            guest.virt.regs.pc = pc;
            guest.status = Status::Waiting;
            Handled::Waits
        }
    }
}

// sie as HS reads it, with the timer's bit 5 and bit 9 for external interrupts.
#[tactic(auto, using(crate::proofs::Enabled::read_back, crate::proofs::Enabled::timer_back, crate::proofs::Enabled::external_back))]
fn sie_number(sie: Interrupts) -> u64
    ensures back { supervisor_interrupts result ≡ sie }
    ensures timer { bit 5 result ≡ sie.timer }
    ensures external { bit 9 result ≡ sie.external }
{
    sip_bits(sie)
}

#[tactic(auto, unfolding(arch_defs::specs::CsrBits::sip_bits))]
fn sip_bits(set: Interrupts) -> u64
    ensures { result ≡ sip_bits set }
{
    set.software as u64 * 0x2 + set.timer as u64 * 0x20 + set.external as u64 * 0x200
}

// Whether an interrupt is pending and enabled, whichever level takes it, and whether it is taken now or not.
fn has_enabled_interrupt(csrs: &Csrs) -> bool
    ensures { result ≡ has_enabled_interrupt csrs.now }
{
    any_in_both(&csrs.sip, &csrs.sie) || any_in_both(&csrs.hvip, &csrs.hie)
}

fn any_in_both(pending: &Interrupts, enabled: &Interrupts) -> bool
    ensures { result ≡ (pending.now.external && enabled.now.external
        || pending.now.software && enabled.now.software
        || pending.now.timer && enabled.now.timer) }
{
    pending.external && enabled.external
        || pending.software && enabled.software
        || pending.timer && enabled.timer
}
