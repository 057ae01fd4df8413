// Interrupts that the host takes.

ghost use Rattle.std.specs.Prelude.{◌≡◌, List, Some, ℕ};
ghost use Rattle.arch_defs.specs.Interrupts.{vs_bit};
ghost use Rattle.arch_defs.specs.Traps.{is_virtual};
ghost use Rattle.guest_settings.specs.declared.statuses.Status.TheVariants.{Running};
ghost use Rattle.hosted_steps.specs.HartSteps.{host_takes, is_hosts};
ghost use Rattle.guest_exit.specs.Steps.{CanStep, TakesIfDue};
ghost use Rattle.guest_exit.specs.View.{IsPlaced, KeepsSpaces};

use crate::guests::Guest;
use crate::traps::take;
use arch_defs::{Interrupts, Trap, VS_EXTERNAL, VS_SOFTWARE, VS_TIMER, Virtual};
use trap_delegation::pending;

/// Takes the interrupt that is due where the hart cannot: with V = 0 one of VS that is not delegated, with V
/// = 1 one for HS (Privileged Architecture 20211203, 8.2.2 and 8.2.3). Answers whether there was one, which
/// is a step.
pub fn interrupt(guest: &mut Guest) -> bool
    requires can { CanStep guest.old }
    ensures due { TakesIfDue result guest.old guest.new }
    ensures placed { (memory : List ℕ) → IsPlaced guest.old memory → IsPlaced guest.new memory }
    ensures status { guest.new.status ≡ Running }
    ensures keeps { KeepsSpaces guest.old guest.new }
{
    match pending(&guest.virt.csrs, guest.virt.mode) {
        Some(code) => {
            if is_hosts(code, &guest.virt) {
                take(&mut guest.virt, &Trap::of_interrupt(code));
                guest.tick();
                true
            } else {
                false
            }
        }
        None => false,
    }
}

/// Whether an interrupt is due that the host has to take.
pub fn host_takes(guest: &Guest) -> bool
    ensures { result ≡ host_takes guest.now.virt }
{
    match pending(&guest.virt.csrs, guest.virt.mode) {
        Some(code) => is_hosts(code, &guest.virt),
        None => false,
    }
}

// Whether an interrupt is one that the hart does not take.
fn is_hosts(code: u64, virt: &Virtual) -> bool
    ensures { result ≡ is_hosts (Some code) (is_virtual virt.now.mode) virt.now.csrs.hideleg }
{
    if virt.mode.is_virtual() {
        !is_delegated(&virt.csrs.hideleg, code)
    } else {
        matches!(code, VS_SOFTWARE | VS_TIMER | VS_EXTERNAL)
    }
}

fn is_delegated(hideleg: &Interrupts, code: u64) -> bool
    ensures { result ≡ vs_bit hideleg.now code }
{
    match code {
        VS_SOFTWARE => hideleg.software,
        VS_TIMER => hideleg.timer,
        VS_EXTERNAL => hideleg.external,
        _ => false,
    }
}
