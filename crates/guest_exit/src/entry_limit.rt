// How long one entry of the hart may last.

ghost use Rattle.std.specs.Prelude.{◌≡◌, ◌≤◌, ◌&&◌, ℕ, false, true, if◌then◌else◌};
ghost use Rattle.arch_defs.specs.Inputs.{has_come};
ghost use Rattle.machine_defs.specs.Machine.{with_pending_lines};
ghost use Rattle.guest_exit.specs.HartEntry.{IsLongest, KeepsCome};
ghost use Rattle.hosted_steps.specs.HartSteps.{host_takes};
ghost use Rattle.world_switch.specs.Laws.{waits_for_hs};
ghost use Rattle.guest_exit.specs.View.{platform_of};

use crate::guests::Guest;
use arch_defs::{Csrs, Interrupts};

/// The largest limit, of at most that many steps, at which nothing that the hart does not have for the guest
/// changes before the last step begins: 1 where an interrupt of VS waits that the host has to take, and else
/// up to the timer or the first unread input, where that is ahead of the clock.
pub fn limit(guest: &Guest, most: u64) -> u64
    requires current { with_pending_lines (platform_of guest.now) ≡ platform_of guest.now }
    requires own { host_takes guest.now.virt ≡ false }
    requires some { 1 ≤ most }
    ensures longest { IsLongest (platform_of guest.now) most result }
{
    if waits_for_hs(&guest.virt.csrs) {
        return 1;
    }
    let time = guest.clock.now();
    let before_timer = steps_before(guest.clock.next_event(), time, most);
    steps_before(guest.console.next(), time, before_timer)
}

// How many of at most that many steps begin before this moment, where there is one and it is ahead.
fn steps_before(moment: Option<u64>, time: u64, most: u64) -> u64
    ensures stays { KeepsCome (has_come moment) time result }
    ensures some { 1 ≤ most → 1 ≤ result }
    ensures most { result ≤ most }
    ensures largest { (n : ℕ) → n ≤ most → KeepsCome (has_come moment) time n → n ≤ result }
{
    match moment {
        Some(moment) if time < moment && moment - time < most => moment - time,
        _ => most,
    }
}

// Whether an interrupt of VS is pending, enabled and not delegated. Mostly none is even pending.
fn waits_for_hs(csrs: &Csrs) -> bool
    ensures { result ≡ waits_for_hs csrs.now }
{
    if csrs.hvip == Interrupts::clear() {
        return false;
    }
    is_any_left(csrs)
}

// The same, where one is pending.
#[inline(never)]
fn is_any_left(csrs: &Csrs) -> bool
    ensures { result ≡ waits_for_hs csrs.now }
{
    let pending = csrs.hvip;
    let enabled = csrs.hie;
    let delegated = csrs.hideleg;
    is_left(pending.external, enabled.external, delegated.external)
        || is_left(pending.software, enabled.software, delegated.software)
        || is_left(pending.timer, enabled.timer, delegated.timer)
}

fn is_left(pending: bool, enabled: bool, delegated: bool) -> bool
    ensures { result ≡ (pending && enabled && (if delegated then false else true)) }
{
    pending && enabled && !delegated
}
