// Loads and stores of the device page by a guest, each of which is one step.

ghost use Rattle.std.specs.Prelude.{◌≡◌, ◌≢◌};
ghost use Rattle.arch_defs.specs.SecondStage.{is_implicit};
ghost use Rattle.machine_defs.specs.DeviceSteps.{device_step, on_device};
ghost use Rattle.hosted_steps.specs.ExitCases.{data_wanted, found_next, having_found};
ghost use Rattle.guest_exit.specs.HartExit.{IsLeftToHost, MakesTold};
ghost use Rattle.guest_exit.specs.Steps.{CanStep};
ghost use Rattle.guest_exit.specs.View.{machine_of};

use crate::found_leaves::next_step;
use crate::guests::Guest;
use crate::hart_exit::{Handled, raise};
use arch_defs::{Access, MissingPlace};
use op_defs::DataAccess;
use phys_mem::PhysMem;
use rv64_hart::Leaves;

/// Makes the access of the guest's next instruction to the device page. The read of an entry there, and an
/// access that the page does not serve, are access faults.
#[inline(never)]
pub(crate) fn access_device(guest: &mut Guest, memory: &PhysMem, missing: &MissingPlace) -> Handled
    requires left { IsLeftToHost guest.old memory.now }
    ensures made { MakesTold result guest.old guest.new
        (λ m. on_device (having_found (found_next (machine_of guest.old memory.now)) m) missing.now
        (data_wanted (machine_of guest.old memory.now))) }
    ensures goes { result ≢ Handled.Waits }
    ensures went { result ≢ Handled.Retry }
    ensures runs { result ≢ Handled.Stopped }
{
    let mut found = Leaves::none();
    let wanted = next_step(guest, memory, &mut found);
    found.fill(&mut guest.virt.first);
    if is_implicit(missing.kind) {
        return raise(guest, &missing.access_fault());
    }
    match wanted {
        Some(wanted) => serve(guest, missing, &wanted),
        None => raise(guest, &missing.access_fault()),
    }
}

// Whether an access is the implicit read of a first-stage entry.
fn is_implicit(kind: Access) -> bool
    ensures { result ≡ is_implicit kind }
{
    matches!(kind, Access::Implicit)
}

// An access to data on the page.
fn serve(guest: &mut Guest, missing: &MissingPlace, wanted: &DataAccess) -> Handled
    requires can { CanStep guest.old }
    ensures made { MakesTold result guest.old guest.new
        (λ m. device_step m missing.now wanted.now.width wanted.now.purpose) }
    ensures goes { result ≢ Handled.Waits }
    ensures went { result ≢ Handled.Retry }
    ensures runs { result ≢ Handled.Stopped }
{
    let clock = guest.clock.now();
    let offset = missing.address % 4096;
    let (width, purpose) = (wanted.width, wanted.purpose);
    if device_page::serve(
        &mut guest.virt,
        &mut guest.console,
        clock,
        offset,
        width,
        purpose,
    ) {
        guest.tick();
        Handled::Stepped
    } else {
        raise(guest, &missing.access_fault())
    }
}
