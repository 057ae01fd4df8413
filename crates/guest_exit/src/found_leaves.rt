// The first-stage translations that a step finds which the hart has left to the host.

ghost use Rattle.std.specs.Prelude.{◌≡◌};
ghost use Rattle.rv64_hart.specs.Leaves.{AreNone, LeavesFit, leaves_list};
ghost use Rattle.hosted_steps.specs.ExitCases.{data_wanted, found_next};
ghost use Rattle.guest_exit.specs.HartExit.{IsLeftToHost};
ghost use Rattle.guest_exit.specs.View.{machine_of};

use crate::guests::Guest;
use crate::hart_entry::load_for;
use arch_defs::{HartState, SupervisorRoot, Tag};
use op_defs::DataAccess;
use phys_mem::PhysMem;
use rv64_hart::{Leaves, next_at_exit, wanted_at};
use two_stage_walk::supervisor_of;

/// Puts into `found` what the guest's next step finds: nothing, where no table translates its accesses. A
/// step that is made asks for it, and caches it; a fill of a cached translation does not.
#[inline]
pub fn find_next(guest: &Guest, memory: &PhysMem, found: &mut Leaves)
    requires left { IsLeftToHost guest.now memory.now }
    requires none { AreNone found.old }
    ensures value { leaves_list found.new ≡ found_next (machine_of guest.now memory.now) }
    ensures fits { LeavesFit found.new }
{
    match supervisor_of(&guest.virt.csrs, guest.virt.mode).atp {
        SupervisorRoot::Bare => {}
        SupervisorRoot::Table { .. } => {
            let _ = next_step(guest, memory, found);
        }
    }
}

/// What the guest's next step wants of data, by the hart, loaded for the guest. What it finds is put into
/// `found`.
#[inline(never)]
pub fn next_step(guest: &Guest, memory: &PhysMem, found: &mut Leaves) -> Option<DataAccess>
    requires left { IsLeftToHost guest.now memory.now }
    requires none { AreNone found.old }
    ensures found { leaves_list found.new ≡ found_next (machine_of guest.now memory.now) }
    ensures fits { LeavesFit found.new }
    ensures wanted { result ≡ data_wanted (machine_of guest.now memory.now) }
{
    // Filled in place, since it has some 3,000 bytes.
    let mut hart = HartState {
        virt: guest.virt,
        tag: Tag::Flat,
    };
    load_for(guest, &mut hart);
    match supervisor_of(&guest.virt.csrs, guest.virt.mode).atp {
        SupervisorRoot::Bare => wanted_at(&hart, memory),
        SupervisorRoot::Table { .. } => next_at_exit(&hart, memory, found),
    }
}
