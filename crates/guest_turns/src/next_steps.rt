// What a guest's next step is about to do, by what the hart has for it.

ghost use Rattle.std.specs.Prelude.{◌≡◌};
ghost use Rattle.guest_exit.specs.NextSteps.{WantsUnlessDue, access_next, word_next};
ghost use Rattle.guest_exit.specs.View.{machine_of};
ghost use Rattle.guest_turns.specs.Hosting.{IsHosted};
ghost use Rattle.hosted_steps.specs.ExitCases.{found_next};
ghost use Rattle.rv64_hart.specs.Leaves.{LeavesFit, leaves_list};

use guest_exit::{Guest, NextStep, access_next, found_next, step_next, word_next};
use op_defs::DataAccess;
use phys_mem::PhysMem;
use rv64_hart::{Hart, Leaves};

/// The word of its instruction, if that has one.
pub fn word_in(guest: &Guest, hart: &mut Hart, memory: &PhysMem) -> Option<u32>
    requires { IsHosted guest.now memory.now }
    ensures { result ≡ word_next (machine_of guest.now memory.now) }
{
    word_next(guest, hart.state_mut(), memory)
}

/// What its instruction wants of data, and the first-stage translations that it finds.
pub fn step_in(guest: &Guest, hart: &mut Hart, memory: &PhysMem) -> NextStep
    requires { IsHosted guest.now memory.now }
    ensures wanted { WantsUnlessDue (machine_of guest.now memory.now) result.wanted }
    ensures found { leaves_list result.found ≡ found_next (machine_of guest.now memory.now) }
    ensures fits { LeavesFit result.found }
{
    step_next(guest, hart.state_mut(), memory)
}

/// The first-stage translations that it finds.
pub fn found_in(guest: &Guest, hart: &mut Hart, memory: &PhysMem) -> Leaves
    requires { IsHosted guest.now memory.now }
    ensures value { leaves_list result ≡ found_next (machine_of guest.now memory.now) }
    ensures fits { LeavesFit result }
{
    found_next(guest, hart.state_mut(), memory)
}

/// The access to data that its instruction makes in its own mode, and its place in RAM, if there is one.
pub fn access_in(guest: &Guest, hart: &mut Hart, memory: &PhysMem) -> Option<(DataAccess, u64)>
    requires { IsHosted guest.now memory.now }
    ensures { result ≡ access_next (machine_of guest.now memory.now) }
{
    access_next(guest, hart.state_mut(), memory)
}
