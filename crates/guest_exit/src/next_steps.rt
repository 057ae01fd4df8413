// What a guest's next step is about to do: as the hart, loaded for the guest, would do it.

ghost use Rattle.std.specs.Prelude.{◌≡◌, length, option_and_then};
ghost use Rattle.rv64_hart.specs.Leaves.{LeavesFit, leaves_list};
ghost use Rattle.hosted_steps.specs.ExitCases.{found_next};
ghost use Rattle.guest_exit.specs.NextSteps.{WantsUnlessDue, access_next, at_own_address, word_next};
ghost use Rattle.guest_exit.specs.View.{IsPlaced, machine_of};

use crate::guests::Guest;
use crate::hart_entry::load_for;
use arch_defs::{HartState, Part};
use op_defs::DataAccess;
use phys_mem::PhysMem;
use rv64_hart::{Leaves, access_at_pc, found_at_exit, next_at_exit, word_at_pc};
use trap_delegation::pending;
use world_switch::own_address;

/// The word of the instruction that the guest's next step makes. None where an interrupt is due, and where
/// the fetch has no place in RAM. It loads the hart's state for the guest.
pub fn word_next(guest: &Guest, hart: &mut HartState, memory: &PhysMem) -> Option<u32>
    requires { IsPlaced guest.now memory.now }
    ensures { result ≡ word_next (machine_of guest.now memory.now) }
{
    match pending(&guest.virt.csrs, guest.virt.mode) {
        Some(_) => None,
        None => {
            load_for(guest, hart);
            word_at_pc(hart, memory)
        }
    }
}

/// What the guest's next instruction wants of data, and the first-stage translations that the step finds.
#[derive(Clone, Copy)]
pub struct NextStep {
    pub wanted: Option<DataAccess>,
    pub found: Leaves,
}

/// Both, by one load of the hart's state for the guest. Nothing, where an interrupt is due.
pub fn step_next(guest: &Guest, hart: &mut HartState, memory: &PhysMem) -> NextStep
    requires { IsPlaced guest.now memory.now }
    ensures wanted { WantsUnlessDue (machine_of guest.now memory.now) result.wanted }
    ensures found { leaves_list result.found ≡ found_next (machine_of guest.now memory.now) }
    ensures fits { LeavesFit result.found }
{
    let mut found = Leaves::none();
    match pending(&guest.virt.csrs, guest.virt.mode) {
        Some(_) => NextStep {
            wanted: None,
            found,
        },
        None => {
            load_for(guest, hart);
            let wanted = next_at_exit(hart, memory, &mut found);
            NextStep { wanted, found }
        }
    }
}

/// The first-stage translations that the guest's next step finds. It loads the hart's state for the guest.
pub fn found_next(guest: &Guest, hart: &mut HartState, memory: &PhysMem) -> Leaves
    requires { IsPlaced guest.now memory.now }
    ensures value { leaves_list result ≡ found_next (machine_of guest.now memory.now) }
    ensures fits { LeavesFit result }
{
    match pending(&guest.virt.csrs, guest.virt.mode) {
        Some(_) => Leaves::none(),
        None => {
            load_for(guest, hart);
            found_at_exit(hart, memory)
        }
    }
}

/// The access to data that the guest's next instruction makes in its own mode, and its place in RAM. None
/// where an interrupt is due, and where there is no such access or place. It loads the hart's state for the
/// guest.
pub fn access_next(
    guest: &Guest,
    hart: &mut HartState,
    memory: &PhysMem,
) -> Option<(DataAccess, u64)>
    requires { IsPlaced guest.now memory.now }
    ensures { result ≡ access_next (machine_of guest.now memory.now) }
{
    match pending(&guest.virt.csrs, guest.virt.mode) {
        Some(_) => None,
        None => {
            load_for(guest, hart);
            at_own_address(&guest.part, access_at_pc(hart, memory))
        }
    }
}

// An access in machine memory, at the address that its place there has in the blocks of a part.
fn at_own_address(part: &Part, made: Option<(DataAccess, u64)>) -> Option<(DataAccess, u64)>
    ensures { result ≡ option_and_then (at_own_address part.now.blocks) made }
{
    let (wanted, place) = made?;
    let address = own_address(part.blocks(), place)?;
    Some((wanted, address))
}
