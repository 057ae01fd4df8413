// Accesses to which the second stage gives no place.

ghost use Rattle.std.specs.Prelude.{◌≡◌, ◌≢◌, ℕ, List, length};
ghost use Rattle.arch_defs.specs.CachedEntries.{device_by_entries};
ghost use Rattle.arch_defs.specs.Frames.{LieIn, in_blocks};
ghost use Rattle.arch_defs.specs.Memory.{ram_memory};
ghost use Rattle.arch_defs.specs.Ram.{ram_of};
ghost use Rattle.arch_defs.specs.SecondStage.{missing_place_trap};
ghost use Rattle.arch_defs.specs.Spaces.{front};
ghost use Rattle.machine_defs.specs.Machine.{trapped};
ghost use Rattle.machine_defs.specs.Tries.{device_of};
ghost use Rattle.shadow_pool.specs.Slots.{spaces_of};
ghost use Rattle.hosted_steps.specs.ExitCases.{Missing, entry_for, found_next, having_found};
ghost use Rattle.guest_exit.specs.HartExit.{IsLeftToHost, IsMadeFor, MakesTold};
ghost use Rattle.guest_exit.specs.View.{machine_of};

use crate::device_accesses::access_device;
use crate::found_leaves::find_next;
use crate::guests::{Guest, folds};
use crate::hart_exit::{Handled, raise};
use arch_defs::{Entry, Trap};
use phys_mem::{PhysMem, Ram};
use rv64_hart::Leaves;
use two_stage_walk::{MissingPlace, entry_by_walk, is_on_device, missing_place_trap};

/// An access to which the second stage gives no place. On the device page of a guest that has one it is made
/// there. Else, where the guest folds and the walk of its own table has a leaf for it, the entry is filled,
/// no step is made, and what the step finds of the first stage is not cached; and else the fault of that walk
/// is taken.
pub fn miss(guest: &mut Guest, memory: &mut PhysMem, access: &MissingPlace) -> Handled
    requires left { IsLeftToHost guest.old memory.old }
    ensures made { IsMadeFor (Missing access.now) result
        guest.old memory.old guest.new memory.new }
    ensures goes { result ≢ Handled.Waits }
    ensures runs { result ≢ Handled.Stopped }
{
    if has_on_device(guest, access) {
        return access_device(guest, memory, access);
    }
    match entry_for(guest, memory, access) {
        Some(entry) => {
            let key = guest.pool.key(0);
            guest.pool.fill(memory, key, entry);
            Handled::Retry
        }
        None => raise_fault(guest, memory, access),
    }
}

// The fault of the walk of the guest's own table for such an access is taken.
#[inline(never)]
fn raise_fault(guest: &mut Guest, memory: &mut PhysMem, access: &MissingPlace) -> Handled
    requires left { IsLeftToHost guest.old memory.old }
    ensures made { MakesTold result guest.old guest.new
        (λ m. trapped (having_found (found_next (machine_of guest.old memory.old)) m)
        (missing_place_trap guest.old.virt.csrs (ram_memory (ram_of guest.old.part.blocks memory.old))
        access.now)) }
    ensures goes { result ≢ Handled.Waits }
    ensures went { result ≢ Handled.Retry }
    ensures runs { result ≢ Handled.Stopped }
    ensures stays { memory.new ≡ memory.old }
{
    let mut found = Leaves::none();
    find_next(guest, memory, &mut found);
    found.fill(&mut guest.virt.first);
    let fault = fault_of(guest, memory, access);
    raise(guest, &fault)
}

// That fault.
fn fault_of(guest: &Guest, memory: &mut PhysMem, access: &MissingPlace) -> Trap
    requires lies { LieIn (in_blocks guest.now.part.blocks) (length memory.old) }
    ensures fault { result ≡ missing_place_trap guest.now.virt.csrs
        (ram_memory (ram_of guest.now.part.blocks memory.old)) access.now }
    ensures stays { memory.new ≡ memory.old }
{
    let ram = Ram::new(memory, &guest.part);
    missing_place_trap(&ram, &guest.virt.csrs, access)
}

// Whether an access is on the device page of a guest that has one: by the front space of a guest that folds,
// else by its address.
fn has_on_device(guest: &Guest, access: &MissingPlace) -> bool
    ensures { (memory : List ℕ)
        → result ≡ device_of (machine_of guest.now memory) access.now.address access.now.kind }
{
    if !guest.device {
        return false;
    }
    if folds(&guest.virt) {
        is_cached_on_device(guest, access)
    } else {
        is_on_device(access.address)
    }
}

// Whether an entry of the front space has an access on the device page.
fn is_cached_on_device(guest: &Guest, access: &MissingPlace) -> bool
    ensures { result ≡ device_by_entries (front (spaces_of guest.now.pool))
        guest.now.virt.csrs.hs.status.mxr access.now.address access.now.kind }
{
    let mxr = guest.virt.csrs.hs.status.mxr;
    guest.pool.is_on_device(mxr, access.address, access.kind)
}

// The entry that a guest lacks for an access without a place, if the walk of its own table has a leaf for it.
fn entry_for(guest: &Guest, memory: &mut PhysMem, access: &MissingPlace) -> Option<Entry>
    requires lies { LieIn (in_blocks guest.now.part.blocks) (length memory.old) }
    ensures entry { result ≡ entry_for (machine_of guest.now memory.old) access.now }
    ensures stays { memory.new ≡ memory.old }
{
    if !folds(&guest.virt) || is_cached_on_device(guest, access) {
        return None;
    }
    let ram = Ram::new(memory, &guest.part);
    let csrs = &guest.virt.csrs;
    entry_by_walk(&ram, guest.device, csrs, access.address, access.kind)
}
