// Where an access is made, and what it finds in the first stage, by no kept translation.

ghost use Rattle.std.specs.Prelude.{◌≡◌, ◌%◌, ◌<◌, ◌^◌, None, false, ok_or, IfSome};
ghost use Rattle.arch_defs.specs.FirstEntries.{HasGuestFrame, first_entry};
ghost use Rattle.arch_defs.specs.Memory.{Known, machine_memory, mmu};
ghost use Rattle.arch_defs.specs.Translation.{first_stage};
ghost use Rattle.arch_defs.specs.Walk.{most_levels};
ghost use Rattle.arch_defs.specs.Widths.{bytes_in};
ghost use Rattle.machine_defs.specs.Answers.{answer_of};
ghost use Rattle.machine_defs.specs.Core.{found_with, located_by};
ghost use Rattle.machine_defs.specs.FirstLeaves.{entries_of, entry_walked, unless_known};
ghost use Rattle.data_access.specs.Places.{IsPlaceFor};
ghost use Rattle.stage_walk.specs.Ends.{LeafFits};
ghost use Rattle.two_stage_walk.specs.Places.{KeepsOffset};
ghost use Rattle.rv64_hart.specs.Lookups.{IsAccessReached, LookupTells, missing_at};
ghost use Rattle.rv64_hart.specs.MachineMemory.{known_on, mmu_on, reading_of_memory, second_of_memory};

use arch_defs::{
    Access, FirstEntry, Found, HartState, LeafPte, MissingPlace, SupervisorRoot, Tag, Trap, Width,
};
use data_access::is_aligned;
use phys_mem::{Mem, PhysMem};
use translation_buffer::{Lookup, passed_by};
use two_stage_walk::{
    first_leaf, first_stage, guest_page_trap, leaf_address, supervisor_of, translate_found,
};

/// An access to memory: the virtual address of its first byte, how wide it is, and of which kind.
#[derive(Clone, Copy)]
pub struct MemoryAccess {
    pub va: u64,
    pub width: Width,
    pub kind: Access,
}

// The translation of an address's one page under a leaf.
fn first_entry(tag: &Tag, atp: SupervisorRoot, va: u64, leaf: &LeafPte) -> FirstEntry
    requires { LeafFits most_levels leaf.now }
    ensures value { result ≡ first_entry tag.now atp va leaf.now }
    ensures fits { HasGuestFrame result }
{
    FirstEntry {
        tag: *tag,
        atp,
        page: va / 4096,
        frame: leaf_address(leaf, va) / 4096,
        r: leaf.r,
        w: leaf.w,
        x: leaf.x,
        u: leaf.u,
        level: leaf.level,
    }
}

// What the first stage makes of an address by a walk. The translation that it finds is put into `entry`.
#[inline(never)]
#[tactic(auto, using(crate::proofs::FirstFound::leaf_passes), unfolding(arch_defs::specs::Translation::first_stage, machine_defs::specs::FirstLeaves::entry_walked))]
fn walked(
    state: &HartState,
    memory: &PhysMem,
    va: u64,
    access: Access,
    entry: &mut Option<FirstEntry>,
) -> Found
    requires none { entry.old ≡ None }
    ensures found { result ≡ first_stage (second_of_memory state.now.virt memory.now)
        (reading_of_memory memory.now) state.now.virt.csrs state.now.virt.mode va access }
    ensures entry { (known : Known) → entry.new ≡ entry_walked state.now.tag
        (mmu known (second_of_memory state.now.virt memory.now) (reading_of_memory memory.now))
        state.now.virt va access }
    ensures offset { KeepsOffset va result }
    ensures fits { IfSome entry.new HasGuestFrame }
{
    let virt = &state.virt;
    memory.is_whole();
    match first_leaf(memory, &virt.csrs, virt.mode, va, access) {
        Some(leaf) => {
            let atp = supervisor_of(&virt.csrs, virt.mode).atp;
            *entry = Some(first_entry(&state.tag, atp, va, &leaf));
            Found::Passes(leaf_address(&leaf, va))
        }
        None => first_stage(memory, &virt.csrs, virt.mode, va, access),
    }
}

// The same by the translations that are cached, and else by a walk.
#[tactic(auto, unfolding(arch_defs::specs::Translation::first_stage, machine_defs::specs::FirstLeaves::entry_walked))]
fn first_stage_of(
    state: &HartState,
    memory: &PhysMem,
    va: u64,
    access: Access,
    entry: &mut Option<FirstEntry>,
) -> Found
    requires none { entry.old ≡ None }
    ensures found { result ≡ found_with (known_on state.now va access)
        (first_stage (second_of_memory state.now.virt memory.now) (reading_of_memory memory.now)
        state.now.virt.csrs state.now.virt.mode va access) }
    ensures entry { entries_of entry.new ≡ unless_known (known_on state.now va access)
        (entry_walked state.now.tag (mmu_on state.now memory.now) state.now.virt va access) }
    ensures offset { KeepsOffset va result }
    ensures fits { IfSome entry.new HasGuestFrame }
{
    let atp = supervisor_of(&state.virt.csrs, state.virt.mode).atp;
    match passed_by(state, &atp, va, access) {
        Some(address) => Found::Passes(address),
        None => walked(state, memory, va, access, entry),
    }
}

// The same by a walk, where no cached translation passes the access on.
#[inline(always)]
fn first_stage_anew(
    state: &HartState,
    memory: &PhysMem,
    va: u64,
    access: Access,
    entry: &mut Option<FirstEntry>,
) -> Found
    requires none { entry.old ≡ None }
    requires unknown { known_on state.now va access ≡ None }
    ensures found { result ≡ found_with (known_on state.now va access)
        (first_stage (second_of_memory state.now.virt memory.now) (reading_of_memory memory.now)
        state.now.virt.csrs state.now.virt.mode va access) }
    ensures entry { entries_of entry.new ≡ unless_known (known_on state.now va access)
        (entry_walked state.now.tag (mmu_on state.now memory.now) state.now.virt va access) }
    ensures offset { KeepsOffset va result }
    ensures fits { IfSome entry.new HasGuestFrame }
{
    walked(state, memory, va, access, entry)
}

// Where an aligned access is made, by what the first stage made of its address. Where it is made nowhere,
// `trap` becomes its trap to the hart.
#[inline(always)]
#[tactic(auto, using(data_access::proofs::Fitting::fits_at))]
fn reached(
    state: &HartState,
    memory: &PhysMem,
    access: MemoryAccess,
    found: Found,
    trap: &mut Trap,
) -> Option<u64>
    requires aligned { access.va % bytes_in access.width ≡ 0 }
    requires offset { KeepsOffset access.va found }
    ensures place { ok_or result trap.new ≡ answer_of false state.now.virt.csrs
        (machine_memory memory.now) (located_by (second_of_memory state.now.virt memory.now)
        state.now.virt.mode access.va access.kind found) }
    ensures inside { IfSome result
        (λ place. IsPlaceFor (machine_memory memory.now) access.width place) }
{
    let virt = &state.virt;
    let (va, kind) = (access.va, access.kind);
    memory.is_whole();
    match translate_found(memory, &virt.csrs, virt.mode, va, kind, false, found) {
        Ok(place) => Some(place),
        Err(raised) => {
            *trap = raised;
            None
        }
    }
}

/// Where an access is made, by the first-stage translations that are cached, and else by walks. Where it is
/// made nowhere, `trap` becomes its trap to the hart. The first-stage translation that it finds is put into
/// `entry`.
pub fn reach(
    state: &HartState,
    memory: &PhysMem,
    access: MemoryAccess,
    trap: &mut Trap,
    entry: &mut Option<FirstEntry>,
) -> Option<u64>
    requires none { entry.old ≡ None }
    ensures { IsAccessReached state.now memory.now access trap.new entry.new result }
{
    if !is_aligned(access.va, access.width) {
        *trap = Trap::of_exception(state.virt.mode, access.kind.faults().misaligned, access.va);
        return None;
    }
    let found = first_stage_of(state, memory, access.va, access.kind, entry);
    reached(state, memory, access, found, trap)
}

// The same where no cached translation passes the access on.
fn reach_anew(
    state: &HartState,
    memory: &PhysMem,
    access: MemoryAccess,
    trap: &mut Trap,
    entry: &mut Option<FirstEntry>,
) -> Option<u64>
    requires none { entry.old ≡ None }
    requires unknown { access.va % bytes_in access.width ≡ 0
        → known_on state.now access.va access.kind ≡ None }
    ensures { IsAccessReached state.now memory.now access trap.new entry.new result }
{
    if !is_aligned(access.va, access.width) {
        *trap = Trap::of_exception(state.virt.mode, access.kind.faults().misaligned, access.va);
        return None;
    }
    let found = first_stage_anew(state, memory, access.va, access.kind, entry);
    reached(state, memory, access, found, trap)
}

/// The same by what is looked up for the access.
#[inline(always)]
pub fn reach_by(
    state: &HartState,
    memory: &PhysMem,
    access: MemoryAccess,
    lookup: Lookup,
    trap: &mut Trap,
    entry: &mut Option<FirstEntry>,
) -> Option<u64>
    requires told { LookupTells state.now memory.now access.va access.width access.kind lookup }
    requires none { entry.old ≡ None }
    ensures { IsAccessReached state.now memory.now access trap.new entry.new result }
{
    match lookup {
        Lookup::InMemory(place) => Some(place),
        Lookup::GuestPageFault(address) => {
            *trap = guest_page_trap(&missing_at(state, access.va, access.kind, address));
            None
        }
        Lookup::AccessFault => {
            *trap = missing_at(state, access.va, access.kind, access.va).access_fault();
            None
        }
        Lookup::NotPassed => reach_anew(state, memory, access, trap, entry),
    }
}

// An access for which the second stage has no place at a guest physical address.
#[inline(always)]
fn missing_at(state: &HartState, va: u64, access: Access, address: u64) -> MissingPlace
    ensures { result ≡ missing_at state.now va access address }
{
    MissingPlace {
        address,
        kind: access,
        access,
        va,
        mode: state.virt.mode,
    }
}
