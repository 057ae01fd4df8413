// The accesses of an instruction of the hart: where each is made, and those to data.

ghost use Rattle.std.specs.Prelude.{◌≡◌, [], option_map, IfSome};
ghost use Rattle.arch_defs.specs.FirstEntries.{HasGuestFrame};
ghost use Rattle.arch_defs.specs.Memory.{machine_memory, with_stored};
ghost use Rattle.arch_defs.specs.Registers.{passed};
ghost use Rattle.op_defs.specs.declared.ops.Purpose.TheVariants.{Load, Store};
ghost use Rattle.machine_defs.specs.declared.events.Event.{Event};
ghost use Rattle.machine_defs.specs.Core.{At, accessed_data, kind_of, storing, word_at};
ghost use Rattle.machine_defs.specs.FirstLeaves.{entries_of};
ghost use Rattle.data_access.specs.Places.{IsPlaceFor};
ghost use Rattle.translation_buffer.specs.Serving.{ServesHart};
ghost use Rattle.rv64_hart.specs.Endings.{IfMade, KeepsContext, LeftBy, Unless, attempt_by};
ghost use Rattle.rv64_hart.specs.Lookups.{LeftByAccess, LookupTells, memory_access_of};
ghost use Rattle.rv64_hart.specs.MachineMemory.{access_over, found_over, mmu_on, reading_of_memory};
ghost use Rattle.rv64_hart.specs.Steps.{Makes, attempt_of, caching_found};

use crate::endings::Ended;
use crate::leaves::cache;
use crate::walked_accesses::{MemoryAccess, reach, reach_by};
use arch_defs::{Access, FirstEntry, HartState, Reg, Trap, Virtual, Width};
use data_access::{DataAccess, complete, is_aligned, kind_of, load, store};
use phys_mem::{Mem, PhysMem};
use translation_buffer::{Buffer, Lookup};

/// The instruction word at a place.
pub fn word_at(memory: &PhysMem, place: u64) -> u32
    requires { IsPlaceFor (machine_memory memory.now) Width.Word place }
    ensures { result ≡ word_at (reading_of_memory memory.now) place }
{
    memory.load_word(place)
}

// What is looked up in the buffer for an access: nothing, where its address is not a multiple of its width.
#[inline(always)]
fn looked_up(
    state: &HartState,
    memory: &PhysMem,
    buffer: &mut Buffer,
    access: MemoryAccess,
) -> Lookup
    requires serves { ServesHart buffer.old state.now memory.now }
    ensures told { LookupTells state.now memory.now access.va access.width access.kind result }
    ensures serves { ServesHart buffer.new state.now memory.now }
{
    memory.is_whole();
    if !is_aligned(access.va, access.width) {
        return Lookup::NotPassed;
    }
    buffer.look_up(memory, state, access.va, access.kind)
}

// Where an access is made that finds nothing, by what is kept alone.
#[inline(always)]
#[tactic(auto, using(crate::proofs::Places::at_place_found, crate::proofs::Places::nothing_found, data_access::proofs::Fitting::fits_at))]
fn found_place(
    state: &HartState,
    memory: &PhysMem,
    buffer: &Buffer,
    access: MemoryAccess,
) -> Option<u64>
    requires serves { ServesHart buffer.now state.now memory.now }
    ensures located { IfSome result
        (λ place. access_over memory.now state.now access.va access.width access.kind ≡ At place) }
    ensures none { IfSome result
        (λ place. found_over memory.now state.now access.va access.width access.kind ≡ []) }
    ensures place { IfSome result
        (λ place. IsPlaceFor (machine_memory memory.now) access.width place) }
{
    memory.is_whole();
    if !is_aligned(access.va, access.width) {
        return None;
    }
    match buffer.kept(memory, state, access.va, access.kind) {
        Some(place) => Some(place),
        None => None,
    }
}

/// Where the instruction at pc is whose access finds nothing, by the page of the last fetch.
#[inline(always)]
#[tactic(auto, using(crate::proofs::Places::nothing_found, data_access::proofs::Fitting::fits_at))]
pub fn last_place(state: &HartState, memory: &PhysMem, buffer: &Buffer, pc: u64) -> Option<u64>
    requires serves { ServesHart buffer.now state.now memory.now }
    ensures located { IfSome result
        (λ place. access_over memory.now state.now pc Width.Word Access.Fetch ≡ At place) }
    ensures none { IfSome result
        (λ place. found_over memory.now state.now pc Width.Word Access.Fetch ≡ []) }
    ensures place { IfSome result
        (λ place. IsPlaceFor (machine_memory memory.now) Width.Word place) }
{
    memory.is_whole();
    match buffer.here(memory, state, pc) {
        Some(place) => Some(place),
        None => None,
    }
}

/// What is looked up for the access at pc of an instruction: by the page of the last fetch, and else by the
/// buffer.
#[inline(always)]
pub fn fetch_lookup(state: &HartState, memory: &PhysMem, buffer: &mut Buffer, pc: u64) -> Lookup
    requires serves { ServesHart buffer.old state.now memory.now }
    ensures told { LookupTells state.now memory.now pc Width.Word Access.Fetch result }
    ensures serves { ServesHart buffer.new state.now memory.now }
{
    match last_place(state, memory, buffer, pc) {
        Some(place) => Lookup::InMemory(place),
        None => turned(state, memory, buffer, pc),
    }
}

// The same by the buffer. Where it has a place, the page of pc becomes that of the last fetch.
#[cold]
#[inline(never)]
fn turned(state: &HartState, memory: &PhysMem, buffer: &mut Buffer, pc: u64) -> Lookup
    requires serves { ServesHart buffer.old state.now memory.now }
    ensures told { LookupTells state.now memory.now pc Width.Word Access.Fetch result }
    ensures serves { ServesHart buffer.new state.now memory.now }
{
    let access = MemoryAccess {
        va: pc,
        width: Width::Word,
        kind: Access::Fetch,
    };
    let lookup = looked_up(state, memory, buffer, access);
    buffer.turn(pc);
    lookup
}

/// Where in memory an instruction makes an access to data, as memory is, and what that finds is cached; where
/// it makes none, `trap` becomes the trap of the access, and nothing is cached.
#[inline(always)]
#[tactic(auto, using(crate::proofs::FirstFound::nothing_filled, crate::proofs::Lookups::located_there, crate::proofs::Lookups::nothing_there, crate::proofs::Lookups::fits_there))]
fn access_place(
    state: &mut HartState,
    memory: &PhysMem,
    buffer: &mut Buffer,
    access: MemoryAccess,
    trap: &mut Trap,
) -> Option<u64>
    requires serves { ServesHart buffer.old state.old memory.now }
    ensures { LeftByAccess access result trap.new buffer.new state.old memory.now state.new }
{
    let lookup = looked_up(state, memory, buffer, access);
    match lookup.place() {
        Some(place) => Some(place),
        None => place_anew(state, memory, buffer, access, lookup, trap),
    }
}

// The same where what was looked up is not a place.
#[cold]
#[inline(never)]
fn place_anew(
    state: &mut HartState,
    memory: &PhysMem,
    buffer: &mut Buffer,
    access: MemoryAccess,
    lookup: Lookup,
    trap: &mut Trap,
) -> Option<u64>
    requires serves { ServesHart buffer.old state.old memory.now }
    requires told { LookupTells state.old memory.now access.va access.width access.kind lookup }
    ensures { LeftByAccess access result trap.new buffer.new state.old memory.now state.new }
{
    let mut entry = None;
    match reach_by(state, memory, access, lookup, trap, &mut entry) {
        Some(place) => {
            cache(&mut state.virt.first, buffer, entry.as_ref());
            Some(place)
        }
        None => None,
    }
}

/// An instruction's access to data. What is kept is opened for a store also where nothing is stored, by LR
/// and an SC that fails.
pub fn access_data(
    state: &mut HartState,
    memory: &mut PhysMem,
    buffer: &mut Buffer,
    wanted: DataAccess,
    trap: &mut Trap,
) -> Ended
    requires serves { ServesHart buffer.old state.old memory.old }
    ensures ends { (event : Event) → attempt_of (caching_found state.old
        (found_over memory.old state.old wanted.address wanted.width (kind_of wanted.purpose))) memory.old
        (accessed_data (mmu_on state.old memory.old) state.old.virt event wanted)
        ≡ attempt_by result trap.new event state.new memory.new }
    ensures left { LeftBy result buffer.new state.old memory.old state.new memory.new }
{
    let access = memory_access_of(&wanted);
    match access_place(state, memory, buffer, access, trap) {
        Some(at) => {
            buffer.open(at);
            complete(memory, &mut state.virt, wanted.width, wanted.purpose, at);
            Ended::Plain
        }
        None => Ended::Raised,
    }
}

/// The same of an instruction whose own access at pc has found a first-stage translation, which is cached
/// before that of the access to data, but has no part in this access.
pub fn access_data_anew(
    state: &mut HartState,
    memory: &mut PhysMem,
    buffer: &mut Buffer,
    wanted: DataAccess,
    found: Option<&FirstEntry>,
    trap: &mut Trap,
) -> Ended
    requires serves { ServesHart buffer.old state.old memory.old }
    requires fits { IfSome found (λ e. HasGuestFrame e.now) }
    ensures ends { (event : Event) → attempt_of (caching_found
        (caching_found state.old (entries_of (option_map (λ e. e.now) found.entry)))
        (found_over memory.old state.old wanted.address wanted.width (kind_of wanted.purpose))) memory.old
        (accessed_data (mmu_on state.old memory.old) state.old.virt event wanted)
        ≡ attempt_by result trap.new event state.new memory.new }
    ensures left { LeftBy result buffer.new state.old memory.old state.new memory.new }
{
    let access = memory_access_of(&wanted);
    let mut entry = None;
    match reach(state, memory, access, trap, &mut entry) {
        Some(at) => {
            cache(&mut state.virt.first, buffer, found);
            cache(&mut state.virt.first, buffer, entry.as_ref());
            buffer.open(at);
            complete(memory, &mut state.virt, wanted.width, wanted.purpose, at);
            Ended::Plain
        }
        None => Ended::Raised,
    }
}

/// A load, if its place is kept. Each width has a call of its own, which the compiler joins to the decoder's
/// arm of that width.
#[inline(always)]
pub fn load_kept(
    state: &mut HartState,
    memory: &PhysMem,
    buffer: &Buffer,
    at: u64,
    width: Width,
    signed: bool,
    rd: Reg,
) -> bool
    requires serves { ServesHart buffer.now state.old memory.now }
    ensures made { (event : Event) → IfMade result (attempt_of (caching_found state.old
        (found_over memory.now state.old at width Access.Load)) memory.now
        (accessed_data (mmu_on state.old memory.now) state.old.virt event
        (record { address = at; width = width; purpose = Load signed rd }))
        ≡ Makes state.new memory.now event) }
    ensures stays { Unless result (state.new ≡ state.old) }
    ensures serves { ServesHart buffer.now state.new memory.now }
    ensures context { KeepsContext state.old.virt state.new.virt }
{
    match (width, signed) {
        (Width::Byte, true) => load_sized(state, memory, buffer, at, Width::Byte, true, rd),
        (Width::Half, true) => load_sized(state, memory, buffer, at, Width::Half, true, rd),
        (Width::Word, true) => load_sized(state, memory, buffer, at, Width::Word, true, rd),
        (Width::Double, true) => load_sized(state, memory, buffer, at, Width::Double, true, rd),
        (Width::Byte, false) => load_sized(state, memory, buffer, at, Width::Byte, false, rd),
        (Width::Half, false) => load_sized(state, memory, buffer, at, Width::Half, false, rd),
        (Width::Word, false) => load_sized(state, memory, buffer, at, Width::Word, false, rd),
        (Width::Double, false) => load_sized(state, memory, buffer, at, Width::Double, false, rd),
    }
}

// A load of a width.
#[inline(always)]
fn load_sized(
    state: &mut HartState,
    memory: &PhysMem,
    buffer: &Buffer,
    at: u64,
    width: Width,
    signed: bool,
    rd: Reg,
) -> bool
    requires serves { ServesHart buffer.now state.old memory.now }
    ensures made { (event : Event) → IfMade result (attempt_of (caching_found state.old
        (found_over memory.now state.old at width Access.Load)) memory.now
        (accessed_data (mmu_on state.old memory.now) state.old.virt event
        (record { address = at; width = width; purpose = Load signed rd }))
        ≡ Makes state.new memory.now event) }
    ensures stays { Unless result (state.new ≡ state.old) }
    ensures serves { ServesHart buffer.now state.new memory.now }
    ensures context { KeepsContext state.old.virt state.new.virt }
{
    let access = MemoryAccess {
        va: at,
        width,
        kind: Access::Load,
    };
    match found_place(state, memory, buffer, access) {
        Some(place) => {
            load(memory, &mut state.virt, width, signed, rd, place);
            true
        }
        None => false,
    }
}

/// A store, if its place is kept and nothing that is kept was read by its frame. Each width has a call of its
/// own, as those of a load have.
#[inline(always)]
pub fn store_kept(
    state: &mut HartState,
    memory: &mut PhysMem,
    buffer: &Buffer,
    address: u64,
    width: Width,
    value: u64,
) -> bool
    requires serves { ServesHart buffer.now state.old memory.old }
    ensures made { (event : Event) → IfMade result (attempt_of (caching_found state.old
        (found_over memory.old state.old address width Access.Store)) memory.old
        (accessed_data (mmu_on state.old memory.old) state.old.virt event
        (record { address = address; width = width; purpose = Store value }))
        ≡ Makes state.new memory.new event) }
    ensures stays { Unless result ((state.new ≡ state.old) × (memory.new ≡ memory.old)) }
    ensures serves { ServesHart buffer.now state.new memory.new }
    ensures context { KeepsContext state.old.virt state.new.virt }
{
    match width {
        Width::Byte => store_sized(state, memory, buffer, address, Width::Byte, value),
        Width::Half => store_sized(state, memory, buffer, address, Width::Half, value),
        Width::Word => store_sized(state, memory, buffer, address, Width::Word, value),
        Width::Double => store_sized(state, memory, buffer, address, Width::Double, value),
    }
}

// A store of a width.
#[inline(always)]
fn store_sized(
    state: &mut HartState,
    memory: &mut PhysMem,
    buffer: &Buffer,
    address: u64,
    width: Width,
    value: u64,
) -> bool
    requires serves { ServesHart buffer.now state.old memory.old }
    ensures made { (event : Event) → IfMade result (attempt_of (caching_found state.old
        (found_over memory.old state.old address width Access.Store)) memory.old
        (accessed_data (mmu_on state.old memory.old) state.old.virt event
        (record { address = address; width = width; purpose = Store value }))
        ≡ Makes state.new memory.new event) }
    ensures stays { Unless result ((state.new ≡ state.old) × (memory.new ≡ memory.old)) }
    ensures serves { ServesHart buffer.now state.new memory.new }
    ensures context { KeepsContext state.old.virt state.new.virt }
{
    let access = MemoryAccess {
        va: address,
        width,
        kind: Access::Store,
    };
    match found_place(state, memory, buffer, access) {
        Some(place) => {
            if buffer.has_read(place) {
                return false;
            }
            store_at(memory, &mut state.virt, width, value, place);
            true
        }
        None => false,
    }
}

/// A load whose place may not be kept.
#[inline(never)]
pub fn load_anew(
    state: &mut HartState,
    memory: &PhysMem,
    buffer: &mut Buffer,
    at: u64,
    width: Width,
    signed: bool,
    rd: Reg,
    trap: &mut Trap,
) -> Ended
    requires serves { ServesHart buffer.old state.old memory.now }
    ensures ends { (event : Event) → attempt_of (caching_found state.old
        (found_over memory.now state.old at width Access.Load)) memory.now
        (accessed_data (mmu_on state.old memory.now) state.old.virt event
        (record { address = at; width = width; purpose = Load signed rd }))
        ≡ attempt_by result trap.new event state.new memory.now }
    ensures left { LeftBy result buffer.new state.old memory.now state.new memory.now }
{
    let access = MemoryAccess {
        va: at,
        width,
        kind: Access::Load,
    };
    match access_place(state, memory, buffer, access, trap) {
        Some(place) => {
            load(memory, &mut state.virt, width, signed, rd, place);
            Ended::Plain
        }
        None => Ended::Raised,
    }
}

/// A store whose place may not be kept.
#[inline(never)]
pub fn store_anew(
    state: &mut HartState,
    memory: &mut PhysMem,
    buffer: &mut Buffer,
    address: u64,
    width: Width,
    value: u64,
    trap: &mut Trap,
) -> Ended
    requires serves { ServesHart buffer.old state.old memory.old }
    ensures ends { (event : Event) → attempt_of (caching_found state.old
        (found_over memory.old state.old address width Access.Store)) memory.old
        (accessed_data (mmu_on state.old memory.old) state.old.virt event
        (record { address = address; width = width; purpose = Store value }))
        ≡ attempt_by result trap.new event state.new memory.new }
    ensures left { LeftBy result buffer.new state.old memory.old state.new memory.new }
{
    let access = MemoryAccess {
        va: address,
        width,
        kind: Access::Store,
    };
    match access_place(state, memory, buffer, access, trap) {
        Some(place) => {
            buffer.open(place);
            store(memory, &mut state.virt, width, value, place);
            Ended::Plain
        }
        None => Ended::Raised,
    }
}

/// An access to data, as one to memory.
pub fn memory_access_of(wanted: &DataAccess) -> MemoryAccess
    ensures { result ≡ memory_access_of wanted.now }
{
    MemoryAccess {
        va: wanted.address,
        width: wanted.width,
        kind: kind_of(wanted.purpose),
    }
}

// Completes a store at its place. pc goes into memory last, without being read again.
#[inline(always)]
fn store_at(memory: &mut PhysMem, state: &mut Virtual, width: Width, value: u64, place: u64)
    requires place { IsPlaceFor (machine_memory memory.old) width place }
    ensures state { state.new ≡ passed state.old }
    ensures memory { memory.new ≡ with_stored 0 (storing place width value) memory.old }
{
    let next = state.regs.pc.wrapping_add(4);
    put(memory, width, value, place);
    state.regs.pc = next;
}

// Writes the low bytes of a value at a place.
#[inline(always)]
fn put(memory: &mut PhysMem, width: Width, value: u64, place: u64)
    requires { IsPlaceFor (machine_memory memory.old) width place }
    ensures { memory.new ≡ with_stored 0 (storing place width value) memory.old }
{
    memory.store(place, width.bytes(), value);
}
