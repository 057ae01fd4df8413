// The tables of a pool, those of the most recently entered spaces first.

ghost use Rattle.std.specs.Prelude.{◌≡◌, [], ◌∷◌, ◌<◌, ◌≤◌, Some, length, option_map, remove, slice_index_or};
ghost use Rattle.std.specs.List.{AllPairs, position};
ghost use Rattle.arch_defs.specs.declared.cached.Entry.{Entry};
ghost use Rattle.arch_defs.specs.CachedEntries.{CanFill, device_by_entries, filled};
ghost use Rattle.arch_defs.specs.Frames.{Only};
ghost use Rattle.arch_defs.specs.Spaces.{entered, fenced, fenced_space, front, names_vmid};
ghost use Rattle.shadow_space.specs.Moves.{IsMovedPart};
ghost use Rattle.shadow_space.specs.Shadows.{KeepsSpace, Tidy, own_frames};
ghost use Rattle.shadow_pool.specs.declared.slots.Slot.{Slot};
ghost use Rattle.shadow_pool.specs.Moves.{IsMovedPool, slot_in_part};
ghost use Rattle.shadow_pool.specs.Slots.{CanFillFor, ComesBefore, FoldedPool, HasSpaceFor, KeepsPool, TidyPool, filled_for, front_root, has_key, is_spare, most_of, part_of, pool_frames, pool_of, space_at, space_of, spaces_in};

use arch_defs::{Access, Entry, Fence, Key, Part};
use phys_mem::PhysMem;
use shadow_space::Space;
use std::marker::Model;

/// The table of a space, and the value of hgatp that the space is for, if it is in use. The space is behind a
/// pointer, so that a table moves among others without the lists of its space.
#[derive(Drop)]
pub struct Slot {
    pub key: Option<Key>,
    pub space: Box<Space>,
}

impl Model for Slot {
    ghost use Rattle.shadow_pool.specs.Slotted.{Slotted};

    ghost Value = { Slotted };

    ghost view = { λ s. record { key = s.key; space = s.space.value } };
}

/// Enters a value of hgatp: the table of its space comes to the front. Where it has none, the last table
/// becomes that of an empty one.
pub fn enter(slots: &mut [Slot], mem: &mut PhysMem, key: Key)
    requires { TidyPool (pool_of slots.old) mem.old }
    ensures spaces { spaces_in slots.new ≡ entered (length slots.old) key (spaces_in slots.old) }
    ensures held { HasSpaceFor key (spaces_in slots.new) }
    ensures keeps { KeepsPool (pool_of slots.old) mem.old (pool_of slots.new) mem.new }
    ensures folded { FoldedPool (pool_of slots.new) mem.new }
{
    match place_of(slots, key) {
        Some(i) => to_front(slots, i),
        None => {
            let last = slots.len() - 1;
            renew(&mut slots[last], mem, key);
            to_front(slots, last);
        }
    }
}

// The place of the first table that is for a value of hgatp.
fn place_of(slots: &[Slot], key: Key) -> Option<usize>
    ensures { result ≡ position (has_key key) slots.now }
{
    slots.iter().position(|slot| has_key(slot, key))
}

// Whether a table is for a value of hgatp.
fn has_key(slot: &Slot, key: Key) -> bool
    ensures { result ≡ has_key key slot.now }
{
    match slot.key {
        None => false,
        Some(other) => other.is_key(key),
    }
}

/// How many spaces there are, which is where the first table stands that is in no use.
#[tactic(auto, using(crate::proofs::Listing::used_some, crate::proofs::Listing::used_none))]
pub fn used(slots: &[Slot]) -> usize
    requires { AllPairs ComesBefore slots.now }
    ensures { result ≡ length (spaces_in slots.now) }
{
    match first_spare(slots) {
        Some(i) => i,
        None => slots.len(),
    }
}

// The place of the first table that is in no use.
fn first_spare(slots: &[Slot]) -> Option<usize>
    ensures { result ≡ position is_spare slots.now }
{
    slots.iter().position(|slot| is_spare(slot))
}

// Whether a table is in no use.
fn is_spare(slot: &Slot) -> bool
    ensures { result ≡ is_spare slot.now }
{
    slot.key.is_none()
}

/// The value of hgatp that space i is for.
#[tactic(auto, using(crate::proofs::Entering::few_spaces, crate::proofs::Listing::key_is))]
pub fn key_at(slots: &[Slot], i: usize) -> Key
    requires order { AllPairs ComesBefore slots.now }
    requires space { i < length (spaces_in slots.now) }
    ensures { result ≡ (space_at (spaces_in slots.now) i).key }
{
    let slot = &slots[i];
    match slot.key {
        Some(key) => key,
        None => unreachable!(),
    }
}

/// The entries of space i, the oldest first.
#[tactic(auto, using(crate::proofs::Entering::few_spaces, crate::proofs::Listing::entries_are))]
pub fn entries_at(slots: &[Slot], i: usize) -> &[Entry]
    requires order { AllPairs ComesBefore slots.now }
    requires space { i < length (spaces_in slots.now) }
    ensures { result.now ≡ (space_at (spaces_in slots.now) i).entries }
{
    let slot = &slots[i];
    slot.space.entries()
}

/// An entry of a space's entries, entry 0 being the oldest.
pub fn entry_in(entries: &[Entry], j: usize) -> Entry
    requires { j < length entries.now }
    ensures { (d : Entry) → result ≡ slice_index_or entries.now j d }
{
    entries[j]
}

/// The entries of the front space, the oldest first.
#[tactic(auto, using(crate::proofs::Listing::entries_spare, crate::proofs::Listing::entries_used))]
pub fn front_entries(slots: &[Slot]) -> &[Entry]
    requires some { 1 ≤ length slots.now }
    requires order { AllPairs ComesBefore slots.now }
    ensures { result.now ≡ front (spaces_in slots.now) }
{
    let front = &slots[0];
    match front.key {
        None => &[],
        Some(_) => front.space.entries(),
    }
}

/// Whether an access of a kind is on the device page by the front space.
#[tactic(auto, using(crate::proofs::Listing::front_spare, crate::proofs::Listing::front_used))]
pub fn is_on_device(slots: &[Slot], mxr: bool, address: u64, kind: Access) -> bool
    requires some { 1 ≤ length slots.now }
    requires order { AllPairs ComesBefore slots.now }
    ensures { result ≡ device_by_entries (front (spaces_in slots.now)) mxr address kind }
{
    let front = &slots[0];
    match front.key {
        None => false,
        Some(_) => front.space.is_on_device(mxr, address, kind),
    }
}

// Moves a table to the front.
fn to_front(slots: &mut [Slot], i: usize)
    requires { i < length slots.old }
    ensures { (d : Slot) → slots.new ≡ slice_index_or slots.old i d ∷ remove slots.old i }
{
    slots[..=i].rotate_right(1);
}

// Makes a table that of an empty space for a value of hgatp.
fn renew(slot: &mut Slot, mem: &mut PhysMem, key: Key)
    requires { Tidy slot.old.space mem.old }
    ensures key { slot.new.key ≡ Some key }
    ensures entries { slot.new.space.entries ≡ [] }
    ensures keeps { KeepsSpace slot.old.space mem.old slot.new.space mem.new }
    ensures tidy { Tidy slot.new.space mem.new }
{
    slot.space.wipe(mem);
    slot.key = Some(key);
}

/// Fills an entry of the space for a value of hgatp, which has one.
pub fn fill(slots: &mut [Slot], mem: &mut PhysMem, key: Key, entry: Entry)
    requires tidy { TidyPool (pool_of slots.old) mem.old }
    requires entry { CanFillFor key (pool_of slots.old) entry }
    ensures spaces { spaces_in slots.new ≡ filled_for key (most_of slots.old) (spaces_in slots.old) entry }
    ensures root { front_root slots.new ≡ front_root slots.old }
    ensures keeps { KeepsPool (pool_of slots.old) mem.old (pool_of slots.new) mem.new }
    ensures folded { FoldedPool (pool_of slots.new) mem.new }
{
    match place_of(slots, key) {
        Some(i) => fill_one(&mut slots[i], mem, entry),
        None => unreachable!(),
    }
}

// Fills an entry of the space of one table.
fn fill_one(slot: &mut Slot, mem: &mut PhysMem, entry: Entry)
    requires tidy { Tidy slot.old.space mem.old }
    requires entry { CanFill slot.old.space.part.blocks entry }
    ensures key { slot.new.key ≡ slot.old.key }
    ensures entries { slot.new.space.entries ≡ filled slot.old.space.most slot.old.space.entries entry }
    ensures keeps { KeepsSpace slot.old.space mem.old slot.new.space mem.new }
    ensures tidy { Tidy slot.new.space mem.new }
{
    slot.space.fill(mem, entry);
}

/// Drops the entries that a fence names from all spaces.
pub fn fence(slots: &mut [Slot], mem: &mut PhysMem, fence: &Fence)
    requires { TidyPool (pool_of slots.old) mem.old }
    ensures spaces { spaces_in slots.new ≡ fenced fence.now (spaces_in slots.old) }
    ensures root { front_root slots.new ≡ front_root slots.old }
    ensures keeps { KeepsPool (pool_of slots.old) mem.old (pool_of slots.new) mem.new }
    ensures folded { FoldedPool (pool_of slots.new) mem.new }
{
    for i in 0..slots.len() {
        fence_one(&mut slots[i], mem, fence);
    }
}

// Drops the entries that a fence names from the space of one table.
#[tactic(auto, using(crate::proofs::Fencing::unnamed))]
fn fence_one(slot: &mut Slot, mem: &mut PhysMem, fence: &Fence)
    requires { Tidy slot.old.space mem.old }
    ensures key { slot.new.key ≡ slot.old.key }
    ensures space { space_of slot.new ≡ option_map (fenced_space fence.now) (space_of slot.old) }
    ensures keeps { KeepsSpace slot.old.space mem.old slot.new.space mem.new }
    ensures tidy { Tidy slot.new.space mem.new }
{
    let Some(key) = slot.key else { return };
    if !names_vmid(fence.vmid, key.vmid()) {
        return;
    }
    match fence.page {
        None => slot.space.wipe(mem),
        Some(page) => slot.space.cut(mem, page),
    }
}

/// Folds the leaves of all tables anew, for a part with other blocks.
pub fn move_to(slots: &mut [Slot], mem: &mut PhysMem, part: &Part)
    requires tidy { TidyPool (pool_of slots.old) mem.old }
    requires part { IsMovedPart (part_of slots.old) part.now }
    ensures moved { IsMovedPool part.now (pool_of slots.old) (pool_of slots.new) }
    ensures only { Only (pool_frames (pool_of slots.old)) mem.old mem.new }
    ensures folded { FoldedPool (pool_of slots.new) mem.new }
{
    part.names_each_once();
    for i in 0..slots.len() {
        move_one(&mut slots[i], mem, part);
    }
}

// Folds the leaves of one table anew, for a part with other blocks.
fn move_one(slot: &mut Slot, mem: &mut PhysMem, part: &Part)
    requires tidy { Tidy slot.old.space mem.old }
    requires part { IsMovedPart slot.old.space.part part.now }
    ensures slot { slot.new ≡ slot_in_part part.now slot.old }
    ensures only { Only (own_frames slot.old.space) mem.old mem.new }
    ensures tidy { Tidy slot.new.space mem.new }
{
    slot.space.moved(mem, part);
}

// Whether a fence names a VMID.
fn names_vmid(named: Option<u64>, vmid: u64) -> bool
    ensures { result ≡ names_vmid named vmid }
{
    match named {
        None => true,
        Some(named) => named == vmid,
    }
}
