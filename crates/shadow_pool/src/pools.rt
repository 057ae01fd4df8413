// A pool of spaces.

ghost use Rattle.std.specs.Prelude.{◌≡◌, ◌<◌, ◌≤◌, ◌%◌, ◌^◌, ℕ, List, [], length, slice_index_or, IfOk};
ghost use Rattle.arch_defs.specs.declared.cached.Entry.{Entry};
ghost use Rattle.arch_defs.specs.CachedEntries.{device_by_entries};
ghost use Rattle.arch_defs.specs.Frames.{LieIn, Only};
ghost use Rattle.arch_defs.specs.Spaces.{entered, fenced, front};
ghost use Rattle.guest_settings.specs.Limits.{most_entries};
ghost use Rattle.shadow_space.specs.Moves.{IsMovedPart};
ghost use Rattle.shadow_space.specs.Shadows.{AreZeros, CanHaveSpace, IsRootFrame};
ghost use Rattle.shadow_pool.specs.Moves.{IsMovedPool};
ghost use Rattle.shadow_pool.specs.Slots.{AreSpare, CanFillFor, CanHaveSpaces, FoldedPool, HasSpaceFor, IsSpare, KeepsPool, TidyPool, filled_for, front_root, pool_frames, room_of, space_at, spaces_of};

use crate::slots::{
    Slot, enter, entries_at, entry_in, fence, fill, front_entries, is_on_device, key_at, move_to,
    used,
};
use arch_defs::{Access, Entry, Fence, Key, Part};
use no_memory::NoMemory;
use phys_mem::PhysMem;
use shadow_space::Space;
use std::alloc::Global;
use std::marker::Model;

/// A guest's spaces of cached second-stage translations, each for a whole value of hgatp and with a folded
/// table of its own.
///
/// Each call on memory asks that the pool is tidy in it (`TidyPool`), and leaves it so. Zeros are tidy for a
/// new pool.
#[derive(Drop)]
pub struct Pool {
    // Those in use come first, the most recently entered one before all others.
    slots: Vec<Slot>,
}

impl Model for Pool {
    ghost use Rattle.shadow_pool.specs.Slots.{ArePooled, Pooled, pool_of};

    ghost Value = { Pooled };

    ghost view = { λ p. pool_of p.slots.items };

    ghost invariant = { λ p. ArePooled p.slots.items };
}

impl Pool {
    /// A pool of at most that many spaces, of at most that many entries each, in the frames that a part has
    /// for them. There are none yet. It may answer out of memory.
    pub fn new(alloc: Global, part: &Part, spaces: u64, entries: u64) -> Result<Pool, NoMemory>
        requires { CanHaveSpaces part.now spaces entries }
        ensures part { IfOk result (λ pool. pool.part ≡ part.now) }
        ensures most { IfOk result (λ pool. pool.most ≡ entries) }
        ensures room { IfOk result (λ pool. room_of pool ≡ spaces) }
        ensures empty { IfOk result (λ pool. spaces_of pool ≡ []) }
        ensures tidy { IfOk result (λ pool. (memory : List ℕ) → LieIn (pool_frames pool) (length memory)
            → AreZeros (pool_frames pool) memory → TidyPool pool memory) }
    {
        part.names_each_once();
        let slots = spare_slots(alloc, part, spaces, entries)?;
        Ok(Pool { slots })
    }

    /// Enters a value of hgatp, and answers the frame of the root of its space's table: the space with this
    /// whole value comes to the front. If there is none, an empty one is put there, and where there are as
    /// many as there may be, the last one is dropped.
    pub fn enter(&mut self, mem: &mut PhysMem, key: Key) -> u64
        requires tidy { TidyPool self.old mem.old }
        ensures spaces { spaces_of self.new ≡ entered (room_of self.old) key (spaces_of self.old) }
        ensures held { HasSpaceFor key (spaces_of self.new) }
        ensures root { IsRootFrame (front_root self.new.slots) result }
        ensures keeps { KeepsPool self.old mem.old self.new mem.new }
        ensures folded { FoldedPool self.new mem.new }
    {
        enter(self.slots.as_mut_slice(), mem, key);
        self.root()
    }

    /// The frame of the root of the front space's table, a multiple of four.
    pub fn root(&self) -> u64
        ensures { IsRootFrame (front_root self.now.slots) result }
    {
        let front = &self.slots[0];
        front.space.root()
    }

    /// The entries of the front space, the oldest first.
    pub fn front_entries(&self) -> &[Entry]
        ensures { result.now ≡ front (spaces_of self.now) }
    {
        front_entries(self.slots.as_slice())
    }

    /// Whether the entry of the front space for an address's page permits an access of this kind, and is of
    /// the device page.
    pub fn is_on_device(&self, mxr: bool, address: u64, kind: Access) -> bool
        ensures { result ≡ device_by_entries (front (spaces_of self.now)) mxr address kind }
    {
        is_on_device(self.slots.as_slice(), mxr, address, kind)
    }

    /// Fills an entry of the space for a value of hgatp, which has one: an entry of the same page is dropped,
    /// and else, where there are as many as there may be, the oldest one.
    pub fn fill(&mut self, mem: &mut PhysMem, key: Key, entry: Entry)
        requires tidy { TidyPool self.old mem.old }
        requires entry { CanFillFor key self.old entry }
        ensures spaces { spaces_of self.new ≡ filled_for key self.old.most (spaces_of self.old) entry }
        ensures root { front_root self.new.slots ≡ front_root self.old.slots }
        ensures keeps { KeepsPool self.old mem.old self.new mem.new }
        ensures folded { FoldedPool self.new mem.new }
    {
        fill(self.slots.as_mut_slice(), mem, key, entry);
    }

    /// Makes a fence: in each space whose VMID it names, or in every one where it names none, the entries are
    /// dropped whose leaf's span holds the page that it names, or all where it names none.
    pub fn fence(&mut self, mem: &mut PhysMem, named: Fence)
        requires tidy { TidyPool self.old mem.old }
        ensures spaces { spaces_of self.new ≡ fenced named (spaces_of self.old) }
        ensures root { front_root self.new.slots ≡ front_root self.old.slots }
        ensures keeps { KeepsPool self.old mem.old self.new mem.new }
        ensures folded { FoldedPool self.new mem.new }
    {
        fence(self.slots.as_mut_slice(), mem, &named);
    }

    /// How many spaces there may be.
    pub fn room(&self) -> u64
        ensures { result ≡ room_of self.now }
    {
        self.slots.len() as u64
    }

    /// How many entries each of them may have.
    pub fn most(&self) -> u64
        ensures { result ≡ self.now.most }
    {
        let front = &self.slots[0];
        front.space.most()
    }

    /// How many spaces there are.
    pub fn held(&self) -> u64
        ensures { result ≡ length (spaces_of self.now) }
    {
        used(self.slots.as_slice()) as u64
    }

    /// The value of hgatp that a space is for. Space 0 is the front one, and those after it come in the order
    /// in which they were last entered, the latest first.
    pub fn key(&self, i: u64) -> Key
        requires { i < length (spaces_of self.now) }
        ensures { result ≡ (space_at (spaces_of self.now) i).key }
    {
        key_at(self.slots.as_slice(), i as usize)
    }

    /// How many entries a space has.
    pub fn len(&self, i: u64) -> u64
        requires { i < length (spaces_of self.now) }
        ensures { result ≡ length (space_at (spaces_of self.now) i).entries }
    {
        entries_at(self.slots.as_slice(), i as usize).len() as u64
    }

    /// An entry of a space, entry 0 being the oldest.
    pub fn entry(&self, i: u64, j: u64) -> Entry
        requires space { i < length (spaces_of self.now) }
        requires entry { j < length (space_at (spaces_of self.now) i).entries }
        ensures { (d : Entry) → result ≡ slice_index_or (space_at (spaces_of self.now) i).entries j d }
    {
        let entries = entries_at(self.slots.as_slice(), i as usize);
        entry_in(entries, j as usize)
    }

    /// Takes over a part that differs from the kept one in the numbers of its blocks alone, of which it has
    /// as many, and folds each leaf of all spaces anew for it. The lists stay.
    pub fn moved(&mut self, mem: &mut PhysMem, part: &Part)
        requires tidy { TidyPool self.old mem.old }
        requires part { IsMovedPart self.old.part part.now }
        ensures moved { IsMovedPool part.now self.old self.new }
        ensures only { Only (pool_frames self.old) mem.old mem.new }
        ensures folded { FoldedPool self.new mem.new }
    {
        move_to(self.slots.as_mut_slice(), mem, part);
    }
}

// The first tables of a part, for spaces that there are not yet.
fn spare_slots(alloc: Global, part: &Part, spaces: u64, entries: u64) -> Result<Vec<Slot>, NoMemory>
    requires own { spaces ≤ part.now.spaces }
    requires few { entries ≤ most_entries }
    requires room { entries ≤ part.now.entries }
    ensures { IfOk result (λ slots. AreSpare part.now entries spaces slots.items) }
{
    let mut slots = Vec::with_capacity(alloc, spaces as usize)?;
    for i in 0..spaces {
        slots.push(spare_slot(alloc, part, i, entries)?)?;
    }
    Ok(slots)
}

// The table of a part with this number, for a space that there is not yet.
fn spare_slot(alloc: Global, part: &Part, i: u64, entries: u64) -> Result<Slot, NoMemory>
    requires { CanHaveSpace part.now i entries }
    ensures { IfOk result (λ slot. IsSpare part.now entries i slot) }
{
    let space = Box::new(alloc, Space::new(part, i, entries))?;
    Ok(Slot { key: None, space })
}
