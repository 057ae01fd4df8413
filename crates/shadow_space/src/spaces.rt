// A space.

ghost use Rattle.std.specs.Prelude.{◌≡◌, ℕ, ◌+◌, ◌-◌, ◌*◌, ◌%◌, ◌<◌, ◌≤◌, ◌^◌, [], List, length};
ghost use Rattle.arch_defs.specs.Frames.{LieIn, Only};
ghost use Rattle.arch_defs.specs.Layouts.{NamesEachOnce, space_frames};
ghost use Rattle.arch_defs.specs.CachedEntries.{CanFill, cut_by, device_by_entries, filled};
ghost use Rattle.shadow_space.specs.Folding.{FoldedSpace};
ghost use Rattle.shadow_space.specs.Moves.{IsMovedPart, in_part};
ghost use Rattle.shadow_space.specs.Shadows.{AreZeros, CanHaveSpace, HasSmallNumbers, IsRootFrame, KeepsSpace, Tidy, own_frames, root_of, tables_in};
ghost use Rattle.shadow_space.specs.Trees.{top};
ghost use Rattle.table_words.specs.Words.{changed};

use crate::cached::CachedTable;
use crate::devices::device_by;
use crate::frames::TableFrames;
use crate::listing::EntryList;
use crate::writing::Tables;
use arch_defs::{Access, Entry, Part, TABLES_PER_ENTRY};
use phys_mem::PhysMem;
use std::marker::Model;

/// A guest's space of cached second-stage translations, with a table of the shape Sv48x4 in the frames that
/// its part has for this space. The table gives exactly the entries, at their places in machine memory.
///
/// Each call on memory asks that the space is tidy in it (`Tidy`), and leaves it so. Zeros are tidy for a new
/// space.
#[derive(Drop)]
pub struct Space {
    index: u64,
    table: CachedTable,
}

impl Model for Space {
    ghost use Rattle.shadow_space.specs.Shadows.{IsShadow, Shadow, shadow_of};

    ghost Value = { Shadow };

    ghost view = { λ s. shadow_of s.index s.table };

    ghost invariant = { λ s. IsShadow (shadow_of s.index s.table) };
}

impl Space {
    /// The space of a part with this number, of at most that many entries, without any. It keeps the part.
    pub fn new(part: &Part, i: u64, entries: u64) -> Space
        requires { CanHaveSpace part.now i entries }
        ensures part { result.part ≡ part.now }
        ensures index { result.index ≡ i }
        ensures most { result.most ≡ entries }
        ensures empty { result.entries ≡ [] }
        ensures tidy { (memory : List ℕ) → LieIn (space_frames part.now i) (length memory)
            → AreZeros (space_frames part.now i) memory → Tidy result memory }
    {
        numbers_of(part);
        Space {
            index: i,
            table: CachedTable {
                part: *part,
                most: entries as usize,
                entries: EntryList::new(),
                frames: TableFrames::new((TABLES_PER_ENTRY * entries) as usize),
            },
        }
    }

    /// The frame of the table's root, a multiple of four.
    pub fn root(&self) -> u64
        ensures { IsRootFrame (root_of self.now) result }
    {
        tables_of(&self.table.part, self.index).root
    }

    /// At most how many entries there may be.
    pub fn most(&self) -> u64
        ensures { result ≡ self.now.most }
    {
        self.table.most as u64
    }

    /// The entries, the oldest first.
    pub fn entries(&self) -> &[Entry]
        ensures { result.now ≡ self.now.entries }
    {
        self.table.entries.as_slice()
    }

    /// Whether the entry of an address's page permits an access of this kind, and is of the device page.
    #[tactic(auto, unfolding(arch_defs::specs::CachedEntries::device_by_entries))]
    pub fn is_on_device(&self, mxr: bool, address: u64, kind: Access) -> bool
        ensures { result ≡ device_by_entries self.now.entries mxr address kind }
    {
        match self.table.entries.entry_at(address / 4096) {
            None => false,
            Some(entry) => device_by(mxr, kind, entry),
        }
    }

    /// Adds an entry, as the newest. An entry of the same page is dropped, and else, where there are as many
    /// as there may be, the oldest one.
    pub fn fill(&mut self, mem: &mut PhysMem, entry: Entry)
        requires tidy { Tidy self.old mem.old }
        requires entry { CanFill self.old.part.blocks entry }
        ensures entries { self.new.entries ≡ filled self.old.most self.old.entries entry }
        ensures keeps { KeepsSpace self.old mem.old self.new mem.new }
        ensures folded { FoldedSpace self.new mem.new }
        ensures changed { changed mem.old mem.new ≤ 2 * (top + 1) }
    {
        let tables = tables_of(&self.table.part, self.index);
        self.table.fill(mem, &tables, entry);
    }

    /// Drops the entries whose leaf's span holds a guest physical page.
    pub fn cut(&mut self, mem: &mut PhysMem, page: u64)
        requires tidy { Tidy self.old mem.old }
        ensures entries { self.new.entries ≡ cut_by page self.old.entries }
        ensures keeps { KeepsSpace self.old mem.old self.new mem.new }
        ensures folded { FoldedSpace self.new mem.new }
        ensures changed { changed mem.old mem.new
            ≤ (top + 1) * (length self.old.entries - length self.new.entries) }
    {
        let tables = tables_of(&self.table.part, self.index);
        self.table.drop_named(mem, &tables, Some(page));
    }

    /// Drops all entries.
    pub fn wipe(&mut self, mem: &mut PhysMem)
        requires tidy { Tidy self.old mem.old }
        ensures entries { self.new.entries ≡ [] }
        ensures keeps { KeepsSpace self.old mem.old self.new mem.new }
        ensures folded { FoldedSpace self.new mem.new }
        ensures changed { changed mem.old mem.new
            ≤ (top + 1) * (length self.old.entries - length self.new.entries) }
    {
        let tables = tables_of(&self.table.part, self.index);
        self.table.drop_named(mem, &tables, None);
    }

    /// Takes over a part that differs from the kept one in the numbers of its blocks alone, of which it has
    /// as many, and folds each leaf anew for it. The list stays.
    pub fn moved(&mut self, mem: &mut PhysMem, part: &Part)
        requires tidy { Tidy self.old mem.old }
        requires part { IsMovedPart self.old.part part.now }
        ensures space { self.new ≡ in_part part.now self.old }
        ensures only { Only (own_frames self.old) mem.old mem.new }
        ensures folded { FoldedSpace self.new mem.new }
    {
        numbers_of(part);
        let tables = tables_of(&self.table.part, self.index);
        self.table.move_to(mem, &tables, part);
    }
}

// What the type of a part keeps.
fn numbers_of(part: &Part)
    ensures once { NamesEachOnce part.now }
    ensures small { HasSmallNumbers part.now }
{
    part.names_each_once();
    part.blocks();
    part.host_root();
    part.host_table();
    part.spaces();
    part.entries();
}

// The frames that a part has for the tables of a space.
#[tactic(auto, using(crate::proofs::Tidying::few_frames))]
fn tables_of(part: &Part, index: u64) -> Tables
    requires { index < 2 ^ 16 }
    ensures value { result ≡ tables_in part.now index }
    ensures aligned { result.root % 4 ≡ 0 }
    ensures small { result.root + 4 < 2 ^ 44 }
{
    let count = TABLES_PER_ENTRY * part.entries();
    Tables {
        root: part.host_root() + 4 * (1 + index),
        first: part.host_table() + 1 + index * count,
        count,
    }
}
