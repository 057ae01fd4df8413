// A list of cached translations, and the tables in which it stands.

ghost use Rattle.std.specs.Prelude.{◌≡◌, ◌+◌, ◌-◌, ◌*◌, ◌%◌, ◌<◌, ◌≤◌, ◌^◌, [], ◌∷◌, ◌++◌, drop, filter, length, not, remove, slice_index_or};
ghost use Rattle.arch_defs.specs.CachedEntries.{CanFill, filled};
ghost use Rattle.arch_defs.specs.Frames.{Only};
ghost use Rattle.arch_defs.specs.Spaces.{names_page};
ghost use Rattle.shadow_space.specs.Held.{CanPut, Holds, KeepsTable};
ghost use Rattle.shadow_space.specs.Leaves.{leaf_word};
ghost use Rattle.shadow_space.specs.Trees.{frames_of, top};
ghost use Rattle.shadow_space.specs.Ways.{CanFollow, UnderWay};
ghost use Rattle.table_words.specs.Words.{changed, with_word};

use crate::frames::TableFrames;
use crate::levels::{LEVELS, ROOT_LEVEL, slot_of};
use crate::listing::{EntryList, names_page};
use crate::writing::{Tables, enter_table, leaf_word, leave_table};
use arch_defs::{Entry, Part};
use phys_mem::PhysMem;
use stage_walk::pte_of;
use table_words::{doubleword_at, set_word};

/// Entries, at most that many, with leaves in the blocks of a part, and the frames of their tables.
#[derive(Drop)]
pub struct CachedTable {
    pub part: Part,
    pub most: usize,
    pub entries: EntryList,
    pub frames: TableFrames,
}

impl CachedTable {
    // The frames of a page's tables, by level, from the root down.
    fn way_to(&self, mem: &PhysMem, tables: &Tables, page: u64) -> [u64; LEVELS]
        requires { CanFollow tables.now self.now page 0 (top + 1) [] mem.now }
        ensures { UnderWay tables.now self.now page 0 0 result mem.now }
    {
        let mut way = [tables.root; LEVELS];
        let mut level = ROOT_LEVEL;
        while level > 0 {
            let pointer = doubleword_at(mem, 512 * way[level] + slot_of(level, page));
            level -= 1;
            way[level] = pte_of(pointer).frame;
        }
        way
    }

    // One more entry in each of a page's tables, which are made where they are not. Tells their frames.
    fn enter_tables(&mut self, mem: &mut PhysMem, tables: &Tables, page: u64) -> [u64; LEVELS]
        requires { CanFollow tables.now self.old page top (top + 1) [] mem.old }
        ensures rest { self.new ≡ record self.old { frames = self.new.frames } }
        ensures stands { UnderWay tables.now self.new page 0 0 result mem.new }
        ensures only { Only (frames_of tables.now) mem.old mem.new }
        ensures changed { changed mem.old mem.new ≤ top }
    {
        let mut way = [tables.root; LEVELS];
        let mut level = ROOT_LEVEL;
        while level > 0 {
            let slot = 512 * way[level] + slot_of(level, page);
            level -= 1;
            way[level] = enter_table(&mut self.frames, mem, tables.first, slot);
        }
        way
    }

    // One entry less in each of a page's tables, which are in these frames.
    fn leave_tables(&mut self, mem: &mut PhysMem, tables: &Tables, page: u64, way: &[u64; LEVELS])
        requires { CanFollow tables.now self.old page 0 0 way.now mem.old }
        ensures rest { self.new ≡ record self.old { frames = self.new.frames } }
        ensures stands { UnderWay tables.now self.new page top top way.now mem.new }
        ensures only { Only (frames_of tables.now) mem.old mem.new }
        ensures changed { changed mem.old mem.new ≤ top }
    {
        for level in 0..ROOT_LEVEL {
            let slot = 512 * way[level + 1] + slot_of(level + 1, page);
            leave_table(&mut self.frames, mem, tables.first, slot, way[level]);
        }
    }

    // Takes entry i out.
    fn take_out(&mut self, mem: &mut PhysMem, tables: &Tables, i: usize)
        requires holds { Holds tables.now self.old mem.old }
        requires index { i < length self.old.entries }
        ensures entries { self.new.entries ≡ remove self.old.entries i }
        ensures keeps { KeepsTable tables.now self.old mem.old self.new mem.new }
        ensures holds { Holds tables.now self.new mem.new }
        ensures changed { changed mem.old mem.new ≤ top + 1 }
    {
        let page = self.entries.at(i).page;
        let low = tables.first + self.frames.place(i);
        self.frames.drop_place(i, self.entries.len());
        self.entries.remove(i);
        clear_leaf(mem, low, page);
        let way = self.way_to(mem, tables, page);
        self.leave_tables(mem, tables, page, &way);
    }

    // Takes the oldest entry out.
    fn drop_oldest(&mut self, mem: &mut PhysMem, tables: &Tables)
        requires holds { Holds tables.now self.old mem.old }
        requires some { 0 < length self.old.entries }
        ensures entries { self.new.entries ≡ drop 1 self.old.entries }
        ensures keeps { KeepsTable tables.now self.old mem.old self.new mem.new }
        ensures holds { Holds tables.now self.new mem.new }
        ensures changed { changed mem.old mem.new ≤ top + 1 }
    {
        self.take_out(mem, tables, 0);
    }

    // Puts an entry behind the others, of which none has its page.
    fn put(&mut self, mem: &mut PhysMem, tables: &Tables, entry: Entry)
        requires { CanPut tables.now self.old mem.old entry }
        ensures entries { self.new.entries ≡ self.old.entries ++ entry ∷ [] }
        ensures keeps { KeepsTable tables.now self.old mem.old self.new mem.new }
        ensures holds { Holds tables.now self.new mem.new }
        ensures changed { changed mem.old mem.new ≤ top + 1 }
    {
        let leaf = leaf_word(&self.part, &entry);
        let way = self.enter_tables(mem, tables, entry.page);
        set_word(mem, 512 * way[0] + slot_of(0, entry.page), leaf);
        self.frames
            .set_place(self.entries.len(), way[0] - tables.first);
        self.entries.push(entry);
    }

    /// Fills an entry: as the newest, in place of an entry of the same page, or else, where there are as many
    /// as there may be, of the oldest.
    pub fn fill(&mut self, mem: &mut PhysMem, tables: &Tables, entry: Entry)
        requires holds { Holds tables.now self.old mem.old }
        requires entry { CanFill self.old.part.blocks entry }
        ensures entries { self.new.entries ≡ filled self.old.most self.old.entries entry }
        ensures keeps { KeepsTable tables.now self.old mem.old self.new mem.new }
        ensures holds { Holds tables.now self.new mem.new }
        ensures changed { changed mem.old mem.new ≤ 2 * (top + 1) }
    {
        match self.entries.place_of(entry.page) {
            Some(i) => {
                self.take_out(mem, tables, i);
                self.put(mem, tables, entry);
            }
            None if self.entries.len() < self.most => self.put(mem, tables, entry),
            None if self.most > 0 => {
                self.drop_oldest(mem, tables);
                self.put(mem, tables, entry);
            }
            None => (),
        }
    }

    /// Drops the entries that a fence names by a page, or all where it names none.
    pub fn drop_named(&mut self, mem: &mut PhysMem, tables: &Tables, page: Option<u64>)
        requires { Holds tables.now self.old mem.old }
        ensures entries { self.new.entries ≡ filter (λ e. not (names_page page e)) self.old.entries }
        ensures keeps { KeepsTable tables.now self.old mem.old self.new mem.new }
        ensures holds { Holds tables.now self.new mem.new }
        ensures changed { changed mem.old mem.new
            ≤ (top + 1) * (length self.old.entries - length self.new.entries) }
    {
        let mut i = self.entries.len();
        while i > 0 {
            i -= 1;
            if !names_page(page, &self.entries.at(i)) {
                continue;
            }
            self.take_out(mem, tables, i);
        }
    }

    /// Writes each entry's leaf anew, for the blocks of another part, which has as many.
    pub fn move_to(&mut self, mem: &mut PhysMem, tables: &Tables, part: &Part)
        requires holds { Holds tables.now self.old mem.old }
        requires number { length part.now.blocks ≡ length self.old.part.blocks }
        ensures table { self.new ≡ record self.old { part = part.now } }
        ensures holds { Holds tables.now self.new mem.new }
        ensures only { Only (frames_of tables.now) mem.old mem.new }
    {
        for i in 0..self.entries.len() {
            let entry = self.entries.at(i);
            let low = tables.first + self.frames.place(i);
            write_leaf(mem, part, &entry, low);
        }
        self.part = *part;
    }
}

// Clears the leaf of a page in the lowest table of a frame.
fn clear_leaf(mem: &mut PhysMem, frame: u64, page: u64)
    requires inside { 8 * (512 * frame + page % 512) + 8 ≤ length mem.old }
    requires small { frame < 2 ^ 44 }
    ensures memory { mem.new ≡ with_word mem.old (512 * frame + page % 512) 0 }
    ensures changed { changed mem.old mem.new ≤ 1 }
{
    set_word(mem, 512 * frame + page % 512, 0);
}

// Writes the leaf of an entry, for the blocks of a part, in the lowest table of a frame.
fn write_leaf(mem: &mut PhysMem, part: &Part, entry: &Entry, frame: u64)
    requires entry { CanFill part.now.blocks entry.now }
    requires inside { 8 * (512 * frame + entry.now.page % 512) + 8 ≤ length mem.old }
    requires small { frame < 2 ^ 44 }
    ensures memory { mem.new
        ≡ with_word mem.old (512 * frame + entry.now.page % 512) (leaf_word part.now.blocks entry.now) }
    ensures word { leaf_word part.now.blocks entry.now < 2 ^ 64 }
{
    set_word(mem, 512 * frame + entry.page % 512, leaf_word(part, entry));
}
