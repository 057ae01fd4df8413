// Lists of cached translations, of a fixed size.

ghost use Rattle.std.specs.Prelude.{◌≡◌, ◌≢◌, ◌≤◌, ◌<◌, [], ◌∷◌, ◌++◌, length, option_map, remove, slice_index_or, IfNone, IfSome};
ghost use Rattle.std.specs.List.{All};
ghost use Rattle.arch_defs.specs.declared.cached.Entry.{Entry};
ghost use Rattle.arch_defs.specs.CachedEntries.{HasLevel, entry_at, holds};
ghost use Rattle.arch_defs.specs.Spaces.{names_page};
ghost use Rattle.arch_defs.specs.Walk.{most_level};
ghost use Rattle.arch_defs.specs.TableEntries.{span};
ghost use Rattle.guest_settings.specs.Limits.{most_entries};

use arch_defs::Entry;
use guest_settings::MOST_ENTRIES;
use std::marker::Model;

// What stands in a slot without an entry.
const NO_ENTRY: Entry = Entry {
    page: 0,
    frame: 0,
    r: false,
    w: false,
    x: false,
    level: 0,
};

/// At most `MOST_ENTRIES` entries, which contracts see as their list.
#[derive(Drop)]
pub struct EntryList {
    slots: [Entry; MOST_ENTRIES],
    count: usize,
}

impl Model for EntryList {
    ghost use Rattle.std.specs.Prelude.{◌≤◌, List, take};
    ghost use Rattle.arch_defs.specs.declared.cached.Entry.{Entry};
    ghost use Rattle.guest_settings.specs.Limits.{most_entries};

    ghost Value = { List Entry };

    ghost view = { λ l. take l.count l.slots };

    ghost invariant = { λ l. l.count ≤ most_entries };
}

impl EntryList {
    /// No entry.
    pub fn new() -> EntryList
        ensures { result ≡ [] }
    {
        EntryList {
            slots: [NO_ENTRY; MOST_ENTRIES],
            count: 0,
        }
    }

    /// How many there are.
    pub fn len(&self) -> usize
        ensures value { result ≡ length self.now }
        ensures few { result ≤ most_entries }
    {
        self.as_slice().len()
    }

    /// Entry i.
    pub fn at(&self, i: usize) -> Entry
        requires { i < length self.now }
        ensures { result ≡ slice_index_or self.now i result }
    {
        self.as_slice()[i]
    }

    /// The place of the entry of a page, if there is one.
    pub fn place_of(&self, page: u64) -> Option<usize>
        ensures found { IfSome result (λ i. (i < length self.now)
            × ((d : Entry) → (slice_index_or self.now i d).page ≡ page)) }
        ensures absent { IfNone result (All (λ e. e.page ≢ page) self.now) }
    {
        let entries = self.as_slice();
        for i in 0..entries.len() {
            if entries[i].page == page {
                return Some(i);
            }
        }
        None
    }

    /// The entry of a page, if there is one.
    pub fn entry_at(&self, page: u64) -> Option<&Entry>
        ensures { option_map (λ e. e.now) result ≡ entry_at page self.now }
    {
        self.as_slice().iter().find(|entry| entry.page == page)
    }

    /// The entries.
    pub fn as_slice(&self) -> &[Entry]
        ensures value { result.now ≡ self.now }
        ensures few { length result.now ≤ most_entries }
    {
        &self.slots[..self.count]
    }

    /// One more entry, behind the others.
    pub fn push(&mut self, entry: Entry)
        requires { length self.old < most_entries }
        ensures { self.new ≡ self.old ++ entry ∷ [] }
    {
        self.slots[self.count] = entry;
        self.count += 1;
    }

    /// Takes entry i out; those behind it move up.
    pub fn remove(&mut self, i: usize)
        requires { i < length self.old }
        ensures { self.new ≡ remove self.old i }
    {
        self.slots.copy_within(i + 1..self.count, i);
        self.count -= 1;
    }
}

// The pages that a leaf of this level maps.
fn span(level: u8) -> u64
    requires { level ≤ most_level }
    ensures value { result ≡ span level }
    ensures some { 0 < result }
{
    match level {
        0 => 1,
        1 => 512,
        2 => 262_144,
        _ => 134_217_728,
    }
}

/// Whether a fence names an entry by a page: any, where it names none.
pub fn names_page(page: Option<u64>, entry: &Entry) -> bool
    requires { HasLevel entry.now }
    ensures { result ≡ names_page page entry.now }
{
    match page {
        None => true,
        Some(page) => holds(entry, page),
    }
}

// Whether the span of an entry's leaf holds a page.
fn holds(entry: &Entry, page: u64) -> bool
    requires { HasLevel entry.now }
    ensures { result ≡ holds page entry.now }
{
    let span = span(entry.level);
    entry.page / span == page / span
}
