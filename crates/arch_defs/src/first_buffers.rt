// The first-stage translations that are cached for one guest.

ghost use Rattle.std.specs.Prelude.{◌≡◌, ◌≢◌, ◌-◌, ◌<◌, ◌≤◌, [], ◌∷◌, ◌++◌, drop, find, length, option_map, slice_index_or, slice_set, take, IfSome, None, Some};
ghost use Rattle.std.specs.List.{All};
ghost use Rattle.arch_defs.specs.FirstBuffers.{IsEmptyFrom, is_named_by, no_entry};
ghost use Rattle.arch_defs.specs.FirstEntries.{HasGuestFrame, dropped_first, first_filled, first_room, is_first_of, names_first, names_first_of_guest, unnamed_first, without_first};

use crate::cached::Fence;
use crate::first::{FirstEntry, Tag};
use crate::roots::SupervisorRoot;
use std::marker::Model;

/// How many are cached at most.
pub const FIRST_ROOM: usize = 32;

// What stands in a slot without a translation.
const NO_ENTRY: FirstEntry = FirstEntry {
    tag: Tag::Flat,
    atp: SupervisorRoot::Bare,
    page: 0,
    frame: 0,
    r: false,
    w: false,
    x: false,
    u: false,
    level: 0,
};

/// At most 32 first-stage translations, oldest first, which contracts see as their list; the frame of each
/// has at most 44 bits. A use of one changes nothing.
#[derive(Clone, Copy)]
pub struct FirstBuffer {
    // Those from `count` on are `NO_ENTRY`.
    slots: [FirstEntry; FIRST_ROOM],
    count: usize,
}

impl Model for FirstBuffer {
    ghost use Rattle.std.specs.Prelude.{◌-◌, ◌≤◌, ◌++◌, List, length, replicate, take};
    ghost use Rattle.std.specs.List.{All};
    ghost use Rattle.arch_defs.specs.declared.first.FirstEntry.{FirstEntry};
    ghost use Rattle.arch_defs.specs.FirstBuffers.{IsEmptyFrom, no_entry};
    ghost use Rattle.arch_defs.specs.FirstEntries.{HasGuestFrame, first_room};
    ghost use Rattle.std.proofs.Common.{ap, sym, ◌∙◌};
    ghost use Rattle.std.proofs.lemmas.List.{length-take-le, take-append-drop};

    ghost Value = { List FirstEntry };

    ghost view = { λ b. take b.count b.slots };

    ghost invariant = { λ b. (b.count ≤ first_room) × (b.count ≤ length b.slots)
        × IsEmptyFrom b.count b.slots × All HasGuestFrame (take b.count b.slots) };

    ghost inverse = { λ v. record {
      slots = v ++ replicate (first_room - length v) no_entry;
      count = length v;
    } };

    ghost inverse_ok = { λ b h i. record {
      slots = (ap (λ n. take b.count b.slots ++ replicate (first_room - n) no_entry)
          (length-take-le b.count b.slots h.1)
          ∙ ap (λ empty. take b.count b.slots ++ empty) (sym h.2) ∙ take-append-drop b.count b.slots) i;
      count = length-take-le b.count b.slots h.1 i;
    } };
}

// What names the translations that are to be dropped.
#[derive(Clone, Copy)]
enum Naming {
    // A translation of the same page, for the same accesses.
    Page(FirstEntry),
    // A fence of the first stage, made for these accesses.
    FirstFence(Tag, Fence),
    // An HFENCE.GVMA.
    GuestFence(Fence),
}

impl Naming {
    // Whether it names this one.
    fn names(&self, entry: &FirstEntry) -> bool
        ensures { result ≡ is_named_by self.now entry.now }
    {
        match self {
            Naming::Page(other) => entry.is_of(&other.tag, &other.atp, other.page),
            Naming::FirstFence(tag, fence) => entry.is_named(*tag, fence),
            Naming::GuestFence(fence) => entry.is_named_of_guest(fence),
        }
    }
}

// The first that is of a page for these accesses.
fn found<'a>(
    entries: &'a [FirstEntry],
    tag: &Tag,
    atp: &SupervisorRoot,
    page: u64,
) -> Option<&'a FirstEntry>
    ensures { option_map (λ e. e.now) result ≡ find (is_first_of tag.now atp.now page) entries.now }
{
    entries.iter().find(|entry| entry.is_of(tag, atp, page))
}

// Copies one to a place before it, or leaves it where it is.
#[inline]
fn move_down(slots: &mut [FirstEntry; FIRST_ROOM], from: usize, to: usize)
    requires order { to ≤ from }
    requires room { from < first_room }
    ensures { slots.new ≡ slice_set slots.old to (slice_index_or slots.old from no_entry) }
{
    if to < from {
        slots[to] = slots[from];
    }
}

// Empties the slots from one on, where those from another on are empty.
fn empty(slots: &mut [FirstEntry; FIRST_ROOM], from: usize, to: usize)
    requires room { to ≤ first_room }
    requires rest { IsEmptyFrom to slots.old }
    ensures size { length slots.new ≡ first_room }
    ensures front { take from slots.new ≡ take from slots.old }
    ensures empty { IsEmptyFrom from slots.new }
{
    let mut first = to;
    while from < first {
        first -= 1;
        slots[first] = NO_ENTRY;
    }
}

// Moves those of the first `count` that are not named to the front, in their order, and tells how many.
fn keep_unnamed(slots: &mut [FirstEntry; FIRST_ROOM], count: usize, named: &Naming) -> usize
    requires room { count ≤ first_room }
    requires rest { IsEmptyFrom count slots.old }
    ensures kept { take result slots.new ≡ unnamed_first (is_named_by named.now) (take count slots.old) }
    ensures few { result ≤ count }
    ensures empty { IsEmptyFrom count slots.new }
{
    let mut kept = 0;
    for i in 0..count {
        if named.names(&slots[i]) {
            continue;
        }
        move_down(slots, i, kept);
        kept += 1;
    }
    kept
}

impl FirstBuffer {
    /// No translation.
    pub fn new() -> FirstBuffer
        ensures { result ≡ [] }
    {
        FirstBuffer {
            slots: [NO_ENTRY; FIRST_ROOM],
            count: 0,
        }
    }

    /// Takes over the translations of another: their number, and then that many.
    pub fn copy_from(&mut self, other: &FirstBuffer)
        ensures { self.new ≡ other.now }
    {
        empty(&mut self.slots, other.count, self.count);
        self.slots[..other.count].copy_from_slice(other.as_slice());
        self.count = other.count;
    }

    /// The translations.
    pub fn as_slice(&self) -> &[FirstEntry]
        ensures value { result.now ≡ self.now }
        ensures few { length result.now ≤ first_room }
    {
        &self.slots[..self.count]
    }

    /// The one of a page for these accesses, and for satp or vsatp as a whole, if there is one.
    #[tactic(auto, using(crate::proofs::FirstFills::seen_fits))]
    pub fn entry_of(&self, tag: &Tag, atp: &SupervisorRoot, page: u64) -> Option<&FirstEntry>
        ensures value { option_map (λ e. e.now) result
            ≡ find (is_first_of tag.now atp.now page) self.now }
        ensures fits { IfSome result (λ e. HasGuestFrame e.now) }
    {
        found(&self.slots[..self.count], tag, atp, page)
    }

    // Drops those that are named.
    fn drop_each(&mut self, named: &Naming)
        ensures { self.new ≡ unnamed_first (is_named_by named.now) self.old }
    {
        let kept = keep_unnamed(&mut self.slots, self.count, named);
        empty(&mut self.slots, kept, self.count);
        self.count = kept;
    }

    // Drops the one of the page of another, for the same accesses. A page is mostly filled where it was not
    // found, so there is none: a look moves nothing.
    #[tactic(auto, using(crate::proofs::FirstFills::none_named))]
    fn drop_same(&mut self, entry: &FirstEntry)
        ensures { self.new ≡ unnamed_first
            (is_first_of entry.now.tag entry.now.atp entry.now.page) self.old }
    {
        let cached = self.entry_of(&entry.tag, &entry.atp, entry.page).is_some();
        if cached {
            self.drop_each(&Naming::Page(*entry));
        }
    }

    // Puts one in behind the others.
    fn push(&mut self, entry: FirstEntry)
        requires fits { HasGuestFrame entry }
        requires room { length self.old < first_room }
        ensures { self.new ≡ self.old ++ entry ∷ [] }
    {
        self.slots[self.count] = entry;
        self.count += 1;
    }

    // Drops the oldest, and tells its page.
    fn drop_oldest(&mut self) -> u64
        requires { 0 < length self.old }
        ensures left { self.new ≡ drop 1 self.old }
        ensures page { All (λ e. result ≡ e.page) (take 1 self.old) }
    {
        let page = self.slots[0].page;
        self.slots.copy_within(1..self.count, 0);
        self.count -= 1;
        self.slots[self.count] = NO_ENTRY;
        page
    }

    /// Puts one in, behind the others: an entry of the same page is taken out, and where there is no room the
    /// oldest is dropped. Tells the page of the one that is dropped for room.
    #[tactic(auto, unfolding(crate::specs::FirstEntries::first_filled, crate::specs::FirstEntries::unnamed_first))]
    pub fn fill(&mut self, entry: FirstEntry) -> Option<u64>
        requires { HasGuestFrame entry }
        ensures filled { self.new ≡ first_filled self.old entry }
        ensures dropped { All (λ e. result ≡ Some e.page) (dropped_first self.old entry) }
        ensures kept { dropped_first self.old entry ≡ [] → result ≡ None }
    {
        self.drop_same(&entry);
        if self.count < FIRST_ROOM {
            self.push(entry);
            return None;
        }
        let page = self.drop_oldest();
        self.push(entry);
        Some(page)
    }

    /// Drops those that a fence of the first stage names, made for these accesses.
    pub fn drop_named(&mut self, tag: Tag, fence: &Fence)
        ensures { self.new ≡ unnamed_first (names_first tag fence.now) self.old }
    {
        self.drop_each(&Naming::FirstFence(tag, *fence));
    }

    /// Drops those that an HFENCE.GVMA names.
    pub fn drop_of_guest(&mut self, fence: &Fence)
        ensures { self.new ≡ unnamed_first (names_first_of_guest fence.now) self.old }
    {
        self.drop_each(&Naming::GuestFence(*fence));
    }
}
