// The buffer: found, walked and kept, and dropped where a table or a cached first-stage translation changes.

ghost use Rattle.std.specs.Prelude.{◌≡◌, ℕ, ◌+◌, ◌*◌, ◌/◌, ◌%◌, ◌-◌, ◌^◌, ◌<◌, ◌≤◌, ◌⊎◌, Bool, true, false, find, option_map, IfSome, List, Some};
ghost use Rattle.std.specs.List.{list_all};
ghost use Rattle.arch_defs.specs.declared.first.FirstEntry.{FirstEntry};
ghost use Rattle.arch_defs.specs.declared.first.Tag.{Tag};
ghost use Rattle.arch_defs.specs.declared.modes.Access.{Access};
ghost use Rattle.arch_defs.specs.declared.modes.Mode.{Mode};
ghost use Rattle.arch_defs.specs.declared.registers.Csrs.{Csrs};
ghost use Rattle.arch_defs.specs.FirstEntries.{HasGuestFrame, first_filled, is_first_of, known_by, names_first, unnamed_first};
ghost use Rattle.arch_defs.specs.Frames.{Frames, Within};
ghost use Rattle.arch_defs.specs.Memory.{machine_memory};
ghost use Rattle.arch_defs.specs.Translation.{privilege_of};
ghost use Rattle.translation_buffer.specs.declared.frame_sets.FrameSet.{FrameSet};
ghost use Rattle.translation_buffer.specs.Holding.{has_frame, has_recent};
ghost use Rattle.two_stage_walk.specs.Places.{IsPlaceOf};
ghost use Rattle.translation_buffer.specs.Lookups.{LookupIn, lookup_on_hart, lookup_under};
ghost use Rattle.translation_buffer.specs.Places.{Reads, Translator, context_of, passed_by, place_on_hart, spares, translated_place, translator};
ghost use Rattle.translation_buffer.specs.Tags.{AllAtHome, AllUpTo, bit_of, run_bits, who_bits};
ghost use Rattle.translation_buffer.specs.WalkCounts.{one_more_walk};

use crate::contexts::Context;
use crate::frame_sets::FrameSet;
use crate::lookups::Lookup;
use crate::pages::{Page, delta};
use crate::slots::{Slot, Slots};
use arch_defs::{
    Access, Csrs, Fence, FirstBuffer, FirstEntry, HartState, Mode, Privilege, SupervisorRoot, Tag,
};
use phys_mem::PhysMem;
use stage_walk::permits_first;
use two_stage_walk::{leaf_address, privilege_of, second_noted};

// The last number of a run: a tag has the number and one in its upper 9 bits.
const LAST_RUN: u64 = 510;

/// The translations that the hart keeps for the roots and the privilege by which it accesses memory: the
/// slots, and the frames of all that is or was read for them. `who` is what a tag has above the page's
/// number. A restart empties no slot: it begins a run with a number that no slot has. The page of the last
/// fetch was a slot's for fetches, and is forgotten where any of them may be dropped.
#[derive(Clone, Copy)]
pub struct Buffer {
    pub context: Context,
    pub run: u64,
    pub who: u64,
    pub slots: Slots,
    pub page: Page,
    pub read: FrameSet,
    walks: u64,
    ghost few: { run ≤ 510 },
    ghost tags: { AllUpTo run slots },
    ghost homes: { AllAtHome slots },
}

// A bit as a number.
fn bit_of(bit: bool) -> u64
    ensures value { result ≡ bit_of bit }
    ensures small { result ≤ 1 }
{
    if bit { 1 } else { 0 }
}

// For whom an access is made, above the 52 bits of a page's number.
fn who_bits(who: Privilege) -> u64
    ensures value { result ≡ who_bits who }
    ensures fits { result < 2 ^ 55 }
{
    0x10_0000_0000_0000 * (bit_of(who.user) + 2 * bit_of(who.sum) + 4 * bit_of(who.mxr))
}

// The number of a run, above these.
fn run_bits(run: u64) -> u64
    requires { run ≤ 510 }
    ensures value { result ≡ run_bits run }
    ensures fits { result ≤ 2 ^ 64 - 2 ^ 55 }
{
    0x80_0000_0000_0000 * (run + 1)
}

// The guest physical address of a virtual one under the translation of its page, if that permits the access.
#[tactic(auto, using(crate::proofs::PlacesInside::leaf_of_entry_fits))]
fn known_by(who: Privilege, va: u64, access: Access, entry: Option<&FirstEntry>) -> Option<u64>
    requires fits { IfSome entry (λ e. HasGuestFrame e.now) }
    ensures value { result ≡ known_by who va access (option_map (λ e. e.now) entry.entry) }
    ensures offset { IfSome result (λ address. address % 4096 ≡ va % 4096) }
{
    match entry {
        Some(entry) => {
            let leaf = entry.leaf();
            if permits_first(who, access, &leaf) {
                Some(leaf_address(&leaf, va))
            } else {
                None
            }
        }
        None => None,
    }
}

// The same by the cached translation of its page under a table, if that permits the access.
#[inline(never)]
fn known_in(
    first: &FirstBuffer,
    owner: &Tag,
    who: Privilege,
    table: &SupervisorRoot,
    va: u64,
    access: Access,
) -> Option<u64>
    ensures value { result ≡ known_by who va access
        (find (is_first_of owner.now table.now (va / 4096)) first.now) }
    ensures offset { IfSome result (λ address. address % 4096 ≡ va % 4096) }
{
    known_by(who, va, access, first.entry_of(owner, table, va / 4096))
}

/// The guest physical address of an access for which no table of the first stage is walked: in Bare, or by
/// the cached translation of its page, if that permits it. For whom it is made counts under a table alone.
#[inline]
#[tactic(auto, unfolding(arch_defs::specs::FirstEntries::known_under))]
pub fn passed_by(state: &HartState, root: &SupervisorRoot, va: u64, access: Access) -> Option<u64>
    ensures value { result ≡ passed_by state.now.virt.first state.now.tag
        (privilege_of state.now.virt.csrs state.now.virt.mode) root.now va access }
    ensures offset { IfSome result (λ address. address % 4096 ≡ va % 4096) }
{
    match root {
        SupervisorRoot::Bare => Some(va),
        SupervisorRoot::Table { .. } => {
            let virt = &state.virt;
            let who = privilege_of(&virt.csrs, virt.mode);
            known_in(&virt.first, &state.tag, who, root, va, access)
        }
    }
}

// What is made of an access for which no table of the first stage is walked. The frames of all that is read
// are added to a set.
#[inline(always)]
fn lookup_noted(
    memory: &PhysMem,
    context: &Context,
    state: &HartState,
    va: u64,
    access: Access,
    read: &mut FrameSet,
) -> Lookup
    ensures lookup { result
        ≡ lookup_under (translator state.now.virt.first state.now.tag context.now)
        (privilege_of state.now.virt.csrs state.now.virt.mode) memory.now va access }
    ensures inside { LookupIn memory.now va result }
    ensures more { Within (has_frame read.old) (has_frame read.new) }
    ensures noted { (frames : Frames) → Within (has_recent read.new) frames
        → Reads frames (translator state.now.virt.first state.now.tag context.now)
        (privilege_of state.now.virt.csrs state.now.virt.mode) memory.now va access }
{
    memory.is_whole();
    match passed_by(state, &context.first, va, access) {
        Some(address) => {
            let answer = second_noted(memory, context.mxr, context.second, address, access, read);
            Lookup::of(address, answer)
        }
        None => Lookup::NotPassed,
    }
}

// The count of walks after one more.
fn one_more_walk(walks: u64) -> u64
    ensures { result ≡ one_more_walk walks }
{
    walks.saturating_add(1)
}

// The number of a run, and for whom a mode accesses memory as the registers are.
fn bits_of(run: u64, csrs: &Csrs, mode: Mode) -> u64
    requires { run ≤ 510 }
    ensures { result ≡ run_bits run + who_bits (privilege_of csrs.now mode) }
{
    run_bits(run) + who_bits(privilege_of(csrs, mode))
}

// Whether a cached translation is of a page, or not named by a fence of the first stage, made for these
// accesses.
fn spares(entry: &FirstEntry, tag: Tag, fence: &Fence, page: u64) -> bool
    ensures { result ≡ spares (names_first tag fence.now) page entry.now }
{
    entry.page == page || !entry.is_named(tag, fence)
}

// Whether it names translations of a page alone.
fn names_alone(first: &FirstBuffer, tag: Tag, fence: &Fence, page: u64) -> bool
    ensures { result ≡ list_all (spares (names_first tag fence.now) page) first.now }
{
    let entries = first.as_slice();
    entries.iter().all(|entry| spares(entry, tag, fence, page))
}

// The page of a fence of the first stage, made for these accesses, where it names cached translations of this
// page alone. One of a leaf of many pages names those of all that are cached.
fn page_alone(first: &FirstBuffer, tag: Tag, fence: &Fence) -> Option<u64>
    ensures { IfSome result
        (λ page. list_all (spares (names_first tag fence.now) page) first.now ≡ true) }
{
    match fence.page {
        Some(page) => {
            if names_alone(first, tag, fence, page) {
                Some(page)
            } else {
                None
            }
        }
        None => None,
    }
}

impl Buffer {
    ghost use Rattle.translation_buffer.specs.Serving.{AllStand, Serves, ServesHart};

    /// The buffer that keeps nothing, for a mode as the registers are.
    pub fn new(csrs: &Csrs, mode: Mode) -> Buffer
        ensures serves { (first : List FirstEntry) (owner : Tag) (memory : List ℕ)
            → Serves result first owner csrs.now mode memory }
        ensures walks { result.walks ≡ 0 }
    {
        Buffer {
            context: Context::of(csrs, mode),
            run: 0,
            who: bits_of(0, csrs, mode),
            slots: Slots::none(),
            page: Page::none(),
            read: FrameSet::new(),
            walks: 0,
        }
    }

    /// How often a place was looked for among what is kept and was not there.
    pub fn walks(&self) -> u64
        ensures { result ≡ self.now.walks }
    {
        self.walks
    }

    // Empties all slots, and begins with the first run again.
    #[cold]
    #[inline(never)]
    fn clear(&mut self)
        ensures stand { (read : FrameSet) (memory : List ℕ) (under : Translator)
            → AllStand read memory under self.new.run self.new.slots }
        ensures walks { self.new.walks ≡ self.old.walks }
    {
        self.slots = Slots::none();
        self.run = 0;
    }

    // Begins the next run, of which no slot is. Where no number is left, all slots are emptied.
    #[tactic(auto, using(crate::proofs::KeptSlots::next_stands, crate::proofs::PageTags::up_to_more))]
    fn next_run(&mut self)
        ensures stand { (read : FrameSet) (memory : List ℕ) (under : Translator)
            → AllStand read memory under self.new.run self.new.slots }
        ensures walks { self.new.walks ≡ self.old.walks }
    {
        if self.run < LAST_RUN {
            self.run += 1;
        } else {
            self.clear();
        }
    }

    /// Begins a run, for a mode as the registers are. Nothing that was kept is found in it.
    #[inline]
    pub fn restart(&mut self, csrs: &Csrs, mode: Mode)
        ensures serves { (first : List FirstEntry) (owner : Tag) (memory : List ℕ)
            → Serves self.new first owner csrs.now mode memory }
        ensures walks { self.new.walks ≡ self.old.walks }
    {
        self.next_run();
        self.page.forget();
        self.context.set(csrs, mode);
        self.who = bits_of(self.run, csrs, mode);
    }

    /// Goes on for a mode as the registers are: what was kept stays where the roots and sstatus.MXR are the
    /// same.
    pub fn follow(&mut self, csrs: &Csrs, mode: Mode)
        ensures serves { (first : List FirstEntry) (owner : Tag) (before : Csrs) (mode_before : Mode)
            (memory : List ℕ) → Serves self.old first owner before mode_before memory
            → Serves self.new first owner csrs.now mode memory }
        ensures walks { self.new.walks ≡ self.old.walks }
    {
        if self.context.is_context(&Context::of(csrs, mode)) {
            self.who = bits_of(self.run, csrs, mode);
            self.page.forget();
        } else {
            self.restart(csrs, mode);
        }
    }

    // Drops the translations for which a frame may have been read.
    #[inline(never)]
    fn drop_read(&mut self, frame: u64)
        ensures apart { has_frame self.new.read frame ≡ false }
        ensures serves { (first : List FirstEntry) (owner : Tag) (csrs : Csrs) (mode : Mode)
            (memory : List ℕ) → Serves self.old first owner csrs mode memory
            → Serves self.new first owner csrs mode memory }
        ensures walks { self.new.walks ≡ self.old.walks }
    {
        self.slots.drop_read(frame);
        self.page.forget();
        self.read.remove(frame);
    }

    /// Goes before a store at a place: drops the translations for which an entry in its frame may have been
    /// read.
    #[inline]
    pub fn open(&mut self, place: u64)
        ensures apart { has_frame self.new.read (place / 4096) ≡ false }
        ensures serves { (first : List FirstEntry) (owner : Tag) (csrs : Csrs) (mode : Mode)
            (memory : List ℕ) → Serves self.old first owner csrs mode memory
            → Serves self.new first owner csrs mode memory }
        ensures walks { self.new.walks ≡ self.old.walks }
    {
        if self.read.holds(place / 4096) {
            self.drop_read(place / 4096);
        }
    }

    /// Caches a first-stage translation, and drops the translations that were kept for its page, and for the
    /// page of the one that is dropped for room.
    #[inline(never)]
    pub fn fill(&mut self, first: &mut FirstBuffer, entry: FirstEntry)
        requires { HasGuestFrame entry }
        ensures filled { first.new ≡ first_filled first.old entry }
        ensures serves { (owner : Tag) (csrs : Csrs) (mode : Mode) (memory : List ℕ)
            → Serves self.old first.old owner csrs mode memory
            → Serves self.new first.new owner csrs mode memory }
        ensures walks { self.new.walks ≡ self.old.walks }
    {
        let dropped = first.fill(entry);
        self.slots.drop_pages(entry.page, dropped);
        self.page.forget_pages(entry.page, dropped);
    }

    // Drops the translations of a page.
    fn drop_page(&mut self, page: u64)
        ensures serves { (first : List FirstEntry) (owner : Tag) (csrs : Csrs) (mode : Mode)
            (memory : List ℕ) (named : FirstEntry → Bool) → list_all (spares named page) first ≡ true
            → Serves self.old first owner csrs mode memory
            → Serves self.new (unnamed_first named first) owner csrs mode memory }
        ensures walks { self.new.walks ≡ self.old.walks }
    {
        self.slots.drop_page(page);
        self.page.forget_page(page);
    }

    // Drops what is kept by the translations that a fence names, made for these accesses: that of their page,
    // where they are of one alone, and else all.
    fn drop_fenced(&mut self, first: &FirstBuffer, tag: Tag, fence: &Fence, csrs: &Csrs, mode: Mode)
        ensures serves { (owner : Tag) (memory : List ℕ)
            → Serves self.old first.now owner csrs.now mode memory
            → Serves self.new (unnamed_first (names_first tag fence.now) first.now) owner csrs.now mode
            memory }
        ensures walks { self.new.walks ≡ self.old.walks }
    {
        match page_alone(first, tag, fence) {
            Some(page) => self.drop_page(page),
            None => self.restart(csrs, mode),
        }
    }

    /// Drops the cached first-stage translations that a fence names, made for these accesses, and what was
    /// kept by them, for a mode as the registers are.
    pub fn fence(
        &mut self,
        first: &mut FirstBuffer,
        tag: Tag,
        fence: &Fence,
        csrs: &Csrs,
        mode: Mode,
    )
        ensures left { first.new ≡ unnamed_first (names_first tag fence.now) first.old }
        ensures serves { (owner : Tag) (memory : List ℕ)
            → Serves self.old first.old owner csrs.now mode memory
            → Serves self.new first.new owner csrs.now mode memory }
        ensures walks { self.new.walks ≡ self.old.walks }
    {
        self.drop_fenced(first, tag, fence, csrs, mode);
        first.drop_named(tag, fence);
    }

    /// The place of an access by what is kept, if it is.
    #[inline]
    pub fn find(&self, va: u64, access: Access) -> Option<u64>
        ensures { (first : List FirstEntry) (owner : Tag) (csrs : Csrs) (mode : Mode) (memory : List ℕ)
            → Serves self.now first owner csrs mode memory → IfSome result (λ place.
            translated_place (translator first owner (context_of csrs mode)) (privilege_of csrs mode)
            memory va access ≡ Some place) }
    {
        let slot = self.slots.slot(va, access);
        if slot.tag == self.who.wrapping_add(va / 4096) {
            Some(slot.place(va))
        } else {
            None
        }
    }

    /// The place of an access by what is kept, if it is, as the registers and memory are.
    #[inline(always)]
    pub fn kept(&self, memory: &PhysMem, state: &HartState, va: u64, access: Access) -> Option<u64>
        requires serves { ServesHart self.now state.now memory.now }
        ensures place { IfSome result
            (λ place. Some place ≡ place_on_hart state.now memory.now va access) }
        ensures inside { IfSome result (λ place. IsPlaceOf (machine_memory memory.now) va place) }
    {
        memory.is_whole();
        match self.find(va, access) {
            Some(place) => Some(place),
            None => None,
        }
    }

    /// Whether an entry in the frame of a place may have been read for what is kept.
    #[inline(always)]
    pub fn has_read(&self, place: u64) -> bool
        ensures { result ≡ has_frame self.now.read (place / 4096) }
    {
        self.read.holds(place / 4096)
    }

    /// The place of the instruction at an address, by the page of the last fetch, if it is of that page and a
    /// multiple of 4.
    #[inline(always)]
    pub fn here(&self, memory: &PhysMem, state: &HartState, pc: u64) -> Option<u64>
        requires serves { ServesHart self.now state.now memory.now }
        ensures place { IfSome result
            (λ place. Some place ≡ place_on_hart state.now memory.now pc Access.Fetch) }
        ensures inside { IfSome result (λ place. IsPlaceOf (machine_memory memory.now) pc place) }
        ensures aligned { IfSome result (λ place. pc % 4 ≡ 0) }
    {
        memory.is_whole();
        if pc / 4096 * 4096 + pc % 4 == self.page.start {
            Some(pc.wrapping_add(self.page.delta))
        } else {
            None
        }
    }

    /// Makes the page of an address that of the last fetch, if it is kept for fetches.
    pub fn turn(&mut self, va: u64)
        ensures serves { (first : List FirstEntry) (owner : Tag) (csrs : Csrs) (mode : Mode)
            (memory : List ℕ) → Serves self.old first owner csrs mode memory
            → Serves self.new first owner csrs mode memory }
        ensures walks { self.new.walks ≡ self.old.walks }
    {
        let slot = self.slots.slot(va, Access::Fetch);
        if slot.tag == self.who.wrapping_add(va / 4096) {
            self.page = Page::of(va, slot.delta);
        }
    }

    // What is made of an access by the second stage. A place is kept. It is compiled with the walk into each
    // caller, which knows the kind of access.
    #[inline(always)]
    fn walk(&mut self, memory: &PhysMem, state: &HartState, va: u64, access: Access) -> Lookup
        requires serves { ServesHart self.old state.now memory.now }
        ensures lookup { result ≡ lookup_on_hart state.now memory.now va access }
        ensures inside { LookupIn memory.now va result }
        ensures serves { ServesHart self.new state.now memory.now }
        ensures walks { self.new.walks ≡ one_more_walk self.old.walks }
    {
        self.walks = one_more_walk(self.walks);
        self.read.begin();
        let lookup = lookup_noted(memory, &self.context, state, va, access, &mut self.read);
        match lookup.place() {
            Some(place) => {
                memory.is_whole();
                let slot = Slot {
                    tag: self.who.wrapping_add(va / 4096),
                    delta: delta(va, place),
                    bits: self.read.recent(),
                };
                self.slots.keep(va, access, slot);
                lookup
            }
            None => lookup,
        }
    }

    /// What is made of an access for which no table of the first stage is walked, as the registers and memory
    /// are.
    #[inline(always)]
    pub fn look_up(
        &mut self,
        memory: &PhysMem,
        state: &HartState,
        va: u64,
        access: Access,
    ) -> Lookup
        requires serves { ServesHart self.old state.now memory.now }
        ensures lookup { result ≡ lookup_on_hart state.now memory.now va access }
        ensures inside { LookupIn memory.now va result }
        ensures serves { ServesHart self.new state.now memory.now }
        ensures walks { (self.new.walks ≡ self.old.walks)
            ⊎ (self.new.walks ≡ one_more_walk self.old.walks) }
    {
        memory.is_whole();
        match self.find(va, access) {
            Some(place) => Lookup::InMemory(place),
            None => self.walk(memory, state, va, access),
        }
    }
}
