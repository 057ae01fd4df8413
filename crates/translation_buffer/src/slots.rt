// Kept translations, by the kind of access.

ghost use Rattle.std.specs.Prelude.{◌≡◌, ◌≢◌, ℕ, ◌+◌, ◌%◌, ◌/◌, ◌<◌, ◌^◌, ◌==◌, List, length, get_or};
ghost use Rattle.std.specs.List.{All};
ghost use Rattle.arch_defs.specs.declared.modes.Access.{Access};
ghost use Rattle.arch_defs.specs.Bits.{bit};
ghost use Rattle.translation_buffer.specs.declared.frame_sets.FrameSet.{FrameSet};
ghost use Rattle.translation_buffer.specs.Places.{Translator};
ghost use Rattle.translation_buffer.specs.Serving.{AllLackBit, AllLackPage, AllLackPages, AllStand, LacksBit, LacksPage, SlotStands};
ghost use Rattle.translation_buffer.specs.Tags.{AllAtHome, AllUpTo, AreAtHome, AreLeft, IsUpTo};

use arch_defs::Access;

/// A kept translation: the tag of a page, what is added to an address of it to get its place, and the bits of
/// the frames that were read for it. The sum is modulo 2^64. A frame's bit is that of its number modulo 64.
/// Where none is kept, the tag is 0, which no page has.
#[derive(Clone, Copy)]
pub struct Slot {
    pub tag: u64,
    pub delta: u64,
    pub bits: u64,
}

impl Slot {
    /// No translation.
    #[inline]
    pub fn none() -> Slot
        ensures tag { result.tag ≡ 0 }
        ensures bits { result.bits ≡ 0 }
    {
        Slot {
            tag: 0,
            delta: 0,
            bits: 0,
        }
    }

    // Whether it has the bit of a frame.
    #[inline]
    fn has_bit(self, frame: u64) -> bool
        ensures { result ≡ bit (frame % 64) self.bits }
    {
        (self.bits >> (frame % 64)) & 1 == 1
    }

    // Whether it is of a page.
    #[inline]
    fn is_of(self, page: u64) -> bool
        ensures { result ≡ (self.tag % 2 ^ 52 == page) }
    {
        self.tag % 0x10_0000_0000_0000 == page
    }

    /// The place of an address of the page.
    #[inline]
    pub fn place(self, va: u64) -> u64
        ensures { result ≡ (va + self.delta) % 2 ^ 64 }
    {
        va.wrapping_add(self.delta)
    }
}

/// The kept translations of fetches, of loads and of stores, each at the low bits of its page's number. Data
/// lie in more pages than code does, and the page of the last fetch is kept apart.
#[derive(Clone, Copy)]
pub struct Slots {
    pub fetches: [Slot; 8],
    pub loads: [Slot; 32],
    pub stores: [Slot; 16],
}

// No translation at each place.
#[inline]
#[tactic(auto, using(crate::proofs::KeptSlots::all_none, crate::proofs::SlotKinds::alike_up_to, crate::proofs::Homes::alike_at_home))]
fn no_slots<const N: usize>() -> [Slot; N]
    ensures stand { (read : FrameSet) (memory : List ℕ) (under : Translator) (run : ℕ) (kind : Access)
        → All (SlotStands read memory under run kind) result }
    ensures tags { (run : ℕ) → All (IsUpTo run) result }
    ensures homes { AreAtHome result }
{
    [Slot::none(); N]
}

// Drops a translation that has the bit of a frame.
#[inline]
#[tactic(auto, using(crate::proofs::DroppedSlots::dropping))]
fn drop_at(slots: &mut [Slot], at: usize, frame: u64)
    requires inside { at < length slots.old }
    ensures left { AreLeft slots.old slots.new }
    ensures lacks { (other : Slot) → LacksBit frame (get_or slots.new at other) }
    ensures others { (place : ℕ) (other : Slot) → place ≢ at
        → get_or slots.new place other ≡ get_or slots.old place other }
    ensures size { length slots.new ≡ length slots.old }
{
    if slots[at].has_bit(frame) {
        slots[at] = Slot::none();
    }
}

// Drops the translations that have the bit of a frame.
#[inline]
fn drop_each(slots: &mut [Slot], frame: u64)
    ensures left { AreLeft slots.old slots.new }
    ensures lack { All (LacksBit frame) slots.new }
    ensures size { length slots.new ≡ length slots.old }
{
    for at in 0..slots.len() {
        drop_at(slots, at, frame);
    }
}

// Where a page's translation stands among N slots: at the low bits of the page's number.
#[inline]
fn home(page: u64, size: usize) -> usize
    requires some { 0 < size }
    ensures value { result ≡ page % size }
    ensures inside { result < size }
{
    (page % size as u64) as usize
}

// Drops the translation of a page, if there is one.
#[inline]
#[tactic(auto, using(crate::proofs::DroppedSlots::dropping))]
fn drop_at_home(slots: &mut [Slot], page: u64)
    requires some { 0 < length slots.old }
    ensures left { AreLeft slots.old slots.new }
    ensures lack { AreAtHome slots.old → All (LacksPage page) slots.new }
    ensures size { length slots.new ≡ length slots.old }
{
    let at = home(page, slots.len());
    if slots[at].is_of(page) {
        slots[at] = Slot::none();
    }
}

impl Slots {
    /// Where no translation is kept.
    #[tactic(auto, using(crate::proofs::KeptSlots::no_slot_stands))]
    #[inline]
    pub fn none() -> Slots
        ensures stand { (read : FrameSet) (memory : List ℕ) (under : Translator) (run : ℕ)
            → AllStand read memory under run result }
        ensures tags { (run : ℕ) → AllUpTo run result }
        ensures homes { AllAtHome result }
    {
        Slots {
            fetches: no_slots(),
            loads: no_slots(),
            stores: no_slots(),
        }
    }

    /// Drops the translations that have the bit of a frame.
    #[tactic(auto, using(crate::proofs::DroppedSlots::all_kinds))]
    pub fn drop_read(&mut self, frame: u64)
        ensures stand { (read : FrameSet) (memory : List ℕ) (under : Translator) (run : ℕ)
            → AllStand read memory under run self.old → AllStand read memory under run self.new }
        ensures tags { (run : ℕ) → AllUpTo run self.old → AllUpTo run self.new }
        ensures homes { AllAtHome self.old → AllAtHome self.new }
        ensures lack { AllLackBit frame self.new }
    {
        drop_each(&mut self.fetches, frame);
        drop_each(&mut self.loads, frame);
        drop_each(&mut self.stores, frame);
    }

    /// Drops the translations of a page. Each stands at the low bits of the page's number.
    #[inline]
    pub fn drop_page(&mut self, page: u64)
        ensures stand { (read : FrameSet) (memory : List ℕ) (under : Translator) (run : ℕ)
            → AllStand read memory under run self.old → AllStand read memory under run self.new }
        ensures tags { (run : ℕ) → AllUpTo run self.old → AllUpTo run self.new }
        ensures homes { AllAtHome self.old → AllAtHome self.new }
        ensures lack { AllAtHome self.old → AllLackPage page self.new }
        ensures others { (other : ℕ) → AllLackPage other self.old → AllLackPage other self.new }
    {
        drop_at_home(&mut self.fetches, page);
        drop_at_home(&mut self.loads, page);
        drop_at_home(&mut self.stores, page);
    }

    /// Drops the translations of one page, and of another, if there is another.
    pub fn drop_pages(&mut self, page: u64, other: Option<u64>)
        ensures stand { (read : FrameSet) (memory : List ℕ) (under : Translator) (run : ℕ)
            → AllStand read memory under run self.old → AllStand read memory under run self.new }
        ensures tags { (run : ℕ) → AllUpTo run self.old → AllUpTo run self.new }
        ensures homes { AllAtHome self.old → AllAtHome self.new }
        ensures lack { AllAtHome self.old → AllLackPages page other self.new }
    {
        self.drop_page(page);
        match other {
            Some(other) => self.drop_page(other),
            None => {}
        }
    }

    /// The slot of an address for a kind of access.
    #[inline]
    pub fn slot(&self, va: u64, access: Access) -> Slot
        ensures { (read : FrameSet) (memory : List ℕ) (under : Translator) (run : ℕ)
            → AllStand read memory under run self.now → SlotStands read memory under run access result }
    {
        let page = va / 4096;
        match access {
            Access::Fetch => self.fetches[(page % 8) as usize],
            Access::Load => self.loads[(page % 32) as usize],
            Access::Store => self.stores[(page % 16) as usize],
            Access::ExecLoad | Access::Implicit => Slot::none(),
        }
    }

    /// Keeps a slot for an address and a kind of access.
    pub fn keep(&mut self, va: u64, access: Access, slot: Slot)
        ensures stand { (read : FrameSet) (memory : List ℕ) (under : Translator) (run : ℕ)
            → SlotStands read memory under run access slot → AllStand read memory under run self.old
            → AllStand read memory under run self.new }
        ensures tags { (run : ℕ) → IsUpTo run slot → AllUpTo run self.old → AllUpTo run self.new }
        ensures homes { slot.tag % 2 ^ 52 ≡ va / 4096 → AllAtHome self.old → AllAtHome self.new }
    {
        let page = va / 4096;
        match access {
            Access::Fetch => self.fetches[(page % 8) as usize] = slot,
            Access::Load => self.loads[(page % 32) as usize] = slot,
            Access::Store => self.stores[(page % 16) as usize] = slot,
            Access::ExecLoad | Access::Implicit => {}
        }
    }
}
