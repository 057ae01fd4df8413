// Entries: their words, their named parts, and what they say to a walk.

ghost use Rattle.std.specs.Prelude.{⊤, ℕ, ◌≡◌, ◌+◌, ◌<◌, ◌^◌, ◌==◌, ◌&&◌, false, [], ◌∷◌, codes, if◌then◌else◌};
ghost use Rattle.std.specs.Int.RustNames.{bit_and};
ghost use Rattle.arch_defs.specs.declared.walks.Next.TheVariants.{Ends};
ghost use Rattle.arch_defs.specs.TableEntries.{pte_of, pte_word, pointer_to, leaf_to, is_valid, is_leaf, is_aligned, is_marked, needs_dirty, leaf_next, leaf_pte, entry_next};
ghost use Rattle.arch_defs.specs.Walk.{levels, most_levels, read_next};
ghost use Rattle.stage_walk.specs.Ends.{EndFits, PteFits};
ghost use Rattle.stage_walk.specs.Words.{VisitFits, is_pointer, leads_below, visit_next};

use arch_defs::{Access, LeafPte, Pte, Shape, Trap, WalkEnd};
use bitflags::{Flag, Flags, bitflag_items};

/// The bits of an entry that have names (Privileged Architecture 20211203, 4.3.1).
#[derive(Clone, Copy, PartialEq, Eq)]
pub struct EntryBits(u64);

bitflag_items! {
    impl EntryBits: u64 {
        const V = 0x01;
        const R = 0x02;
        const W = 0x04;
        const X = 0x08;
        const U = 0x10;
        const G = 0x20;
        const A = 0x40;
        const D = 0x80;
    }
}

impl Flags for EntryBits {
    type Bits = u64;

    ghost exact = { ⊤ };

    ghost table = { (codes "V", 0x01) ∷ (codes "R", 0x02) ∷ (codes "W", 0x04) ∷ (codes "X", 0x08)
        ∷ (codes "U", 0x10) ∷ (codes "G", 0x20) ∷ (codes "A", 0x40) ∷ (codes "D", 0x80) ∷ [] };

    ghost set_of = { λ bits. bits.0 };

    fn flags<'a>() -> &'a [Flag<EntryBits>] {
        EntryBits::FLAGS
    }

    fn bits(&self) -> u64 {
        self.0
    }

    fn from_bits_retain(bits: u64) -> EntryBits {
        EntryBits(bits)
    }
}

/// An entry in named parts.
#[tactic(auto, using(crate::proofs::Flag::flags), unfolding(arch_defs::specs::TableEntries::pte_of))]
#[inline(always)]
pub fn pte_of(word: u64) -> Pte
    ensures value { result ≡ pte_of word }
    ensures fits { PteFits result }
{
    let bits = EntryBits::from_bits_retain(word);
    Pte {
        v: bits.contains(EntryBits::V),
        r: bits.contains(EntryBits::R),
        w: bits.contains(EntryBits::W),
        x: bits.contains(EntryBits::X),
        u: bits.contains(EntryBits::U),
        a: bits.contains(EntryBits::A),
        d: bits.contains(EntryBits::D),
        reserved: word >> 54,
        frame: (word >> 10) % 0x1000_0000_0000,
    }
}

// The bits of a flag where it is wanted.
#[inline]
fn bits_if(wanted: bool, flag: EntryBits) -> u64
    ensures { result ≡ (if wanted then flag.0 else 0) }
{
    if wanted { flag.bits() } else { 0 }
}

/// The word of an entry in these parts. Bits that have no part, G and RSW, are clear.
#[inline]
#[tactic(auto, unfolding(arch_defs::specs::TableEntries::pte_word))]
pub fn pte_word(entry: &Pte) -> u64
    requires { PteFits entry.now }
    ensures { result ≡ pte_word entry.now }
{
    let flags = bits_if(entry.v, EntryBits::V)
        + bits_if(entry.r, EntryBits::R)
        + bits_if(entry.w, EntryBits::W)
        + bits_if(entry.x, EntryBits::X)
        + bits_if(entry.u, EntryBits::U)
        + bits_if(entry.a, EntryBits::A)
        + bits_if(entry.d, EntryBits::D);
    flags + entry.frame * 0x400 + entry.reserved * 0x40_0000_0000_0000
}

/// A pointer to the table of a frame.
#[inline]
pub fn pointer_to(frame: u64) -> Pte
    requires { frame < 2 ^ 44 }
    ensures value { result ≡ pointer_to frame }
    ensures fits { PteFits result }
{
    Pte {
        v: true,
        r: false,
        w: false,
        x: false,
        u: false,
        a: false,
        d: false,
        reserved: 0,
        frame,
    }
}

/// A leaf of user pages with these rights, in which the walker finds all that it needs.
#[inline]
pub fn leaf_to(frame: u64, r: bool, w: bool, x: bool) -> Pte
    requires { frame < 2 ^ 44 }
    ensures value { result ≡ leaf_to frame r w x }
    ensures fits { PteFits result }
{
    Pte {
        v: true,
        r,
        w,
        x,
        u: true,
        a: true,
        d: w,
        reserved: 0,
        frame,
    }
}

// Whether a frame may be the first of a page of this level: the page's address is a multiple of its size.
#[inline(always)]
#[tactic(auto, using(crate::proofs::Alignment::aligned_alike))]
fn is_aligned(level: u8, frame: u64) -> bool
    requires level { level < most_levels }
    requires frame { frame < 2 ^ 44 }
    ensures { result ≡ is_aligned level frame }
{
    4096 * frame % (1 << (12 + 9 * level as u32)) == 0
}

// Whether a word is that of a valid leaf: V, no reserved bit, R or X, and no W without R (Privileged
// Architecture 20211203, 4.3.2, steps 3 and 4).
#[inline(always)]
#[tactic(auto, using(crate::proofs::Flag::flags), unfolding(arch_defs::specs::TableEntries::pte_of))]
fn is_valid_leaf(word: u64) -> bool
    ensures { result ≡ (is_valid (pte_of word) && is_leaf (pte_of word)) }
{
    let bits = EntryBits::from_bits_retain(word);
    bits.contains(EntryBits::V)
        && word >> 54 == 0
        && (bits.contains(EntryBits::R)
            || (bits.contains(EntryBits::X) && !bits.contains(EntryBits::W)))
}

// Whether a leaf has A, and D for a store. The walker never writes them.
#[inline(always)]
#[tactic(auto, using(crate::proofs::Flag::flags), unfolding(arch_defs::specs::TableEntries::pte_of))]
fn is_marked(access: Access, word: u64) -> bool
    ensures { result ≡ is_marked access (pte_of word) }
{
    let bits = EntryBits::from_bits_retain(word);
    bits.contains(EntryBits::A) && (!matches!(access, Access::Store) || bits.contains(EntryBits::D))
}

// The leaf of a word that is met at a level.
#[inline(always)]
#[tactic(auto, using(crate::proofs::Flag::flags), unfolding(arch_defs::specs::TableEntries::pte_of))]
fn leaf_of(level: u8, word: u64) -> LeafPte
    ensures { result ≡ leaf_pte level (pte_of word) }
{
    let bits = EntryBits::from_bits_retain(word);
    LeafPte {
        frame: frame_of(word),
        level,
        r: bits.contains(EntryBits::R),
        w: bits.contains(EntryBits::W) && bits.contains(EntryBits::D),
        x: bits.contains(EntryBits::X),
        u: bits.contains(EntryBits::U),
    }
}

// How the walk ends at a leaf.
#[inline(always)]
fn leaf_end(level: u8, access: Access, word: u64) -> WalkEnd
    requires level { level < most_levels }
    ensures value { Ends result ≡ leaf_next level access (pte_of word) }
    ensures fits { EndFits (level + 1) result }
{
    if !is_aligned(level, frame_of(word)) || !is_marked(access, word) {
        return WalkEnd::PageFault;
    }
    let leaf = leaf_of(level, word);
    WalkEnd::Leaf(leaf.frame, leaf.level, leaf.r, leaf.w, leaf.x, leaf.u)
}

// How the walk ends at an entry that leads to no table below.
#[inline(always)]
#[tactic(auto, unfolding(arch_defs::specs::TableEntries::entry_next))]
fn entry_end(level: u8, access: Access, word: u64) -> WalkEnd
    requires level { level < most_levels }
    requires last { leads_below level (pte_of word) ≡ false }
    ensures value { Ends result ≡ entry_next level access (pte_of word) }
    ensures fits { EndFits (level + 1) result }
{
    if is_valid_leaf(word) {
        leaf_end(level, access, word)
    } else {
        WalkEnd::PageFault
    }
}

// The bits of an entry of which a pointer has V alone: D and A, U, X, W, R and V, and the reserved bits 63 to
// 54 (Privileged Architecture 20211203, 4.3.1 and 4.4.1).
const POINTER_MASK: u64 = 0xFFC0_0000_0000_00DF;

// Whether a word is that of a pointer to a table.
#[inline(always)]
#[tactic(auto, using(crate::proofs::Pointers::pointer_word))]
fn is_pointer(word: u64) -> bool
    ensures { result ≡ is_pointer (pte_of word) }
{
    word & POINTER_MASK == EntryBits::V.0
}

// The frame that an entry names.
#[inline(always)]
#[tactic(auto, unfolding(arch_defs::specs::TableEntries::pte_of))]
fn frame_of(word: u64) -> u64
    ensures value { result ≡ (pte_of word).frame }
    ensures small { result < 2 ^ 44 }
{
    (word >> 10) % 0x1000_0000_0000
}

/// What a walk finds at the place of an entry.
#[derive(Clone, Copy)]
pub enum Visit {
    /// A pointer to the table of this frame, one level below.
    Below(u64),
    /// The word of the entry at which the walk ends.
    Last(u64),
    /// No entry, for this trap.
    Unread(Trap),
}

/// What a walk finds at a level where this was read.
#[inline(always)]
pub fn visit_of(level: u8, place: u64, access: Access, entry: Result<u64, Trap>) -> Visit
    requires { level < most_levels }
    ensures next { visit_next access level place result ≡ read_next level place access entry }
    ensures fits { VisitFits level result }
{
    match entry {
        Ok(word) => word_visit(level, access, word),
        Err(trap) => Visit::Unread(trap),
    }
}

// The same of a word.
#[inline(always)]
#[tactic(auto, unfolding(arch_defs::specs::TableEntries::entry_next))]
fn word_visit(level: u8, access: Access, word: u64) -> Visit
    requires { level < most_levels }
    ensures next { (place : ℕ) → visit_next access level place result
        ≡ entry_next level access (pte_of word) }
    ensures fits { VisitFits level result }
{
    if level > 0 && is_pointer(word) {
        Visit::Below(frame_of(word))
    } else {
        Visit::Last(word)
    }
}

/// How the walk ends at its last entry.
#[inline(always)]
#[tactic(auto, using(arch_defs::proofs::Shapes::few_levels, crate::proofs::Fitting::end_fits))]
pub fn last_end(shape: Shape, level: u8, access: Access, word: u64) -> WalkEnd
    requires level { level < levels shape }
    requires last { leads_below level (pte_of word) ≡ false }
    ensures value { Ends result ≡ entry_next level access (pte_of word) }
    ensures fits { EndFits (levels shape) result }
{
    entry_end(level, access, word)
}
