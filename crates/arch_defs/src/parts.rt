// The frames of machine memory that a guest has.

ghost use Rattle.std.specs.Prelude.{◌≡◌, ℕ, ◌+◌, ◌-◌, ◌*◌, ◌%◌, ◌<◌, ◌≤◌, ◌^◌, length, take, drop, replicate, slice_index, ◌↔◌, IsTrue};
ghost use Rattle.arch_defs.specs.Frames.{LieIn, in_blocks, within};
ghost use Rattle.arch_defs.specs.Layouts.{Layout, NamesEachOnce, named_by};
ghost use Rattle.arch_defs.specs.Memory.{block_size};
ghost use Rattle.arch_defs.specs.Ram.{host_place};

use guest_settings::{MOST_BLOCKS, TABLES_PER_ENTRY};
use std::marker::Model;

/// The bytes of a frame.
pub const FRAME_SIZE: u64 = 4096;

/// The frames of a block.
pub const BLOCK_FRAMES: u64 = 512;

/// The bytes of a block.
pub const BLOCK_SIZE: u64 = 2_097_152;

/// The most frames of machine memory (own: 512 MiB).
pub const MOST_FRAMES: u64 = 131_072;

/// Where a guest's RAM begins.
pub const RAM_BASE: u64 = 0x8000_0000;

/// The frames of machine memory that a guest has: its blocks, in the order in which its RAM goes through
/// them; its roots, of four frames each, the host table's first and then one for each space; and its other
/// table frames, one of the host table's first and then those of each space. It names no frame twice.
#[derive(Clone, Copy)]
pub struct Part {
    // Those from `count` on are zero.
    slots: [u32; MOST_BLOCKS],
    count: usize,
    first_root: u32,
    first_table: u32,
    spaces: u16,
    entries: u16,
}

impl Model for Part {
    ghost use Rattle.std.specs.Prelude.{◌≡◌, ℕ, ◌-◌, ◌≤◌, ◌++◌, length, take, drop, replicate};
    ghost use Rattle.arch_defs.specs.Layouts.{Layout, NamesEachOnce};
    ghost use Rattle.std.proofs.Common.{ap, sym, ◌∙◌};
    ghost use Rattle.std.proofs.lemmas.List.{length-take-le, take-append-drop};

    ghost Value = { Layout };

    ghost view = { λ p. record {
      blocks = take p.count p.slots;
      first_root = p.first_root;
      first_table = p.first_table;
      spaces = p.spaces;
      entries = p.entries;
    } };

    ghost invariant = { λ p. (p.count ≤ length p.slots) × (drop p.count p.slots ≡ replicate (32 - p.count) 0)
        × NamesEachOnce (record {
          blocks = take p.count p.slots;
          first_root = p.first_root;
          first_table = p.first_table;
          spaces = p.spaces;
          entries = p.entries;
        }) };

    ghost inverse = { λ v. record {
      slots = v.blocks ++ replicate (32 - length v.blocks) 0;
      count = length v.blocks;
      first_root = v.first_root;
      first_table = v.first_table;
      spaces = v.spaces;
      entries = v.entries;
    } };

    ghost inverse_ok = { λ p h i. record {
      slots = (ap (λ n. take p.count p.slots ++ replicate (32 - n) 0) (length-take-le p.count p.slots h.0)
          ∙ ap (λ zeros. take p.count p.slots ++ zeros) (sym h.1) ∙ take-append-drop p.count p.slots) i;
      count = length-take-le p.count p.slots h.0 i;
      first_root = p.first_root;
      first_table = p.first_table;
      spaces = p.spaces;
      entries = p.entries;
    } };
}

impl Part {
    /// The part with these blocks, and with roots and tables from these frames on.
    pub fn new(blocks: &[u32], first_root: u32, first_table: u32, spaces: u16, entries: u16) -> Part
        requires { NamesEachOnce (record {
          blocks = blocks.now;
          first_root = first_root;
          first_table = first_table;
          spaces = spaces;
          entries = entries;
        }) }
        ensures { result ≡ record {
          blocks = blocks.now;
          first_root = first_root;
          first_table = first_table;
          spaces = spaces;
          entries = entries;
        } }
    {
        Part {
            slots: slots_of(blocks),
            count: blocks.len(),
            first_root,
            first_table,
            spaces,
            entries,
        }
    }

    /// The numbers of its blocks. Block n is the bytes of machine memory from n times 2,097,152 on.
    pub fn blocks(&self) -> &[u32]
        ensures value { result.now ≡ self.now.blocks }
        ensures few { length result.now ≤ 32 }
        ensures small { (i : ℕ) → slice_index result.now i < 2 ^ 32 }
    {
        let blocks = &self.slots[..self.count];
        small(blocks);
        blocks
    }

    /// No frame is named twice, a rule that the type keeps.
    pub fn names_each_once(&self)
        ensures { NamesEachOnce self.now }
    {
        let _ = &self.count;
    }

    /// The first frame of the host table's root, a multiple of four.
    pub fn host_root(&self) -> u64
        ensures value { result ≡ self.now.first_root }
        ensures small { result < 2 ^ 32 }
        ensures aligned { result % 4 ≡ 0 }
    {
        self.first_root as u64
    }

    /// The frame of the host table's other table.
    pub fn host_table(&self) -> u64
        ensures value { result ≡ self.now.first_table }
        ensures small { result < 2 ^ 32 }
    {
        self.first_table as u64
    }

    /// How many cached spaces its guest has.
    pub fn spaces(&self) -> u64
        ensures value { result ≡ self.now.spaces }
        ensures small { result < 2 ^ 16 }
    {
        self.spaces as u64
    }

    /// At most how many entries each space has.
    pub fn entries(&self) -> u64
        ensures value { result ≡ self.now.entries }
        ensures small { result < 2 ^ 16 }
    {
        self.entries as u64
    }

    /// The bytes of its RAM.
    pub fn ram_size(&self) -> u64
        ensures value { result ≡ length self.now.blocks * block_size }
        ensures most { result ≤ 32 * block_size }
    {
        self.count as u64 * BLOCK_SIZE
    }

    /// Whether all of its frames lie in memory of that many bytes.
    pub fn lies_in(&self, size: u64) -> bool
        ensures { IsTrue result ↔ LieIn (named_by self.now) size }
    {
        if !blocks_lie_in(self.blocks(), size) {
            return false;
        }
        if !range_lies_in(self.host_root(), 4 * (1 + self.spaces()), size) {
            return false;
        }
        let tables = 1 + self.spaces() * (TABLES_PER_ENTRY * self.entries());
        range_lies_in(self.host_table(), tables, size)
    }

    /// The place in machine memory of an offset into its RAM.
    pub fn host_place(&self, offset: u64) -> u64
        requires { offset < length self.now.blocks * block_size }
        ensures value { result ≡ host_place self.now.blocks offset }
        ensures small { result < 2 ^ 53 }
    {
        self.slots[(offset / BLOCK_SIZE) as usize] as u64 * BLOCK_SIZE + offset % BLOCK_SIZE
    }
}

// The numbers of blocks in their slots, and zeros in the others.
fn slots_of(blocks: &[u32]) -> [u32; MOST_BLOCKS]
    requires { length blocks.now ≤ 32 }
    ensures first { take (length blocks.now) result ≡ blocks.now }
    ensures others { drop (length blocks.now) result ≡ replicate (32 - length blocks.now) 0 }
{
    let mut slots = [0; MOST_BLOCKS];
    slots[..blocks.len()].copy_from_slice(blocks);
    slots
}

// Whether all of these blocks lie in memory of that many bytes.
fn blocks_lie_in(blocks: &[u32], size: u64) -> bool
    ensures { IsTrue result ↔ LieIn (in_blocks blocks.now) size }
{
    blocks
        .iter()
        .all(|block| (*block as u64 + 1) * BLOCK_SIZE <= size)
}

// Whether that many frames from a first one on do.
fn range_lies_in(first: u64, count: u64, size: u64) -> bool
    requires some { 0 < count }
    requires small { first + count < 2 ^ 40 }
    ensures { IsTrue result ↔ LieIn (within first count) size }
{
    (first + count) * FRAME_SIZE <= size
}

// Each of them is below 2^32.
fn small(blocks: &[u32])
    ensures { (i : ℕ) → slice_index blocks.now i < 2 ^ 32 }
{}
