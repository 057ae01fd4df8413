// The free blocks of machine memory.

ghost use Rattle.std.specs.Prelude.{◌≡◌, ℕ, ◌+◌, ◌<◌, ◌≤◌, ◌↔◌, true, false, [], ◌∷◌, length, slice_index, slice_set, IfSome, IsNone};
ghost use Rattle.std.specs.List.{position};
ghost use Rattle.arch_defs.specs.Frames.{within};
ghost use Rattle.guest_turns.specs.Hosted.{count_set, is_set, lowest, with_free};

use std::marker::Model;

/// The most blocks of machine memory.
pub const MACHINE_BLOCKS: usize = 256;

/// Which blocks of machine memory are free, by their numbers.
#[derive(Drop)]
pub struct FreeBlocks {
    free: [bool; MACHINE_BLOCKS],
}

impl Model for FreeBlocks {
    ghost use Rattle.std.specs.Prelude.{◌≡◌, Bool, List, length};

    ghost Value = { List Bool };

    ghost view = { λ f. f.free };

    ghost invariant = { λ f. length f.free ≡ 256 };
}

impl FreeBlocks {
    /// The given number of blocks from a first one on.
    pub fn from(first: u64, count: u64) -> FreeBlocks
        requires { first + count ≤ 256 }
        ensures blocks { (block : ℕ) → is_set result block ≡ within first count block }
        ensures count { count_set result ≡ count }
    {
        let mut free = [false; MACHINE_BLOCKS];
        for i in 0..count {
            free[(first + i) as usize] = true;
        }
        FreeBlocks { free }
    }

    /// There is a flag for each block that memory can have, a rule that the type keeps.
    pub fn has_each_block(&self)
        ensures { length self.now ≡ 256 }
    {
        let _ = &self.free;
    }

    /// How many there are.
    pub fn count(&self) -> u64
        ensures value { result ≡ count_set self.now }
        ensures most { result ≤ 256 }
    {
        self.free.iter().filter(|free| **free).count() as u64
    }

    /// The lowest one, if there is any.
    #[tactic(auto, using(crate::proofs::Flags::lowest_found, crate::proofs::Flags::none_found))]
    pub fn lowest(&self) -> Option<u32>
        ensures some { IfSome result (λ block. (block ≡ lowest self.now)
            × (is_set self.now block ≡ true)) }
        ensures none { IsNone result ↔ (count_set self.now ≡ 0) }
    {
        match first_set(&self.free) {
            Some(block) => Some(block as u32),
            None => None,
        }
    }

    // Takes a block, which is not free then.
    fn take(&mut self, block: u32)
        requires { block < 256 }
        ensures { self.new ≡ slice_set self.old block false }
    {
        self.free[block as usize] = false;
    }

    /// Gives blocks back.
    pub fn give(&mut self, blocks: &[u32])
        requires { (i : ℕ) → i < length blocks.now → slice_index blocks.now i < 256 }
        ensures { self.new ≡ with_free blocks.now self.old }
    {
        for i in 0..blocks.len() {
            self.free[blocks[i] as usize] = true;
        }
    }

    /// Takes a block, and gives one back.
    pub fn exchange(&mut self, taken: u32, given: u32)
        requires taken { taken < 256 }
        requires given { given < 256 }
        ensures { self.new ≡ with_free (given ∷ []) (slice_set self.old taken false) }
    {
        self.take(taken);
        self.give(&[given]);
    }
}

// The place of the first flag that is set.
fn first_set(flags: &[bool]) -> Option<usize>
    ensures { result ≡ position (λ flag. flag) flags.now }
{
    flags.iter().position(|flag| *flag)
}
