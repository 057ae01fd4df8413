// The blocks of a guest that retires.

ghost use Rattle.std.specs.Prelude.{◌≡◌, length};
ghost use Rattle.arch_defs.specs.Frames.{Only, in_blocks};
ghost use Rattle.arch_defs.specs.Memory.{block_size};
ghost use Rattle.arch_defs.specs.Ram.{SlicesLieIn};
ghost use Rattle.shadow_space.specs.Shadows.{AreZeros};
ghost use Rattle.block_moves.specs.Moves.{without_blocks};
ghost use Rattle.guest_turns.specs.Hosted.{with_free};
ghost use Rattle.guest_turns.specs.Hosting.{IsHosted};

use crate::free_blocks::FreeBlocks;
use block_moves::without_blocks;
use guest_exit::Guest;
use phys_mem::PhysMem;

/// Takes a guest's blocks from it: they are zeros then, and free.
pub fn vacate(guest: &mut Guest, memory: &mut PhysMem, free: &mut FreeBlocks)
    requires { IsHosted guest.old memory.old }
    ensures guest { guest.new ≡ record guest.old { part = without_blocks guest.old.part } }
    ensures free { free.new ≡ with_free guest.old.part.blocks free.old }
    ensures zeros { AreZeros (in_blocks guest.old.part.blocks) memory.new }
    ensures only { Only (in_blocks guest.old.part.blocks) memory.old memory.new }
{
    let part = guest.part;
    zero_blocks(memory, part.blocks());
    free.give(part.blocks());
    guest.part = without_blocks(&part);
}

// Fills blocks with zeros.
fn zero_blocks(memory: &mut PhysMem, blocks: &[u32])
    requires { SlicesLieIn block_size blocks.now (length memory.old) }
    ensures zeros { AreZeros (in_blocks blocks.now) memory.new }
    ensures only { Only (in_blocks blocks.now) memory.old memory.new }
{
    for i in 0..blocks.len() {
        memory.zero_block(blocks[i] as u64);
    }
}
