// A block moves.

ghost use Rattle.std.specs.Prelude.{◌≡◌, ◌+◌, ◌*◌, ◌<◌, ◌≤◌, [], ◌∷◌, length, slice_index};
ghost use Rattle.arch_defs.specs.Frames.{Apart, LieIn, Only, in_blocks, joined};
ghost use Rattle.arch_defs.specs.Layouts.{NamesEachOnce, named_by};
ghost use Rattle.arch_defs.specs.Memory.{block_size};
ghost use Rattle.arch_defs.specs.Ram.{ram_of};
ghost use Rattle.host_tables.specs.Walks.{IsHeld};
ghost use Rattle.shadow_space.specs.Shadows.{AreZeros};
ghost use Rattle.shadow_pool.specs.Moves.{pool_in_part};
ghost use Rattle.shadow_pool.specs.Slots.{TidyPool, spaces_of};
ghost use Rattle.block_moves.specs.Moves.{block_cleared, block_copied, with_block, without_blocks};

use arch_defs::{MOST_BLOCKS, Part};
use host_tables::build;
use phys_mem::PhysMem;
use shadow_pool::Pool;

/// Moves block `i` of a guest's RAM to the block `to` of machine memory, which no frame of the part is in. It
/// copies the bytes, and changes the host table and the folded leaves of the guest's spaces, which name it.
/// The old block is zeros then. Answers the part that the guest has now.
pub fn move_block(mem: &mut PhysMem, part: &Part, pool: &mut Pool, i: usize, to: u32) -> Part
    requires held { IsHeld part.now mem.old }
    requires own { pool.old.part ≡ part.now }
    requires tidy { TidyPool pool.old mem.old }
    requires index { i < length part.now.blocks }
    requires free { Apart (in_blocks (to ∷ [])) (named_by part.now) }
    requires lies { LieIn (in_blocks (to ∷ [])) (length mem.old) }
    ensures part { result ≡ with_block part.now i to }
    ensures held { IsHeld result mem.new }
    ensures ram { ram_of result.blocks mem.new ≡ ram_of part.now.blocks mem.old }
    ensures pool { pool.new ≡ pool_in_part result pool.old }
    ensures spaces { spaces_of pool.new ≡ spaces_of pool.old }
    ensures tidy { TidyPool pool.new mem.new }
    ensures zeros { AreZeros (in_blocks (slice_index part.now.blocks i ∷ [])) mem.new }
    ensures only { Only (joined (named_by part.now) (in_blocks (to ∷ []))) mem.old mem.new }
{
    part.names_each_once();
    let from = part.blocks()[i] as u64;
    let moved = with_block(part, i, to);
    carry(mem, from, to as u64);
    build(mem, &moved, moved.blocks().len() as u64);
    pool.moved(mem, &moved);
    moved
}

// Fills a block with the bytes of another one, and that with zeros.
fn carry(mem: &mut PhysMem, from: u64, to: u64)
    requires from { from * block_size + block_size ≤ length mem.old }
    requires to { to * block_size + block_size ≤ length mem.old }
    ensures { mem.new ≡ block_cleared from (block_copied from to mem.old) }
{
    copy(mem, from, to);
    clear(mem, from);
}

// Fills a block with the bytes of another one.
#[tactic(auto, using(crate::proofs::Copies::copied_size), unfolding(crate::specs::Moves::block_copied))]
fn copy(mem: &mut PhysMem, from: u64, to: u64)
    requires from { from * block_size + block_size ≤ length mem.old }
    requires to { to * block_size + block_size ≤ length mem.old }
    ensures copied { mem.new ≡ block_copied from to mem.old }
    ensures size { length mem.new ≡ length mem.old }
{
    mem.copy_block(from, to);
}

// Fills a block with zeros.
#[tactic(auto, unfolding(crate::specs::Moves::block_cleared))]
fn clear(mem: &mut PhysMem, block: u64)
    requires { block * block_size + block_size ≤ length mem.old }
    ensures { mem.new ≡ block_cleared block mem.old }
{
    mem.zero_block(block);
}

/// The part with its tables alone, without blocks.
pub fn without_blocks(part: &Part) -> Part
    ensures { result ≡ without_blocks part.now }
{
    part.names_each_once();
    with_blocks(part, &[])
}

// The part with another block in the place of block `i`.
fn with_block(part: &Part, i: usize, block: u32) -> Part
    requires index { i < length part.now.blocks }
    requires once { NamesEachOnce (with_block part.now i block) }
    ensures { result ≡ with_block part.now i block }
{
    let blocks = part.blocks();
    let mut slots = [0; MOST_BLOCKS];
    let moved = &mut slots[..blocks.len()];
    moved.copy_from_slice(blocks);
    moved[i] = block;
    with_blocks(part, moved)
}

// The part with other blocks.
fn with_blocks(part: &Part, blocks: &[u32]) -> Part
    requires { NamesEachOnce (record part.now { blocks = blocks.now }) }
    ensures { result ≡ record part.now { blocks = blocks.now } }
{
    Part::new(
        blocks,
        part.host_root() as u32,
        part.host_table() as u32,
        part.spaces() as u16,
        part.entries() as u16,
    )
}
