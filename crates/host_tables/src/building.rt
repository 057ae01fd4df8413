// The table is written entry by entry.

ghost use Rattle.std.specs.Prelude.{◌≡◌, ◌+◌, ◌*◌, ◌<◌, ◌≤◌, ◌^◌, length};
ghost use Rattle.arch_defs.specs.Frames.{LieIn, Only, within};
ghost use Rattle.arch_defs.specs.Layouts.{host_frames, named_by};
ghost use Rattle.host_tables.specs.HostTable.{HasEntries, IsHostTable, block_leaf_word, host_frame, root_word};

use arch_defs::{BLOCK_FRAMES, FRAME_SIZE, Part};
use phys_mem::{PhysMem, RAM_BASE};
use stage_walk::{leaf_to, pointer_to, pte_word};
use table_words::set_word;

// An entry that maps nothing.
const NO_ENTRY: u64 = 0;

// The root's entry that maps the 1 GiB from the start of RAM on.
const RAM_ENTRY: u64 = 2;

/// Writes the host's table for the RAM of a part, which has that many blocks. Only the frames of this table
/// change.
pub fn build(mem: &mut PhysMem, part: &Part, blocks: u64)
    requires blocks { blocks ≡ length part.now.blocks }
    requires inside { LieIn (named_by part.now) (length mem.old) }
    ensures table { IsHostTable part.now mem.new }
    ensures only { Only (host_frames part.now) mem.old mem.new }
{
    part.names_each_once();
    write_root(mem, part.host_root(), part.host_table());
    write_leaves(mem, part, blocks);
}

/// The machine frame that backs a guest physical address, or none exactly outside RAM.
pub fn frame_of(part: &Part, gpa: u64) -> Option<u64>
    ensures { result ≡ host_frame part.now.blocks gpa }
{
    if gpa >= RAM_BASE && gpa - RAM_BASE < part.ram_size() {
        Some(part.host_place(gpa - RAM_BASE) / FRAME_SIZE)
    } else {
        None
    }
}

// Writes the entries of the root: a pointer to the other table, and nothing else.
fn write_root(mem: &mut PhysMem, root: u64, table: u64)
    requires inside { (root + 4) * 4096 ≤ length mem.old }
    requires small { (root < 2 ^ 32) × (table < 2 ^ 32) }
    ensures entries { HasEntries root 2048 (root_word table) mem.new }
    ensures only { Only (within root 4) mem.old mem.new }
{
    for i in 0..2048u64 {
        set_word(mem, 512 * root + i, root_word(table, i));
    }
}

// Writes a leaf for each block, and nothing behind them.
fn write_leaves(mem: &mut PhysMem, part: &Part, blocks: u64)
    requires blocks { blocks ≡ length part.now.blocks }
    requires inside { (part.now.first_table + 1) * 4096 ≤ length mem.old }
    ensures entries { HasEntries part.now.first_table 512 (block_leaf_word part.now.blocks) mem.new }
    ensures only { Only (within part.now.first_table 1) mem.old mem.new }
{
    let table = part.host_table();
    for i in 0..512u64 {
        set_word(mem, 512 * table + i, block_leaf_word(part, blocks, i));
    }
}

fn root_word(table: u64, i: u64) -> u64
    requires { table < 2 ^ 32 }
    ensures { result ≡ root_word table i }
{
    if i == RAM_ENTRY {
        pte_word(&pointer_to(table))
    } else {
        NO_ENTRY
    }
}

fn block_leaf_word(part: &Part, blocks: u64, i: u64) -> u64
    requires { blocks ≡ length part.now.blocks }
    ensures { result ≡ block_leaf_word part.now.blocks i }
{
    if i < blocks {
        let block = part.blocks()[i as usize] as u64;
        pte_word(&leaf_to(block * BLOCK_FRAMES, true, true, true))
    } else {
        NO_ENTRY
    }
}
