// Machine memory, a guest's part of it, and folded tables in it, as the tests of this crate set them up.

ghost use Rattle.std.specs.Prelude.{◌≡◌, ◌*◌, ◌≤◌, ◌<◌, true, IfOk, IfSome};
ghost use Rattle.arch_defs.specs.Frames.{most_frames};
ghost use Rattle.arch_defs.specs.Layouts.{names_each_once};
ghost use Rattle.arch_defs.specs.Memory.{zeros};
ghost use Rattle.shadow_pool.specs.Slots.{TidyPool};
ghost use Rattle.shadow_space.specs.Shadows.{Tidy};

use arch_defs::{Part, TABLES_PER_ENTRY};
use no_memory::NoMemory;
use phys_mem::PhysMem;
use shadow_pool::Pool;
use shadow_space::Space;
use std::alloc::Global;

/// The given number of frames of zeros.
pub fn memory(alloc: Global, frames: u64) -> Result<PhysMem, NoMemory>
    requires some { 1 ≤ frames }
    requires most { frames ≤ most_frames }
    ensures { IfOk result (λ m. m ≡ zeros (frames * 4096)) }
{
    PhysMem::new(alloc, frames)
}

/// A part with these blocks, spaces and entries, whose tables begin with these frames.
pub fn part(blocks: &[u32], first_root: u32, first_table: u32, spaces: u16, entries: u16) -> Part
    requires { names_each_once (record {
      blocks = blocks.now;
      first_root = first_root;
      first_table = first_table;
      spaces = spaces;
      entries = entries;
    }) ≡ true }
    ensures { result ≡ record {
      blocks = blocks.now;
      first_root = first_root;
      first_table = first_table;
      spaces = spaces;
      entries = entries;
    } }
{
    Part::new(blocks, first_root, first_table, spaces, entries)
}

/// Stores a doubleword where memory has the place.
pub fn put(memory: &mut PhysMem, at: u64, word: u64) {
    if at < memory.size() && at % 8 == 0 {
        memory.store(at, 8, word);
    }
}

/// Memory and a space.
#[derive(Drop)]
pub struct SpaceInMemory {
    pub mem: PhysMem,
    pub space: Space,
}

/// The space of a part in memory of these frames, all zeros, if they hold the part's tables.
pub fn empty_space(
    alloc: Global,
    part: &Part,
    frames: u64,
    entries: u64,
) -> Result<Option<SpaceInMemory>, NoMemory>
    requires some { 1 ≤ frames }
    requires most { frames ≤ most_frames }
    requires own { 0 < part.now.spaces }
    requires few { entries ≤ 256 }
    requires room { entries ≤ part.now.entries }
    ensures tidy { IfOk result (λ made. IfSome made (λ m. Tidy m.space m.mem)) }
    ensures part { IfOk result (λ made. IfSome made (λ m. m.space.part ≡ part.now)) }
{
    let mem = memory(alloc, frames)?;
    let end = part.host_table() + 1 + part.spaces() * (TABLES_PER_ENTRY * part.entries());
    if part.host_root() + 4 * (1 + part.spaces()) > frames || end > frames {
        return Ok(None);
    }
    let space = Space::new(part, 0, entries);
    Ok(Some(SpaceInMemory { mem, space }))
}

/// Memory and a pool.
#[derive(Drop)]
pub struct PoolInMemory {
    pub mem: PhysMem,
    pub pool: Pool,
}

/// The pool of all spaces of a part in memory of these frames, all zeros, if they hold the part's tables.
pub fn empty_pool(
    alloc: Global,
    part: &Part,
    frames: u64,
    entries: u64,
) -> Result<Option<PoolInMemory>, NoMemory>
    requires some { 1 ≤ frames }
    requires most { frames ≤ most_frames }
    requires own { 0 < part.now.spaces }
    requires few { entries ≤ 256 }
    requires room { entries ≤ part.now.entries }
    ensures tidy { IfOk result (λ made. IfSome made (λ m. TidyPool m.pool m.mem)) }
    ensures part { IfOk result (λ made. IfSome made (λ m. m.pool.part ≡ part.now)) }
{
    let mem = memory(alloc, frames)?;
    let spaces = part.spaces();
    let end = part.host_table() + 1 + spaces * (TABLES_PER_ENTRY * part.entries());
    if part.host_root() + 4 * (1 + spaces) > frames || end > frames {
        return Ok(None);
    }
    let pool = Pool::new(alloc, part, spaces, entries)?;
    Ok(Some(PoolInMemory { mem, pool }))
}
