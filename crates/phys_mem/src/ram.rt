// One guest's RAM in machine memory.

ghost use Rattle.std.specs.Prelude.{◌≡◌, ◌+◌, ◌*◌, ◌%◌, ◌<◌, ◌≤◌, length, IfSome, IfNone};
ghost use Rattle.byteorder.specs.Endian.{little_bytes};
ghost use Rattle.arch_defs.specs.Frames.{LieIn, Only, in_blocks};
ghost use Rattle.arch_defs.specs.Memory.{ram_base, block_size, load, pasted, ram_memory};
ghost use Rattle.arch_defs.specs.Ram.{ram_of};
ghost use Rattle.phys_mem.specs.MemoryBytes.{IsWhole, IsWidth};

use crate::accesses::Mem;
use crate::memory::PhysMem;
use arch_defs::{Part, RAM_BASE};

/// The RAM of the guest that has this part of machine memory, as its own addresses show it.
#[derive(Drop)]
pub struct Ram<'a> {
    mem: &'a mut PhysMem,
    part: &'a Part,
}

impl<'a> Ram<'a> {
    /// The view of the blocks of a part, which lie in memory.
    pub fn new(mem: &'a mut PhysMem, part: &'a Part) -> Ram<'a>
        requires { LieIn (in_blocks part.now.blocks) (length mem.old) }
        ensures same_memory { result.mem.ghost_name ≡ mem.entry.ghost_name }
        ensures memory { result.mem.now ≡ mem.old }
        ensures part { result.part.now ≡ part.entry.now }
    {
        Ram { mem, part }
    }

    // The offset into RAM of a place, where RAM has it.
    fn offset(&self, at: u64) -> Option<u64>
        ensures inside { IfSome result (λ offset. (at ≡ ram_base + offset)
            × (offset < length self.now.part.now.blocks * block_size)) }
        ensures outside { IfNone result (ram_base ≤ at
            → ram_base + length self.now.part.now.blocks * block_size ≤ at) }
    {
        if at >= RAM_BASE && at - RAM_BASE < self.part.ram_size() {
            Some(at - RAM_BASE)
        } else {
            None
        }
    }
}

impl Mem for Ram<'_> {
    ghost memory = { λ ram. ram_memory (ram_of ram.part.now.blocks ram.mem.now) };

    ghost is_backed = { λ ram. LieIn (in_blocks ram.part.now.blocks) (length ram.mem.now) };

    ghost keeps = { λ old new. (new.mem.ghost_name ≡ old.mem.ghost_name) × (new.part.now ≡ old.part.now)
        × Only (in_blocks old.part.now.blocks) old.mem.now new.mem.now };

    #[tactic(auto, using(crate::proofs::Views::aligned_offset, crate::proofs::Views::ram_whole))]
    fn get(&self, at: u64, width: u8) -> Option<u64> {
        match self.offset(at) {
            Some(offset) => Some(read(self.mem, self.part, offset, width)),
            None => None,
        }
    }

    #[tactic(auto, using(crate::proofs::Views::aligned_offset))]
    fn set(&mut self, at: u64, width: u8, value: u64) -> bool {
        match self.offset(at) {
            Some(offset) => {
                write(self.mem, self.part, offset, width, value);
                true
            }
            None => false,
        }
    }
}

// The number at an offset into RAM.
#[tactic(auto, using(crate::proofs::Views::host_aligned, crate::proofs::Views::number_in_ram))]
fn read(mem: &PhysMem, part: &Part, offset: u64, width: u8) -> u64
    requires width { IsWidth width }
    requires inside { offset < length part.now.blocks * block_size }
    requires aligned { offset % width ≡ 0 }
    requires backed { LieIn (in_blocks part.now.blocks) (length mem.now) }
    ensures { result ≡ load (ram_of part.now.blocks mem.now) offset width }
{
    mem.load(part.host_place(offset), width)
}

// Writes the low bytes of a value to an offset into RAM.
#[tactic(auto, using(crate::proofs::Views::host_aligned))]
fn write(mem: &mut PhysMem, part: &Part, offset: u64, width: u8, value: u64)
    requires width { IsWidth width }
    requires inside { offset < length part.now.blocks * block_size }
    requires aligned { offset % width ≡ 0 }
    requires backed { LieIn (in_blocks part.now.blocks) (length mem.old) }
    ensures ram { ram_of part.now.blocks mem.new
        ≡ pasted (ram_of part.now.blocks mem.old) offset (little_bytes width value) }
    ensures only { Only (in_blocks part.now.blocks) mem.old mem.new }
{
    part.names_each_once();
    mem.store(part.host_place(offset), width, value);
}
