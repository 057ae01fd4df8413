// Page tables in machine memory, for walks.

ghost use Rattle.arch_defs.specs.Memory.{machine_memory};
ghost use Rattle.arch_defs.specs.SecondStage.{memory_words};

use arch_defs::{LOAD_ACCESS_FAULT, Trap};
use phys_mem::{Mem, PhysMem};
use stage_walk::Fetch;

/// What reads the entries of tables in memory.
#[derive(Clone, Copy)]
pub struct Words<'a> {
    pub mem: &'a PhysMem,
}

impl Fetch for Words<'_> {
    ghost reading = { λ w. memory_words (machine_memory w.mem.now) };

    fn pte_at(&self, place: u64) -> Result<u64, Trap> {
        match self.mem.get(place, 8) {
            Some(word) => Ok(word),
            None => Err(Trap {
                cause: LOAD_ACCESS_FAULT,
                interrupt: false,
                tval: place,
                tval2: 0,
                gva: false,
                implicit: true,
            }),
        }
    }
}
