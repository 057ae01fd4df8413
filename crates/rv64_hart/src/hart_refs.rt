// What the functions inside a run of the hart work on, as one value.

use crate::tallies::Tally;
use arch_defs::{FirstEntry, HartState, Trap};
use phys_mem::PhysMem;
use translation_buffer::Buffer;

/// What a run of the hart changes, and the trap that it tells apart. The functions that are compiled in line
/// take it; those out of line take the references one by one, which then travel in registers.
#[derive(Drop)]
pub struct HartRef<'a> {
    pub state: &'a mut HartState,
    pub memory: &'a mut PhysMem,
    pub buffer: &'a mut Buffer,
    pub tally: &'a mut Tally,
    pub trap: &'a mut Trap,
}

/// The word of an instruction, and the first-stage translation that its own access at pc has found, if any.
#[derive(Clone, Copy)]
pub struct FetchedWord<'a> {
    pub word: u32,
    pub found: Option<&'a FirstEntry>,
}
