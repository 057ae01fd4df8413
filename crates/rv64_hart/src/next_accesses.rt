// The accesses of the instruction at pc, without making it.

ghost use Rattle.std.specs.Prelude.{◌≡◌, option_and_then};
ghost use Rattle.op_defs.specs.Table.{op_of};
ghost use Rattle.instruction_laws.specs.MissedPlaces.{wanted_of};
ghost use Rattle.rv64_hart.specs.MachineMemory.{mmu_on, wanted_next};
ghost use Rattle.rv64_hart.specs.NextAccesses.{access_on, placed_access, word_on};

use crate::accesses::{memory_access_of, word_at};
use crate::walked_accesses::{MemoryAccess, reach};
use crate::wanted_accesses::wanted_of;
use arch_defs::{Access, HartState, Trap, Virtual, Width};
use data_access::DataAccess;
use phys_mem::PhysMem;

/// The word at pc, by the hart's own fetch as memory is, in this state. None where the fetch has no place.
#[tactic(auto, using(crate::proofs::NextAccesses::word_found, crate::proofs::NextAccesses::word_none))]
pub fn word_at_pc(state: &HartState, memory: &PhysMem) -> Option<u32>
    ensures { result ≡ word_on state.now memory.now }
{
    let pc = state.virt.regs.pc;
    let access = MemoryAccess {
        va: pc,
        width: Width::Word,
        kind: Access::Fetch,
    };
    let (mut trap, mut entry) = (Trap::of_interrupt(0), None);
    match reach(state, memory, access, &mut trap, &mut entry) {
        Some(place) => Some(word_at(memory, place)),
        None => None,
    }
}

// The access to data that a word wants, if there is one.
fn wanted_by_word(virt: &Virtual, word: Option<u32>) -> Option<DataAccess>
    ensures { result ≡ option_and_then (λ w. wanted_of virt.now (op_of w)) word }
{
    match word {
        Some(word) => wanted_of(virt, word),
        None => None,
    }
}

// Where in memory an access to data of the hart's own mode is made.
#[tactic(auto, using(crate::proofs::NextAccesses::place_found, crate::proofs::NextAccesses::place_none))]
fn placed_access(
    state: &HartState,
    memory: &PhysMem,
    wanted: Option<DataAccess>,
) -> Option<(DataAccess, u64)>
    ensures { result ≡ placed_access (mmu_on state.now memory.now) state.now.virt wanted }
{
    let wanted = wanted?;
    let access = memory_access_of(&wanted);
    let (mut trap, mut entry) = (Trap::of_interrupt(0), None);
    match reach(state, memory, access, &mut trap, &mut entry) {
        Some(place) => Some((wanted, place)),
        None => None,
    }
}

/// The access to data that the instruction at pc makes in the hart's own mode, as memory is, and its place in
/// memory. None where the word at pc is not an instruction with such an access, and where that has no place;
/// that of HLV, HLVX and HSV is the host's.
#[tactic(auto, using(crate::proofs::NextAccesses::wanted_by_word))]
pub fn access_at_pc(state: &HartState, memory: &PhysMem) -> Option<(DataAccess, u64)>
    ensures { result ≡ access_on state.now memory.now }
{
    let wanted = wanted_by_word(&state.virt, word_at_pc(state, memory));
    placed_access(state, memory, wanted)
}
