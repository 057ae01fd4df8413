// The access to data that the instruction at pc wants.

ghost use Rattle.std.specs.Prelude.{◌≡◌};
ghost use Rattle.op_defs.specs.Table.{op_of};
ghost use Rattle.instruction_laws.specs.MissedPlaces.{wanted_by, wanted_of};
ghost use Rattle.rv64_hart.specs.MachineMemory.{wanted_next};

use crate::accesses::word_at;
use crate::walked_accesses::{MemoryAccess, reach};
use arch_defs::{Access, HartState, Trap, Virtual, Width};
use data_access::DataAccess;
use op_defs::Effect;
use op_effects::effect_of;
use phys_mem::PhysMem;
use rv64_decode::decode;

// The access to data that an effect is.
fn wanted_by(effect: Effect) -> Option<DataAccess>
    ensures { result ≡ wanted_by effect }
{
    match effect {
        Effect::Data(wanted) => Some(wanted),
        Effect::Sets { .. } | Effect::Raises { .. } | Effect::Calls | Effect::Privileged(_) => None,
    }
}

/// The access to data that a word wants, if it is an instruction.
pub fn wanted_of(virt: &Virtual, word: u32) -> Option<DataAccess>
    ensures { result ≡ wanted_of virt.now (op_of word) }
{
    match decode(word) {
        Some(op) => wanted_by(effect_of(&op, &virt.regs)),
        None => None,
    }
}

/// The access to data that the word at pc wants, whether or not that has a place, by the hart's own fetch as
/// memory is, in this state. None where the fetch has no place, and where the word is not an instruction with
/// such an access; that of HLV, HLVX and HSV is the host's.
#[tactic(auto, using(crate::proofs::Places::wanted_found, crate::proofs::Places::wanted_none))]
pub fn wanted_at(state: &HartState, memory: &PhysMem) -> Option<DataAccess>
    ensures { result ≡ wanted_next state.now memory.now }
{
    let pc = state.virt.regs.pc;
    let access = MemoryAccess {
        va: pc,
        width: Width::Word,
        kind: Access::Fetch,
    };
    let (mut trap, mut entry) = (Trap::of_interrupt(0), None);
    match reach(state, memory, access, &mut trap, &mut entry) {
        Some(place) => wanted_of(&state.virt, word_at(memory, place)),
        None => None,
    }
}
