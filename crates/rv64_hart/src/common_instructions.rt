// Common instructions, whose data are kept: registers, jumps and branches, loads and stores.

ghost use Rattle.std.specs.Prelude.{◌≡◌, ℕ, List, true};
ghost use Rattle.arch_defs.specs.Registers.{next, sets};
ghost use Rattle.op_defs.specs.Meaning.{branch, jump, meaning};
ghost use Rattle.machine_defs.specs.declared.events.Event.TheVariants.{Plain};
ghost use Rattle.machine_defs.specs.Core.{event_of};
ghost use Rattle.translation_buffer.specs.Serving.{ServesHart};
ghost use Rattle.rv64_hart.specs.Endings.{IfMade, KeepsContext, Unless, attempt_of_effect, attempt_of_word};
ghost use Rattle.rv64_hart.specs.Steps.{Makes};

use crate::accesses::{load_kept, store_kept};
use arch_defs::{HartState, Reg, Virtual};
use int_ops::{double_alu, word_alu};
use op_defs::Op;
use op_effects::{address_at, even, is_branch_taken};
use phys_mem::PhysMem;
use rv64_decode::decode_common;
use translation_buffer::Buffer;

/// The instruction of a word whose own access at pc has found nothing, if it is a common one, raises no trap,
/// and its data are kept.
#[inline(always)]
#[tactic(auto, using(crate::proofs::FirstFound::common_plain))]
pub(crate) fn common(
    state: &mut HartState,
    memory: &mut PhysMem,
    buffer: &Buffer,
    word: u32,
) -> bool
    requires serves { ServesHart buffer.now state.old memory.old }
    ensures made { IfMade result (attempt_of_word state.old memory.old word
        ≡ Makes state.new memory.new (Plain state.old.virt.regs.pc word)) }
    ensures stays { Unless result ((state.new ≡ state.old) × (memory.new ≡ memory.old)) }
    ensures serves { ServesHart buffer.now state.new memory.new }
    ensures context { KeepsContext state.old.virt state.new.virt }
{
    match decode_common(word) {
        Some(op) => made(state, memory, buffer, word, &op),
        None => false,
    }
}

// The same by what the word is.
#[inline(always)]
#[tactic(auto, unfolding(op_defs::specs::Meaning::meaning, arch_defs::specs::FirstEntries::all_filled))]
fn made(state: &mut HartState, memory: &mut PhysMem, buffer: &Buffer, word: u32, op: &Op) -> bool
    requires serves { ServesHart buffer.now state.old memory.old }
    ensures made { IfMade result (attempt_of_effect state.old memory.old word
        (meaning op.now state.old.virt.regs)
        ≡ Makes state.new memory.new (event_of state.old.virt.regs.pc word)) }
    ensures stays { Unless result ((state.new ≡ state.old) × (memory.new ≡ memory.old)) }
    ensures serves { ServesHart buffer.now state.new memory.new }
    ensures context { KeepsContext state.old.virt state.new.virt }
{
    match *op {
        Op::Lui { rd, immediate } => sets(&mut state.virt, rd, immediate),
        Op::Auipc { rd, immediate } => {
            let value = state.virt.regs.pc.wrapping_add(immediate);
            sets(&mut state.virt, rd, value)
        }
        Op::AluImmediate {
            op,
            rd,
            rs1,
            immediate,
        } => {
            let value = double_alu(op, state.virt.regs.read(rs1), immediate);
            sets(&mut state.virt, rd, value)
        }
        Op::Alu { op, rd, rs1, rs2 } => {
            let value = double_alu(op, state.virt.regs.read(rs1), state.virt.regs.read(rs2));
            sets(&mut state.virt, rd, value)
        }
        Op::WordImmediate {
            op,
            rd,
            rs1,
            immediate,
        } => {
            let value = word_alu(op, state.virt.regs.read(rs1), immediate);
            sets(&mut state.virt, rd, value)
        }
        Op::Word { op, rd, rs1, rs2 } => {
            let value = word_alu(op, state.virt.regs.read(rs1), state.virt.regs.read(rs2));
            sets(&mut state.virt, rd, value)
        }
        Op::Jal { rd, offset } => {
            let to = state.virt.regs.pc.wrapping_add(offset);
            jump(state, rd, to)
        }
        Op::Jalr { rd, rs1, offset } => {
            let to = even(address_at(&state.virt.regs, rs1, offset));
            jump(state, rd, to)
        }
        Op::Branch {
            test,
            rs1,
            rs2,
            offset,
        } => {
            let taken = is_branch_taken(test, state.virt.regs.read(rs1), state.virt.regs.read(rs2));
            let to = state.virt.regs.pc.wrapping_add(offset);
            branch(state, taken, to)
        }
        Op::Load {
            width,
            signed,
            rd,
            rs1,
            offset,
        } => {
            let address = address_at(&state.virt.regs, rs1, offset);
            load_kept(state, memory, buffer, address, width, signed, rd)
        }
        Op::Store {
            width,
            rs1,
            rs2,
            offset,
        } => {
            let address = address_at(&state.virt.regs, rs1, offset);
            let value = state.virt.regs.read(rs2);
            store_kept(state, memory, buffer, address, width, value)
        }
        _ => false,
    }
}

// A register is set, and pc goes on.
#[inline(always)]
fn sets(state: &mut Virtual, rd: Reg, value: u64) -> bool
    ensures state { state.new ≡ sets state.old rd value }
    ensures made { result ≡ true }
{
    state.set(rd, value);
    true
}

// A jump, which leaves the next pc in rd. One to an address that is not a multiple of 4 is not made.
#[inline(always)]
#[tactic(auto, unfolding(arch_defs::specs::FirstEntries::all_filled))]
fn jump(state: &mut HartState, rd: Reg, to: u64) -> bool
    ensures made { (memory : List ℕ) (word : ℕ) → IfMade result (attempt_of_effect state.old memory word
        (jump rd (next state.old.virt.regs) to)
        ≡ Makes state.new memory (event_of state.old.virt.regs.pc word)) }
    ensures stays { Unless result (state.new ≡ state.old) }
    ensures keeps { KeepsContext state.old.virt state.new.virt }
    ensures first { state.new.virt.first ≡ state.old.virt.first }
    ensures tag { state.new.tag ≡ state.old.tag }
{
    if to % 4 == 0 {
        let next = state.virt.regs.pc.wrapping_add(4);
        state.virt.regs.advance(rd, next, to);
        true
    } else {
        false
    }
}

// A branch. One that is taken to an address that is not a multiple of 4 is not made.
#[inline(always)]
#[tactic(auto, unfolding(arch_defs::specs::FirstEntries::all_filled))]
fn branch(state: &mut HartState, taken: bool, to: u64) -> bool
    ensures made { (memory : List ℕ) (word : ℕ) → IfMade result (attempt_of_effect state.old memory word
        (branch taken (next state.old.virt.regs) to)
        ≡ Makes state.new memory (event_of state.old.virt.regs.pc word)) }
    ensures stays { Unless result (state.new ≡ state.old) }
    ensures keeps { KeepsContext state.old.virt state.new.virt }
    ensures first { state.new.virt.first ≡ state.old.virt.first }
    ensures tag { state.new.tag ≡ state.old.tag }
{
    if !taken {
        state.virt.pass();
        true
    } else if to % 4 == 0 {
        state.virt.regs.advance(Reg::new(0), 0, to);
        true
    } else {
        false
    }
}
