// Runs of plain steps alone, which end before any other step.

ghost use Rattle.std.specs.Prelude.{◌≡◌, ◌<◌, ◌≤◌, None, false};
ghost use Rattle.arch_defs.specs.Interrupts.{due};
ghost use Rattle.op_defs.specs.Table.{is_system};
ghost use Rattle.machine_defs.specs.declared.events.Event.{Event};
ghost use Rattle.machine_defs.specs.declared.events.Event.TheVariants.{Plain};
ghost use Rattle.machine_defs.specs.Core.{accessed_data, kind_of};
ghost use Rattle.translation_buffer.specs.Serving.{ServesHart};
ghost use Rattle.rv64_hart.specs.Counts.{OnlyTrace};
ghost use Rattle.rv64_hart.specs.Endings.{IfMade, IsCommonStretch, IsNext, KeepsContext, LeftByCommon, RunsPlain, Unless, attempt_of_effect, attempt_of_word};
ghost use Rattle.rv64_hart.specs.MachineMemory.{found_over, mmu_on};
ghost use Rattle.rv64_hart.specs.Steps.{Makes, attempt_of, caching_found};

use crate::accesses::access_data;
use crate::endings::{CommonStretch, Ended};
use crate::rare_instructions::is_system;
use crate::steps::{common_instructions, fetched};
use crate::tallies::Tally;
use arch_defs::{HartState, Trap};
use data_access::DataAccess;
use op_defs::Effect;
use op_effects::effect_of;
use phys_mem::PhysMem;
use rv64_decode::decode;
use translation_buffer::Buffer;
use trap_delegation::pending;

/// Makes plain steps up to a number, and answers how many. No plain instruction makes an interrupt due.
#[inline(never)]
#[tactic(auto, using(crate::proofs::Runs::plain_none))]
pub fn plain_steps(
    state: &mut HartState,
    memory: &mut PhysMem,
    buffer: &mut Buffer,
    limit: u64,
    tally: &mut Tally,
) -> u64
    requires serves { ServesHart buffer.old state.old memory.old }
    ensures steps { RunsPlain result state.old memory.old tally.old.trace
        state.new memory.new tally.new.trace }
    ensures within { result ≤ limit }
    ensures tally { OnlyTrace tally.old tally.new }
{
    match pending(&state.virt.csrs, state.virt.mode) {
        Some(_) => 0,
        None => stretches(state, memory, buffer, limit, tally),
    }
}

// The same where no interrupt is due.
#[inline(always)]
#[tactic(auto, using(crate::proofs::Runs::plain_none, crate::proofs::Runs::plain_both))]
fn stretches(
    state: &mut HartState,
    memory: &mut PhysMem,
    buffer: &mut Buffer,
    limit: u64,
    tally: &mut Tally,
) -> u64
    requires serves { ServesHart buffer.old state.old memory.old }
    requires none { due state.old.virt.csrs state.old.virt.mode ≡ None }
    ensures steps { RunsPlain result state.old memory.old tally.old.trace
        state.new memory.new tally.new.trace }
    ensures within { result ≤ limit }
    ensures tally { OnlyTrace tally.old tally.new }
{
    let mut taken = 0;
    while taken < limit {
        let Ok(word) = fetched(state, memory, buffer) else {
            return taken;
        };
        let most = limit - taken;
        let stretch = stretch(state, memory, buffer, word, most, tally);
        taken += stretch.made;
        if stretch.word.is_some() {
            return taken;
        }
    }
    taken
}

// Common instructions from this word on, and the one after them, if that is plain.
#[inline(always)]
fn stretch(
    state: &mut HartState,
    memory: &mut PhysMem,
    buffer: &mut Buffer,
    first: u32,
    most: u64,
    tally: &mut Tally,
) -> CommonStretch
    requires serves { ServesHart buffer.old state.old memory.old }
    requires none { due state.old.virt.csrs state.old.virt.mode ≡ None }
    requires next { IsNext first state.old memory.old }
    requires some { 0 < most }
    ensures run { LeftByCommon result buffer.new tally.old tally.new
        state.old memory.old state.new memory.new }
    ensures made { IsCommonStretch most result.made result.word }
{
    let common = common_instructions(state, memory, buffer, first, most, tally);
    match common.word {
        Some(word) => {
            let pc = state.virt.regs.pc;
            if !plain(state, memory, buffer, word) {
                return common;
            }
            tally.count(pc, word);
            CommonStretch {
                made: common.made + 1,
                word: None,
            }
        }
        None => common,
    }
}

// The instruction of a word whose own access at pc has found nothing, if it is plain and raises no trap.
#[inline(never)]
fn plain(state: &mut HartState, memory: &mut PhysMem, buffer: &mut Buffer, word: u32) -> bool
    requires serves { ServesHart buffer.old state.old memory.old }
    ensures made { IfMade result (attempt_of_word state.old memory.old word
        ≡ Makes state.new memory.new (Plain state.old.virt.regs.pc word)) }
    ensures stays { Unless result ((state.new ≡ state.old) × (memory.new ≡ memory.old)) }
    ensures serves { ServesHart buffer.new state.new memory.new }
    ensures context { KeepsContext state.old.virt state.new.virt }
{
    if is_system(word) {
        return false;
    }
    match decode(word) {
        Some(op) => {
            let effect = effect_of(&op, &state.virt.regs);
            asked(state, memory, buffer, word, effect)
        }
        None => false,
    }
}

// The same by what the instruction asks for.
#[inline(always)]
#[tactic(auto, unfolding(arch_defs::specs::FirstEntries::all_filled))]
fn asked(
    state: &mut HartState,
    memory: &mut PhysMem,
    buffer: &mut Buffer,
    word: u32,
    effect: Effect,
) -> bool
    requires plain { is_system word ≡ false }
    requires serves { ServesHart buffer.old state.old memory.old }
    ensures made { IfMade result (attempt_of_effect state.old memory.old word effect
        ≡ Makes state.new memory.new (Plain state.old.virt.regs.pc word)) }
    ensures stays { Unless result ((state.new ≡ state.old) × (memory.new ≡ memory.old)) }
    ensures serves { ServesHart buffer.new state.new memory.new }
    ensures context { KeepsContext state.old.virt state.new.virt }
{
    match effect {
        Effect::Sets { rd, value, next } => {
            state.virt.regs.advance(rd, value, next);
            true
        }
        Effect::Data(wanted) => data(state, memory, buffer, wanted),
        Effect::Raises { .. } | Effect::Calls | Effect::Privileged(_) => false,
    }
}

// An access to data, if it raises no trap.
fn data(
    state: &mut HartState,
    memory: &mut PhysMem,
    buffer: &mut Buffer,
    wanted: DataAccess,
) -> bool
    requires serves { ServesHart buffer.old state.old memory.old }
    ensures made { (event : Event) → IfMade result (attempt_of (caching_found state.old
        (found_over memory.old state.old wanted.address wanted.width (kind_of wanted.purpose))) memory.old
        (accessed_data (mmu_on state.old memory.old) state.old.virt event wanted)
        ≡ Makes state.new memory.new event) }
    ensures stays { Unless result ((state.new ≡ state.old) × (memory.new ≡ memory.old)) }
    ensures serves { ServesHart buffer.new state.new memory.new }
    ensures context { KeepsContext state.old.virt state.new.virt }
{
    let mut trap = Trap::of_interrupt(0);
    match access_data(state, memory, buffer, wanted, &mut trap) {
        Ended::Plain => true,
        Ended::System | Ended::Raised => false,
    }
}
