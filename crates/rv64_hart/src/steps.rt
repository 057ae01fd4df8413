// One step of the hart.

ghost use Rattle.std.specs.Prelude.{◌≡◌, ◌^◌, ◌<◌, ℕ, Some, None, IfErr, IfOk, IfSome, IsTrue, false, option_map};
ghost use Rattle.arch_defs.specs.FirstEntries.{HasGuestFrame};
ghost use Rattle.arch_defs.specs.Interrupts.{due};
ghost use Rattle.arch_defs.specs.Traps.{entered_at, is_virtual, target};
ghost use Rattle.op_defs.specs.Meaning.{meaning};
ghost use Rattle.op_defs.specs.Table.{is_system, op_of};
ghost use Rattle.machine_defs.specs.Core.{core, event_of};
ghost use Rattle.machine_defs.specs.FirstLeaves.{entries_of};
ghost use Rattle.translation_buffer.specs.Serving.{ServesHart};
ghost use Rattle.rv64_hart.specs.Endings.{HasMade, IfLeft, IfPlain, IsCommonStretch, IsNext, IsStretch, IsTallied, KeepsContext, LeftBy, LeftByCommon, LeftByRound, LeftByStretch, NoneDueIfQuiet, attempt_at, attempt_by, attempt_of_effect, attempt_of_word, counted_of, is_plain_end, one_of, told_by, told_of};
ghost use Rattle.rv64_hart.specs.HartRefs.{SameReferences};
ghost use Rattle.rv64_hart.specs.Lookups.{LookupTells};
ghost use Rattle.rv64_hart.specs.MachineMemory.{mmu_on};
ghost use Rattle.rv64_hart.specs.Steps.{Exits, Raises, attempt_of, found_at_exit, hart_step, next_attempt, one_more_step, progress, progressed, trapped_to, caching_found, with_found_on};

use crate::accesses::{fetch_lookup, last_place, load_anew, store_anew, word_at};
use crate::common_instructions::common;
use crate::endings::{CommonStretch, Ended, Round, StepEnd, Stretch, raise_interrupt};
use crate::hart_refs::{FetchedWord, HartRef};
use crate::leaves::{cache, found_at_exit};
use crate::rare_instructions::{follow, is_system, rare};
use crate::tallies::Tally;
use crate::walked_accesses::{MemoryAccess, reach_by};
use arch_defs::{Access, HartState, Level, Trap, Virtual, Width};
use op_defs::Op;
use op_effects::address_at;
use phys_mem::PhysMem;
use rv64_decode::decode_common;
use translation_buffer::{Buffer, Lookup};
use trap_delegation::{enter_vs, pending, target};

/// Makes steps up to a number: a stretch of common instructions and what ends it, or a trap.
#[inline(always)]
#[tactic(auto, using(crate::proofs::Runs::steps_on, crate::proofs::Runs::steps_more))]
pub fn round(hart: &mut HartRef<'_>, most: u64, watch: bool, quiet: &mut bool) -> Round
    requires serves { ServesHart hart.old.buffer.now hart.old.state.now hart.old.memory.now }
    requires quiet { NoneDueIfQuiet quiet.old hart.old.state.now.virt }
    requires some { 0 < most }
    ensures run { LeftByRound watch result hart.old hart.new }
    ensures made { HasMade most result.made result.end }
    ensures quiet { NoneDueIfQuiet quiet.new hart.new.state.now.virt }
{
    let stretch = attempts(hart, most, quiet);
    let made = stretch.made;
    match stretch.end {
        Ended::Plain | Ended::System => Round {
            made,
            end: StepEnd::Continues,
        },
        Ended::Raised => {
            let _ = hart.tally.trace();
            *quiet = false;
            match trap_step(hart.state, hart.memory, hart.buffer, watch, hart.trap) {
                StepEnd::Continues => Round {
                    made: made + 1,
                    end: StepEnd::Continues,
                },
                StepEnd::Ends => Round {
                    made: made + 1,
                    end: StepEnd::Ends,
                },
                StepEnd::Left => Round {
                    made,
                    end: StepEnd::Left,
                },
            }
        }
    }
}

// Makes instructions up to a number, and stops before one that raises a trap, and after one of opcode SYSTEM.
#[inline(always)]
#[tactic(auto, using(crate::proofs::Runs::steps_none))]
fn attempts(hart: &mut HartRef<'_>, most: u64, quiet: &mut bool) -> Stretch
    requires serves { ServesHart hart.old.buffer.now hart.old.state.now hart.old.memory.now }
    requires quiet { NoneDueIfQuiet quiet.old hart.old.state.now.virt }
    requires some { 0 < most }
    ensures run { LeftByStretch result hart.old hart.new }
    ensures made { IsStretch most result.made result.end }
    ensures quiet { NoneDueIfQuiet quiet.new hart.new.state.now.virt }
{
    match due_now(&hart.state.virt, quiet) {
        Some(code) => Stretch {
            made: 0,
            end: raise_interrupt(code, hart.trap),
        },
        None => {
            let stretch = instructions(hart, most);
            *quiet = is_plain(stretch.end);
            stretch
        }
    }
}

// Whether an instruction is made and leaves the registers by which an interrupt is due.
#[inline(always)]
fn is_plain(end: Ended) -> bool
    ensures { result ≡ is_plain_end end }
{
    match end {
        Ended::Plain => true,
        Ended::System | Ended::Raised => false,
    }
}

// The same where no interrupt is due.
#[inline(always)]
#[tactic(auto, using(crate::proofs::Runs::runs_both, crate::proofs::PlainSteps::plain_runs))]
fn instructions(hart: &mut HartRef<'_>, most: u64) -> Stretch
    requires serves { ServesHart hart.old.buffer.now hart.old.state.now hart.old.memory.now }
    requires none { due hart.old.state.now.virt.csrs hart.old.state.now.virt.mode ≡ None }
    requires some { 0 < most }
    ensures run { LeftByStretch result hart.old hart.new }
    ensures made { IsStretch most result.made result.end }
    ensures plain { IfPlain result.end (KeepsContext hart.old.state.now.virt hart.new.state.now.virt) }
{
    match fetched(hart.state, hart.memory, hart.buffer) {
        Ok(word) => {
            let common = common_instructions(
                hart.state,
                hart.memory,
                hart.buffer,
                word,
                most,
                hart.tally,
            );
            match common.word {
                Some(word) => {
                    let last = last(hart, word);
                    Stretch {
                        made: common.made + last.made,
                        end: last.end,
                    }
                }
                None => Stretch {
                    made: common.made,
                    end: Ended::Plain,
                },
            }
        }
        Err(lookup) => first_anew(hart, lookup),
    }
}

// The word of the next instruction, where its access at pc finds nothing, and else what is looked up for that
// access.
#[inline(always)]
pub(crate) fn fetched(
    state: &HartState,
    memory: &PhysMem,
    buffer: &mut Buffer,
) -> Result<u32, Lookup>
    requires serves { ServesHart buffer.old state.now memory.now }
    ensures next { IfOk result (λ word. IsNext word state.now memory.now) }
    ensures told { IfErr result
        (LookupTells state.now memory.now state.now.virt.regs.pc Width.Word Access.Fetch) }
    ensures serves { ServesHart buffer.new state.now memory.now }
{
    let lookup = fetch_lookup(state, memory, buffer, state.virt.regs.pc);
    match lookup.place() {
        Some(place) => Ok(word_at(memory, place)),
        None => Err(lookup),
    }
}

// The same by the page of the last fetch alone.
#[inline(always)]
fn next_word(state: &HartState, memory: &PhysMem, buffer: &Buffer) -> Option<u32>
    requires serves { ServesHart buffer.now state.now memory.now }
    ensures next { IfSome result (λ word. IsNext word state.now memory.now) }
{
    match last_place(state, memory, buffer, state.virt.regs.pc) {
        Some(place) => Some(word_at(memory, place)),
        None => None,
    }
}

// One instruction as a stretch.
#[inline(always)]
fn one(end: Ended) -> Stretch
    ensures end { result.end ≡ end }
    ensures made { result.made ≡ one_of end }
{
    match end {
        Ended::Plain | Ended::System => Stretch { made: 1, end },
        Ended::Raised => Stretch { made: 0, end },
    }
}

// An instruction for whose access at pc this is looked up, as a stretch.
#[inline(always)]
#[tactic(auto, using(crate::proofs::Runs::runs_one))]
fn first_anew(hart: &mut HartRef<'_>, lookup: Lookup) -> Stretch
    requires serves { ServesHart hart.old.buffer.now hart.old.state.now hart.old.memory.now }
    requires told { LookupTells hart.old.state.now hart.old.memory.now
        hart.old.state.now.virt.regs.pc Width.Word Access.Fetch lookup }
    requires none { due hart.old.state.now.virt.csrs hart.old.state.now.virt.mode ≡ None }
    ensures run { LeftByStretch result hart.old hart.new }
    ensures made { result.made ≡ one_of result.end }
    ensures plain { IfPlain result.end (KeepsContext hart.old.state.now.virt hart.new.state.now.virt) }
{
    one(instruction_anew(
        hart.state,
        hart.memory,
        hart.buffer,
        lookup,
        hart.tally,
        hart.trap,
    ))
}

// The instruction of the next word, as a stretch.
#[inline(always)]
#[tactic(auto, using(crate::proofs::Runs::runs_one))]
fn last(hart: &mut HartRef<'_>, word: u32) -> Stretch
    requires serves { ServesHart hart.old.buffer.now hart.old.state.now hart.old.memory.now }
    requires none { due hart.old.state.now.virt.csrs hart.old.state.now.virt.mode ≡ None }
    requires next { IsNext word hart.old.state.now hart.old.memory.now }
    ensures run { LeftByStretch result hart.old hart.new }
    ensures made { result.made ≡ one_of result.end }
    ensures plain { IfPlain result.end (KeepsContext hart.old.state.now.virt hart.new.state.now.virt) }
{
    one(ended(hart, word))
}

// The instruction of a word, whose own access at pc has found nothing. The tally gets the trace where it is
// made.
#[inline(always)]
#[tactic(auto, using(crate::proofs::FirstFound::word_ends))]
fn ended(hart: &mut HartRef<'_>, word: u32) -> Ended
    requires serves { ServesHart hart.old.buffer.now hart.old.state.now hart.old.memory.now }
    ensures told { told_of hart.old.tally.now.trace
        (attempt_of_word hart.old.state.now hart.old.memory.now word)
        ≡ told_by result hart.new.trap.now hart.new.state.now hart.new.memory.now hart.new.tally.now.trace }
    ensures tally { IsTallied result hart.old.tally.now hart.new.tally.now }
    ensures left { LeftBy result hart.new.buffer.now hart.old.state.now hart.old.memory.now
        hart.new.state.now hart.new.memory.now }
    ensures same { SameReferences hart.old hart.new }
{
    if is_system(word) {
        let fetched = FetchedWord { word, found: None };
        counted(
            hart.state,
            hart.memory,
            hart.buffer,
            fetched,
            hart.tally,
            hart.trap,
        )
    } else {
        missed(
            hart.state,
            hart.memory,
            hart.buffer,
            word,
            hart.tally,
            hart.trap,
        )
    }
}

// The same where its data may not be kept.
#[inline(never)]
#[tactic(auto, using(crate::proofs::FirstFound::common_plain, crate::proofs::FirstFound::word_ends))]
fn missed(
    state: &mut HartState,
    memory: &mut PhysMem,
    buffer: &mut Buffer,
    word: u32,
    tally: &mut Tally,
    trap: &mut Trap,
) -> Ended
    requires serves { ServesHart buffer.old state.old memory.old }
    ensures told { told_of tally.old.trace
        (attempt_of_word state.old memory.old word)
        ≡ told_by result trap.new state.new memory.new tally.new.trace }
    ensures tally { IsTallied result tally.old tally.new }
    ensures left { LeftBy result buffer.new state.old memory.old state.new memory.new }
{
    match decode_common(word) {
        Some(op) => {
            let mut hart = HartRef {
                state,
                memory,
                buffer,
                tally,
                trap,
            };
            missed_common(&mut hart, word, &op)
        }
        None => {
            let fetched = FetchedWord { word, found: None };
            counted(state, memory, buffer, fetched, tally, trap)
        }
    }
}

// The instruction that a common word is, which is none of opcode SYSTEM.
#[inline(always)]
#[tactic(auto, using(crate::proofs::Told::system_told))]
fn missed_common(hart: &mut HartRef<'_>, word: u32, op: &Op) -> Ended
    requires op { op_of word ≡ Some op.now }
    requires plain { is_system word ≡ false }
    requires serves { ServesHart hart.old.buffer.now hart.old.state.now hart.old.memory.now }
    ensures told { told_of hart.old.tally.now.trace
        (attempt_of_effect hart.old.state.now hart.old.memory.now word
        (meaning op.now hart.old.state.now.virt.regs))
        ≡ told_by result hart.new.trap.now hart.new.state.now hart.new.memory.now hart.new.tally.now.trace }
    ensures tally { IsTallied result hart.old.tally.now hart.new.tally.now }
    ensures left { LeftBy result hart.new.buffer.now hart.old.state.now hart.old.memory.now
        hart.new.state.now hart.new.memory.now }
    ensures same { SameReferences hart.old hart.new }
{
    let pc = hart.state.virt.regs.pc;
    let _ = hart.tally.trace();
    match missed_data(hart.state, hart.memory, hart.buffer, word, op, hart.trap) {
        Ended::Plain => {
            hart.tally.count(pc, word);
            Ended::Plain
        }
        Ended::System => Ended::System,
        Ended::Raised => Ended::Raised,
    }
}

// The same without the trace.
#[inline(always)]
#[tactic(auto, using(crate::proofs::FirstFound::rare_ends), unfolding(op_defs::specs::Meaning::meaning, arch_defs::specs::FirstEntries::all_filled))]
fn missed_data(
    state: &mut HartState,
    memory: &mut PhysMem,
    buffer: &mut Buffer,
    word: u32,
    op: &Op,
    trap: &mut Trap,
) -> Ended
    requires op { op_of word ≡ Some op.now }
    requires serves { ServesHart buffer.old state.old memory.old }
    ensures ends { attempt_of_effect state.old memory.old word (meaning op.now state.old.virt.regs)
        ≡ attempt_by result trap.new (event_of state.old.virt.regs.pc word) state.new memory.new }
    ensures left { LeftBy result buffer.new state.old memory.old state.new memory.new }
{
    match *op {
        Op::Load {
            width,
            signed,
            rd,
            rs1,
            offset,
        } => {
            let address = address_at(&state.virt.regs, rs1, offset);
            load_anew(state, memory, buffer, address, width, signed, rd, trap)
        }
        Op::Store {
            width,
            rs1,
            rs2,
            offset,
        } => {
            let address = address_at(&state.virt.regs, rs1, offset);
            let value = state.virt.regs.read(rs2);
            store_anew(state, memory, buffer, address, width, value, trap)
        }
        _ => rare(
            state,
            memory,
            buffer,
            FetchedWord { word, found: None },
            trap,
        ),
    }
}

// Common instructions up to a number from this word on, for as long as each is in the page of the last fetch
// and its data are kept. pc goes into memory last in each step, and the trace after them all, so that the
// compiler has both in registers.
#[inline(always)]
#[tactic(auto, using(crate::proofs::Runs::plain_none, crate::proofs::Runs::runs_common))]
pub(crate) fn common_instructions(
    state: &mut HartState,
    memory: &mut PhysMem,
    buffer: &Buffer,
    first: u32,
    most: u64,
    tally: &mut Tally,
) -> CommonStretch
    requires serves { ServesHart buffer.now state.old memory.old }
    requires none { due state.old.virt.csrs state.old.virt.mode ≡ None }
    requires next { IsNext first state.old memory.old }
    requires some { 0 < most }
    ensures run { LeftByCommon result buffer.now tally.old tally.new
        state.old memory.old state.new memory.new }
    ensures made { IsCommonStretch most result.made result.word }
{
    let mut word = first;
    let mut trace = tally.trace();
    for made in 0..most {
        let pc = state.virt.regs.pc;
        if !common(state, memory, buffer, word) {
            tally.go_on_at(trace);
            return CommonStretch {
                made,
                word: Some(word),
            };
        }
        trace = trace.wrapping_add(pc.wrapping_add(word as u64));
        match next_word(state, memory, buffer) {
            Some(next) => word = next,
            None => {
                tally.go_on_at(trace);
                return CommonStretch {
                    made: made + 1,
                    word: None,
                };
            }
        }
    }
    tally.go_on_at(trace);
    CommonStretch {
        made: most,
        word: None,
    }
}

// A step that raises a trap.
#[inline(always)]
#[tactic(auto, unfolding(crate::specs::Steps::hart_step, crate::specs::Steps::one_more_step))]
fn trap_step(
    state: &mut HartState,
    memory: &PhysMem,
    buffer: &mut Buffer,
    watch: bool,
    trap: &Trap,
) -> StepEnd
    requires serves { ServesHart buffer.old state.old memory.now }
    requires raises { next_attempt state.old memory.now
        (due state.old.virt.csrs state.old.virt.mode) ≡ Raises trap.now }
    ensures steps { (trace : ℕ) → trace < 2 ^ 64
        → one_more_step watch (progress state.old memory.now trace false)
        ≡ counted_of result (progress state.new memory.now trace) }
    ensures exits { IfLeft result (hart_step state.new memory.now ≡ Exits trap.now) }
    ensures stays { IfLeft result (state.new ≡ state.old) }
    ensures serves { ServesHart buffer.new state.new memory.now }
{
    trap_to_target(state, memory, buffer, watch, trap)
}

// Takes a trap into VS, with what the step has found cached, and leaves one to HS.
#[tactic(auto, using(crate::proofs::Targets::virtual_to_vs, crate::proofs::Told::nothing_added))]
#[inline(always)]
fn trap_to_target(
    state: &mut HartState,
    memory: &PhysMem,
    buffer: &mut Buffer,
    watch: bool,
    trap: &Trap,
) -> StepEnd
    requires serves { ServesHart buffer.old state.old memory.now }
    ensures ends { (trace : ℕ) → trace < 2 ^ 64 → progressed watch trace
        (trapped_to (caching_found state.old (found_at_exit state.old memory.now)) memory.now trap.now
        (target state.old.virt.csrs state.old.virt.mode trap.now))
        ≡ counted_of result (progress state.new memory.now trace) }
    ensures exits { IfLeft result
        (target state.old.virt.csrs state.old.virt.mode trap.now ≡ Level.HS) }
    ensures stays { IfLeft result (state.new ≡ state.old) }
    ensures serves { ServesHart buffer.new state.new memory.now }
{
    match target(&state.virt.csrs, state.virt.mode, trap) {
        Level::VS => {
            cache_found(state, memory, buffer);
            take_into_vs(&mut state.virt, trap);
            follow(&state.virt, buffer);
            if watch {
                StepEnd::Ends
            } else {
                StepEnd::Continues
            }
        }
        Level::HS => StepEnd::Left,
    }
}

// Caches what the next step finds.
#[tactic(auto, using(crate::proofs::FirstFound::filled_both))]
fn cache_found(state: &mut HartState, memory: &PhysMem, buffer: &mut Buffer)
    requires serves { ServesHart buffer.old state.old memory.now }
    ensures found { state.new ≡ caching_found state.old (found_at_exit state.old memory.now) }
    ensures serves { ServesHart buffer.new state.new memory.now }
{
    let found = found_at_exit(state, memory);
    cache(&mut state.virt.first, buffer, found.at_pc.as_ref());
    cache(&mut state.virt.first, buffer, found.of_data.as_ref());
}

// Takes a trap into VS.
fn take_into_vs(state: &mut Virtual, trap: &Trap)
    requires { IsTrue (is_virtual state.old.mode) }
    ensures { state.new ≡ entered_at state.old trap.now Level.VS }
{
    state.mode = enter_vs(&mut state.csrs, &mut state.regs, state.mode, trap);
}

// The interrupt that is due. While it is quiet, none is.
#[inline(always)]
fn due_now(state: &Virtual, quiet: &mut bool) -> Option<u64>
    requires quiet { NoneDueIfQuiet quiet.old state.now }
    ensures due { result ≡ due state.now.csrs state.now.mode }
    ensures quiet { NoneDueIfQuiet quiet.new state.now }
{
    if *quiet {
        return None;
    }
    match looked(state) {
        Some(code) => Some(code),
        None => {
            *quiet = true;
            None
        }
    }
}

// The same by a look at the registers.
#[inline(always)]
fn looked(state: &Virtual) -> Option<u64>
    ensures { result ≡ due state.now.csrs state.now.mode }
{
    pending(&state.csrs, state.mode)
}

// One instruction for whose access at pc this is looked up.
#[cold]
#[inline(never)]
fn instruction_anew(
    state: &mut HartState,
    memory: &mut PhysMem,
    buffer: &mut Buffer,
    lookup: Lookup,
    tally: &mut Tally,
    trap: &mut Trap,
) -> Ended
    requires serves { ServesHart buffer.old state.old memory.old }
    requires told { LookupTells state.old memory.old state.old.virt.regs.pc Width.Word Access.Fetch lookup }
    ensures told { told_of tally.old.trace (attempt_of (with_found_on state.old memory.old) memory.old
        (core (mmu_on state.old memory.old) state.old.virt))
        ≡ told_by result trap.new state.new memory.new tally.new.trace }
    ensures tally { IsTallied result tally.old tally.new }
    ensures left { LeftBy result buffer.new state.old memory.old state.new memory.new }
{
    let pc = state.virt.regs.pc;
    let access = MemoryAccess {
        va: pc,
        width: Width::Word,
        kind: Access::Fetch,
    };
    let mut entry = None;
    match reach_by(state, memory, access, lookup, trap, &mut entry) {
        Some(place) => {
            let fetched = FetchedWord {
                word: word_at(memory, place),
                found: entry.as_ref(),
            };
            counted(state, memory, buffer, fetched, tally, trap)
        }
        None => Ended::Raised,
    }
}

// The instruction of a word, whose own access at pc may have found a first-stage translation. The tally gets
// the trace where it is made.
#[tactic(auto, using(crate::proofs::Told::system_told, crate::proofs::Told::is_system_told))]
fn counted(
    state: &mut HartState,
    memory: &mut PhysMem,
    buffer: &mut Buffer,
    fetched: FetchedWord<'_>,
    tally: &mut Tally,
    trap: &mut Trap,
) -> Ended
    requires serves { ServesHart buffer.old state.old memory.old }
    requires fits { IfSome fetched.found (λ e. HasGuestFrame e.now) }
    ensures told { told_of tally.old.trace
        (attempt_at (entries_of (option_map (λ e. e.now) fetched.entry.found))
        state.old memory.old fetched.entry.word)
        ≡ told_by result trap.new state.new memory.new tally.new.trace }
    ensures tally { IsTallied result tally.old tally.new }
    ensures left { LeftBy result buffer.new state.old memory.old state.new memory.new }
{
    let pc = state.virt.regs.pc;
    let _ = tally.trace();
    let word = fetched.word;
    match rare(state, memory, buffer, fetched, trap) {
        Ended::Plain => {
            if is_system(word) {
                Ended::System
            } else {
                tally.count(pc, word);
                Ended::Plain
            }
        }
        Ended::System => Ended::System,
        Ended::Raised => Ended::Raised,
    }
}
