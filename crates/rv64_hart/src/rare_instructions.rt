// Instructions that are not common ones: those of opcode SYSTEM and on memory in other ways, and all of which
// the access at pc has found a first-stage translation.

ghost use Rattle.std.specs.Prelude.{◌≡◌, ◌<◌, ◌%◌, ◌==◌, ◌&&◌, ℕ, List, Some, IfSome, option_map, true, unwrap_or};
ghost use Rattle.arch_defs.specs.declared.first.FirstEntry.{FirstEntry};
ghost use Rattle.arch_defs.specs.declared.first.Tag.{Tag};
ghost use Rattle.arch_defs.specs.declared.hart_states.HartState.{HartState};
ghost use Rattle.arch_defs.specs.declared.modes.Mode.{Mode};
ghost use Rattle.arch_defs.specs.declared.registers.Csrs.{Csrs};
ghost use Rattle.arch_defs.specs.Bits.{field};
ghost use Rattle.arch_defs.specs.FirstEntries.{HasGuestFrame, all_filled, names_first, unnamed_first};
ghost use Rattle.op_defs.specs.Meaning.{meaning};
ghost use Rattle.op_defs.specs.Table.{csr_op_of, is_system};
ghost use Rattle.machine_defs.specs.declared.events.Event.{Event};
ghost use Rattle.machine_defs.specs.Core.{accessed_data, called_from, event_of, kind_of};
ghost use Rattle.machine_defs.specs.FirstLeaves.{entries_of};
ghost use Rattle.arch_defs.specs.Registers.{next};
ghost use Rattle.machine_defs.specs.Privileges.{privileged};
ghost use Rattle.translation_buffer.specs.Serving.{Serves, ServesHart};
ghost use Rattle.rv64_hart.specs.CsrWords.{csr_asked, csr_source};
ghost use Rattle.rv64_hart.specs.Endings.{HasSameTranslation, LeftBy, Unless, attempt_at, attempt_by, attempt_with, found_by_fetch};
ghost use Rattle.rv64_hart.specs.MachineMemory.{found_over, mmu_on};
ghost use Rattle.rv64_hart.specs.Steps.{Raises, attempt_of, caching, caching_found};

use crate::accesses::{access_data, access_data_anew};
use crate::endings::{Ended, raise};
use crate::hart_refs::FetchedWord;
use crate::leaves::cache;
use arch_defs::{
    ECALL_FROM_HS, ECALL_FROM_USER, ECALL_FROM_VS, Fence, FirstEntry, HartState,
    ILLEGAL_INSTRUCTION, Mode, Reg, Tag, Trap, Virtual,
};
use data_access::DataAccess;
use op_defs::{CsrOp, CsrSource, Effect, Op, Privileged};
use op_effects::{effect_of, operand_of, writes};
use phys_mem::PhysMem;
use privileged_ops::{Performed, access_csr, perform, refusal_code, refusal_of};
use rv64_decode::{decode, decode_system};
use translation_buffer::Buffer;

/// The instruction of a word. Its own access at pc may have found a first-stage translation, which is cached
/// where it is made. A call asks for no look at the registers.
#[inline(never)]
pub(crate) fn rare(
    state: &mut HartState,
    memory: &mut PhysMem,
    buffer: &mut Buffer,
    fetched: FetchedWord<'_>,
    trap: &mut Trap,
) -> Ended
    requires serves { ServesHart buffer.old state.old memory.old }
    requires fits { IfSome fetched.found (λ e. HasGuestFrame e.now) }
    ensures ends { attempt_at (found_by_fetch fetched.entry) state.old memory.old fetched.entry.word
        ≡ attempt_by result trap.new (event_of state.old.virt.regs.pc fetched.entry.word)
        state.new memory.new }
    ensures left { LeftBy result buffer.new state.old memory.old state.new memory.new }
{
    if fetched.word == 0x0000_0073 {
        call(state.virt.mode, trap)
    } else if is_system(fetched.word) {
        system(state, memory, buffer, fetched, trap)
    } else {
        other(state, memory, buffer, fetched, trap)
    }
}

// An instruction of opcode SYSTEM. One on a register is told by the fields of its word.
#[inline]
fn system(
    state: &mut HartState,
    memory: &mut PhysMem,
    buffer: &mut Buffer,
    fetched: FetchedWord<'_>,
    trap: &mut Trap,
) -> Ended
    requires system { is_system fetched.word ≡ true }
    requires serves { ServesHart buffer.old state.old memory.old }
    requires fits { IfSome fetched.found (λ e. HasGuestFrame e.now) }
    ensures ends { attempt_at (found_by_fetch fetched.entry) state.old memory.old fetched.entry.word
        ≡ attempt_by result trap.new (event_of state.old.virt.regs.pc fetched.entry.word)
        state.new memory.new }
    ensures left { LeftBy result buffer.new state.old memory.old state.new memory.new }
{
    if fetched.word / 4096 % 4 != 0 {
        register(state, memory, buffer, fetched, trap)
    } else {
        without_register(state, memory, buffer, fetched, trap)
    }
}

// One of opcode SYSTEM by its op.
#[inline(never)]
fn without_register(
    state: &mut HartState,
    memory: &mut PhysMem,
    buffer: &mut Buffer,
    fetched: FetchedWord<'_>,
    trap: &mut Trap,
) -> Ended
    requires system { is_system fetched.word ≡ true }
    requires serves { ServesHart buffer.old state.old memory.old }
    requires fits { IfSome fetched.found (λ e. HasGuestFrame e.now) }
    ensures ends { attempt_at (found_by_fetch fetched.entry) state.old memory.old fetched.entry.word
        ≡ attempt_by result trap.new (event_of state.old.virt.regs.pc fetched.entry.word)
        state.new memory.new }
    ensures left { LeftBy result buffer.new state.old memory.old state.new memory.new }
{
    match decode_system(fetched.word) {
        Some(op) => decided(state, memory, buffer, fetched, &op, trap),
        None => raise(
            state.virt.mode,
            ILLEGAL_INSTRUCTION,
            fetched.word as u64,
            trap,
        ),
    }
}

// An instruction of another opcode.
#[inline(never)]
fn other(
    state: &mut HartState,
    memory: &mut PhysMem,
    buffer: &mut Buffer,
    fetched: FetchedWord<'_>,
    trap: &mut Trap,
) -> Ended
    requires serves { ServesHart buffer.old state.old memory.old }
    requires fits { IfSome fetched.found (λ e. HasGuestFrame e.now) }
    ensures ends { attempt_at (found_by_fetch fetched.entry) state.old memory.old fetched.entry.word
        ≡ attempt_by result trap.new (event_of state.old.virt.regs.pc fetched.entry.word)
        state.new memory.new }
    ensures left { LeftBy result buffer.new state.old memory.old state.new memory.new }
{
    match decode(fetched.word) {
        Some(op) => asked(state, memory, buffer, fetched, &op, trap),
        None => raise(
            state.virt.mode,
            ILLEGAL_INSTRUCTION,
            fetched.word as u64,
            trap,
        ),
    }
}

// What an instruction on a control and status register makes of it.
#[inline]
#[tactic(auto, unfolding(op_defs::specs::Table::csr_op_of))]
fn csr_op(word: u32) -> CsrOp
    ensures { result ≡ csr_op_of (field 12 2 word) }
{
    match (word >> 12) & 3 {
        1 => CsrOp::Write,
        2 => CsrOp::Set,
        _ => CsrOp::Clear,
    }
}

// Where its operand is.
#[inline]
fn csr_source(word: u32) -> CsrSource
    ensures { result ≡ csr_source word }
{
    if (word >> 14) & 1 == 0 {
        CsrSource::Register(Reg::at(word, 15))
    } else {
        CsrSource::Immediate(((word >> 15) & 31) as u8)
    }
}

// The number of its register.
#[inline]
fn csr_number(word: u32) -> u16
    ensures { result ≡ field 20 12 word }
{
    (word >> 20) as u16
}

// An instruction on a control and status register, by the fields of its word.
#[inline(never)]
fn register(
    state: &mut HartState,
    memory: &PhysMem,
    buffer: &mut Buffer,
    fetched: FetchedWord<'_>,
    trap: &mut Trap,
) -> Ended
    requires serves { ServesHart buffer.old state.old memory.now }
    requires fits { IfSome fetched.found (λ e. HasGuestFrame e.now) }
    ensures ends { (made : Event) → attempt_of
        (caching_found state.old (found_by_fetch fetched.entry)) memory.now
        (csr_asked state.old.virt fetched.entry.word)
        ≡ attempt_by result trap.new made state.new memory.now }
    ensures left { LeftBy result buffer.new state.old memory.now state.new memory.now }
{
    let (op, source) = (csr_op(fetched.word), csr_source(fetched.word));
    let number = csr_number(fetched.word);
    let operand = operand_of(&source, &state.virt.regs);
    let wrote = writes(op, &source);
    match access_csr(
        &mut state.virt,
        op,
        number,
        operand,
        wrote,
        Reg::at(fetched.word, 7),
    ) {
        Ok(()) => {
            settle_access(state, buffer, changes_context(wrote, number), fetched.found);
            Ended::System
        }
        Err(end) => raise(
            state.virt.mode,
            refusal_code(end),
            fetched.word as u64,
            trap,
        ),
    }
}

// Another one of opcode SYSTEM. What it asks for is read off the registers only where the mode allows it.
#[tactic(auto, using(crate::proofs::Refusals::refused_ends))]
fn decided(
    state: &mut HartState,
    memory: &mut PhysMem,
    buffer: &mut Buffer,
    fetched: FetchedWord<'_>,
    op: &Op,
    trap: &mut Trap,
) -> Ended
    requires serves { ServesHart buffer.old state.old memory.old }
    requires fits { IfSome fetched.found (λ e. HasGuestFrame e.now) }
    ensures ends { attempt_with (found_by_fetch fetched.entry) state.old memory.old fetched.entry.word
        (meaning op.now state.old.virt.regs)
        ≡ attempt_by result trap.new (event_of state.old.virt.regs.pc fetched.entry.word)
        state.new memory.new }
    ensures left { LeftBy result buffer.new state.old memory.old state.new memory.new }
{
    match refusal_of(op, &state.virt.csrs.hstatus, state.virt.mode) {
        Some(end) => raise(
            state.virt.mode,
            refusal_code(end),
            fetched.word as u64,
            trap,
        ),
        None => asked(state, memory, buffer, fetched, op, trap),
    }
}

// An instruction by what it asks for.
#[inline(never)]
fn asked(
    state: &mut HartState,
    memory: &mut PhysMem,
    buffer: &mut Buffer,
    fetched: FetchedWord<'_>,
    op: &Op,
    trap: &mut Trap,
) -> Ended
    requires serves { ServesHart buffer.old state.old memory.old }
    requires fits { IfSome fetched.found (λ e. HasGuestFrame e.now) }
    ensures ends { attempt_with (found_by_fetch fetched.entry) state.old memory.old fetched.entry.word
        (meaning op.now state.old.virt.regs)
        ≡ attempt_by result trap.new (event_of state.old.virt.regs.pc fetched.entry.word)
        state.new memory.new }
    ensures left { LeftBy result buffer.new state.old memory.old state.new memory.new }
{
    let effect = effect_of(op, &state.virt.regs);
    apply(state, memory, buffer, fetched, effect, trap)
}

// Does what an instruction asks for.
#[tactic(auto, unfolding(arch_defs::specs::FirstEntries::all_filled))]
fn apply(
    state: &mut HartState,
    memory: &mut PhysMem,
    buffer: &mut Buffer,
    fetched: FetchedWord<'_>,
    effect: Effect,
    trap: &mut Trap,
) -> Ended
    requires serves { ServesHart buffer.old state.old memory.old }
    requires fits { IfSome fetched.found (λ e. HasGuestFrame e.now) }
    ensures ends { attempt_with (found_by_fetch fetched.entry) state.old memory.old fetched.entry.word effect
        ≡ attempt_by result trap.new (event_of state.old.virt.regs.pc fetched.entry.word)
        state.new memory.new }
    ensures left { LeftBy result buffer.new state.old memory.old state.new memory.new }
{
    match effect {
        Effect::Sets { rd, value, next } => {
            cache(&mut state.virt.first, buffer, fetched.found);
            state.virt.regs.advance(rd, value, next);
            Ended::Plain
        }
        Effect::Raises { cause, tval } => raise(state.virt.mode, cause, tval, trap),
        Effect::Data(wanted) => data(state, memory, buffer, wanted, fetched.found, trap),
        Effect::Calls => call(state.virt.mode, trap),
        Effect::Privileged(effect) => { privileged(state, memory, buffer, fetched, effect, trap) }
    }
}

// An access to data, by kept translations where nothing has been found before.
fn data(
    state: &mut HartState,
    memory: &mut PhysMem,
    buffer: &mut Buffer,
    wanted: DataAccess,
    found: Option<&FirstEntry>,
    trap: &mut Trap,
) -> Ended
    requires serves { ServesHart buffer.old state.old memory.old }
    requires fits { IfSome found (λ e. HasGuestFrame e.now) }
    ensures ends { (event : Event) → attempt_of (caching_found
        (caching_found state.old (entries_of (option_map (λ e. e.now) found.entry)))
        (found_over memory.old state.old wanted.address wanted.width (kind_of wanted.purpose))) memory.old
        (accessed_data (mmu_on state.old memory.old) state.old.virt event wanted)
        ≡ attempt_by result trap.new event state.new memory.new }
    ensures left { LeftBy result buffer.new state.old memory.old state.new memory.new }
{
    match found {
        Some(_) => access_data_anew(state, memory, buffer, wanted, found, trap),
        None => access_data(state, memory, buffer, wanted, trap),
    }
}

// ECALL, by mode.
fn call(mode: Mode, trap: &mut Trap) -> Ended
    ensures trap { (s : HartState) (memory : List ℕ) → s.virt.mode ≡ mode
        → attempt_of s memory (called_from mode) ≡ Raises trap.new }
    ensures raised { result ≡ Ended.Raised }
{
    let cause = match mode {
        Mode::HS => ECALL_FROM_HS,
        Mode::VS => ECALL_FROM_VS,
        Mode::U | Mode::VU => ECALL_FROM_USER,
    };
    raise(mode, cause, 0, trap)
}

// An instruction that the mode decides on. A fence drops what it names of all that is cached by then.
#[inline(never)]
#[tactic(auto, unfolding(arch_defs::specs::FirstEntries::all_filled))]
fn privileged(
    state: &mut HartState,
    memory: &PhysMem,
    buffer: &mut Buffer,
    fetched: FetchedWord<'_>,
    effect: Privileged,
    trap: &mut Trap,
) -> Ended
    requires serves { ServesHart buffer.old state.old memory.now }
    requires fits { IfSome fetched.found (λ e. HasGuestFrame e.now) }
    ensures ends { (made : Event) → attempt_of
        (caching_found state.old (found_by_fetch fetched.entry)) memory.now
        (privileged state.old.virt fetched.entry.word effect)
        ≡ attempt_by result trap.new made state.new memory.now }
    ensures left { LeftBy result buffer.new state.old memory.now state.new memory.now }
{
    match perform(&mut state.virt, effect) {
        Performed::Done => {
            settle(state, buffer, fetched.found);
            Ended::System
        }
        Performed::Waits => {
            settle(state, buffer, fetched.found);
            Ended::System
        }
        Performed::Fenced(_) => {
            settle(state, buffer, fetched.found);
            Ended::System
        }
        Performed::FirstFenced(named, fence) => {
            cache(&mut state.virt.first, buffer, fetched.found);
            fence_first(state, buffer, named, &fence);
            Ended::System
        }
        Performed::Accesses(_) => raise(state.virt.mode, ILLEGAL_INSTRUCTION, 0, trap),
        Performed::Refused(end) => raise(
            state.virt.mode,
            refusal_code(end),
            fetched.word as u64,
            trap,
        ),
    }
}

// Caches what an instruction's own access at pc has found, and has what is kept go on for the registers and
// the mode as they are.
fn settle(state: &mut HartState, buffer: &mut Buffer, found: Option<&FirstEntry>)
    requires fits { IfSome found (λ e. HasGuestFrame e.now) }
    ensures state { state.new ≡ caching_found state.old (entries_of (option_map (λ e. e.now) found.entry)) }
    ensures serves { (before : Csrs) (mode_before : Mode) (memory : List ℕ)
        → Serves buffer.old state.old.virt.first state.old.tag before mode_before memory
        → ServesHart buffer.new state.new memory }
{
    cache(&mut state.virt.first, buffer, found);
    follow(&state.virt, buffer);
}

// Whether an instruction on a register may change by what accesses are translated: where it writes one whose
// number is a multiple of 128, as those of sstatus, satp, vsstatus, vsatp and hgatp are.
fn changes_context(wrote: bool, number: u16) -> bool
    ensures { result ≡ (wrote && number % 128 == 0) }
{
    number % 128 == 0 && wrote
}

// The same as `settle` after an instruction on a register, which may have changed by what accesses are
// translated; where it has not, what is kept stays.
fn settle_access(
    state: &mut HartState,
    buffer: &mut Buffer,
    changes: bool,
    found: Option<&FirstEntry>,
)
    requires fits { IfSome found (λ e. HasGuestFrame e.now) }
    ensures state { state.new ≡ caching_found state.old (entries_of (option_map (λ e. e.now) found.entry)) }
    ensures serves { (before : Csrs) (mode_before : Mode) (memory : List ℕ)
        → Unless changes (HasSameTranslation before mode_before state.old.virt.csrs state.old.virt.mode)
        → Serves buffer.old state.old.virt.first state.old.tag before mode_before memory
        → ServesHart buffer.new state.new memory }
{
    if changes {
        settle(state, buffer, found);
    } else {
        cache(&mut state.virt.first, buffer, found);
    }
}

// Drops the first-stage translations that a fence names, made for these accesses, or else for the hart's own,
// and what is kept by them.
fn fence_first(state: &mut HartState, buffer: &mut Buffer, named: Option<Tag>, fence: &Fence)
    ensures state { state.new ≡ caching state.old
        (unnamed_first (names_first (unwrap_or named state.old.tag) fence.now) state.old.virt.first) }
    ensures serves { (memory : List ℕ) → ServesHart buffer.old state.old memory
        → ServesHart buffer.new state.new memory }
{
    let tag = named.unwrap_or(state.tag);
    let virt = &mut state.virt;
    buffer.fence(&mut virt.first, tag, fence, &virt.csrs, virt.mode);
}

/// Has what is kept go on for the registers and the mode as they are.
pub(crate) fn follow(state: &Virtual, buffer: &mut Buffer)
    ensures { (first : List FirstEntry) (tag : Tag) (before : Csrs) (mode_before : Mode) (memory : List ℕ)
        → Serves buffer.old first tag before mode_before memory
        → Serves buffer.new first tag state.now.csrs state.now.mode memory }
{
    buffer.follow(&state.csrs, state.mode);
}

/// Whether a word is of opcode SYSTEM.
#[tactic(auto, unfolding(op_defs::specs::Table::is_system))]
pub(crate) fn is_system(word: u32) -> bool
    ensures { result ≡ is_system word }
{
    word & 0x7F == 0b1110011
}
