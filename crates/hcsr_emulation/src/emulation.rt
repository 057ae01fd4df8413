// Instructions on which the mode decides, by their ops (Privileged Architecture 20211203, 8.6.1).

ghost use Rattle.std.specs.Prelude.{◌≡◌, true};
ghost use Rattle.arch_defs.specs.Traps.{exception};
ghost use Rattle.op_defs.specs.declared.ops.Op.TheVariants.{HfenceGvma};
ghost use Rattle.machine_defs.specs.Privileges.{refusal_code};
ghost use Rattle.privileged_ops.specs.PrivilegedEnds.{IfNotMade, outcome_of};
ghost use Rattle.rv64_asm.specs.Fitting.{fits};
ghost use Rattle.rv64_asm.specs.Words.{encoded};
ghost use Rattle.hcsr_emulation.specs.Ends.{EndsSo, IfNotEmulated, is_decided, emulated_outcome};

use arch_defs::{CsrEnd, Fence, Reg, Tag, Trap, Virtual};
use fence_handler::request;
use op_defs::{DataAccess, Effect, Op};
use op_effects::effect_of;
use privileged_ops::{Performed, perform, refusal_code, refusal_of};
use rv64_asm::encode;

/// How an instruction ended.
#[derive(Clone, Copy)]
pub enum Emulated {
    /// It was made.
    Done,
    /// It was a WFI, and was made but for the wait.
    Waits,
    /// It was an HFENCE.GVMA, and was made but for the cached translations, of which it names these.
    Fenced(Fence),
    /// It was an SFENCE.VMA, or an HFENCE.VVMA, which is for these accesses, and was made but for the
    /// first-stage translations, of which it names these.
    FirstFenced(Option<Tag>, Fence),
    /// It is an HLV, HLVX or HSV, and is allowed to make this access as VS or VU.
    Accesses(DataAccess),
    /// It trapped, and nothing has changed.
    Raise(Trap),
}

/// Makes an instruction on which the mode decides, in the mode of the state, or tells its trap: an illegal
/// instruction or a virtual one, with the word of the instruction.
pub fn emulate(state: &mut Virtual, op: Op) -> Emulated
    requires decided { is_decided op ≡ true }
    requires fits { fits op ≡ true }
    ensures ends { EndsSo op state.old (emulated_outcome result state.new) }
    ensures stays { IfNotEmulated result (state.new ≡ state.old) }
{
    match perform_op(state, &op) {
        Performed::Done => Emulated::Done,
        Performed::Waits => Emulated::Waits,
        Performed::Fenced(named) => Emulated::Fenced(named),
        Performed::FirstFenced(tag, named) => Emulated::FirstFenced(tag, named),
        Performed::Accesses(wanted) => Emulated::Accesses(wanted),
        Performed::Refused(end) => Emulated::Raise(refused(state, &op, end)),
    }
}

// Makes what the instruction asks for.
fn perform_op(state: &mut Virtual, op: &Op) -> Performed
    requires { is_decided op.now ≡ true }
    ensures ends { EndsSo op.now state.old (outcome_of (encoded op.now) result state.new) }
    ensures stays { IfNotMade result (state.new ≡ state.old) }
{
    match *op {
        Op::HfenceGvma { rs1, rs2 } => fence_guest(state, rs1, rs2),
        _ => perform_effect(state, op),
    }
}

// An HFENCE.GVMA, which hypervisors make at each change of their tables.
fn fence_guest(state: &mut Virtual, rs1: Reg, rs2: Reg) -> Performed
    ensures ends { EndsSo (HfenceGvma rs1 rs2) state.old
        (outcome_of (encoded (HfenceGvma rs1 rs2)) result state.new) }
    ensures stays { IfNotMade result (state.new ≡ state.old) }
{
    let op = Op::HfenceGvma { rs1, rs2 };
    match refusal_of(&op, &state.csrs.hstatus, state.mode) {
        Some(end) => Performed::Refused(end),
        None => {
            let named = request(op, &state.regs);
            state.pass();
            Performed::Fenced(named)
        }
    }
}

// The same for any instruction, by what it asks for.
fn perform_effect(state: &mut Virtual, op: &Op) -> Performed
    requires { is_decided op.now ≡ true }
    ensures ends { EndsSo op.now state.old (outcome_of (encoded op.now) result state.new) }
    ensures stays { IfNotMade result (state.new ≡ state.old) }
{
    match effect_of(op, &state.regs) {
        Effect::Privileged(effect) => perform(state, effect),
        _ => unreachable!(),
    }
}

/// The trap of an instruction that the mode does not allow.
#[inline(never)]
pub(crate) fn refused(state: &Virtual, op: &Op, end: CsrEnd) -> Trap
    requires fits { fits op.now ≡ true }
    ensures { result ≡ exception state.now.mode (refusal_code end) (encoded op.now) }
{
    Trap::of_exception(state.mode, refusal_code(end), encode(op) as u64)
}

/// Whether the mode decides on an instruction.
#[tactic(auto, unfolding(crate::specs::Ends::is_decided))]
pub fn is_decided(op: &Op) -> bool
    ensures { result ≡ is_decided op.now }
{
    matches!(
        *op,
        Op::Csr { .. }
            | Op::Sret
            | Op::Wfi
            | Op::SfenceVma { .. }
            | Op::HfenceVvma { .. }
            | Op::HfenceGvma { .. }
            | Op::GuestLoad { .. }
            | Op::GuestFetch { .. }
            | Op::GuestStore { .. }
    )
}
