// What an instruction does that the log tells by a line of its own.

ghost use Rattle.std.specs.Prelude.{◌≡◌, ℕ, None, Some};
ghost use Rattle.arch_defs.specs.Memory.{Mmu};
ghost use Rattle.machine_defs.specs.Core.{decoded, instruction};
ghost use Rattle.machine_defs.specs.Machine.{Machine};
ghost use Rattle.run_log.specs.Seen.{step_outcome};
ghost use Rattle.run_log.specs.Steps.{step_word};
ghost use Rattle.step_lines.specs.declared.acts.Act.TheVariants.{Other};
ghost use Rattle.step_lines.specs.Acts.{act_from, act_in, effect_act, privileged_act};

use arch_defs::{Fence, Mode, Virtual};
use log_lines::FenceOp;
use op_defs::{DataAccess, Effect, Op, Privileged};
use op_effects::effect_of;
use privileged_ops::refusal_of;
use rv64_decode::decode;

/// What an instruction does, where it is made.
#[derive(Clone, Copy)]
pub enum Act {
    /// It calls the environment.
    Calls,
    /// It waits.
    Waits,
    /// It drops cached translations.
    Fences(FenceOp, Fence),
    /// It makes an access as VS or VU.
    Accesses(DataAccess),
    /// None of these.
    Other,
}

// What one does that its mode allows.
fn effect_act(mode: Mode, effect: Effect) -> Act
    ensures { result ≡ effect_act mode effect }
{
    match effect {
        Effect::Calls => act_from(mode),
        Effect::Privileged(asked) => privileged_act(asked),
        Effect::Sets { .. } | Effect::Raises { .. } | Effect::Data(_) => Act::Other,
    }
}

// A call of the environment is one from HS.
fn act_from(mode: Mode) -> Act
    ensures { result ≡ act_from mode }
{
    match mode {
        Mode::HS => Act::Calls,
        Mode::U | Mode::VS | Mode::VU => Act::Other,
    }
}

fn privileged_act(asked: Privileged) -> Act
    ensures { result ≡ privileged_act asked }
{
    match asked {
        Privileged::Wfi => Act::Waits,
        Privileged::SfenceVma(named) => Act::Fences(FenceOp::SfenceVma, named),
        Privileged::HfenceVvma(named) => Act::Fences(FenceOp::HfenceVvma, named),
        Privileged::HfenceGvma(named) => Act::Fences(FenceOp::HfenceGvma, named),
        Privileged::HlvAccess(wanted) => Act::Accesses(wanted),
        Privileged::Csr { .. } | Privileged::Sret => Act::Other,
    }
}

// What an op does in a state.
#[tactic(auto, using(crate::proofs::Ends::refused_does_nothing, crate::proofs::Ends::allowed_does))]
fn op_act(virt: &Virtual, op: &Op) -> Act
    ensures { (through : Mmu) (word : ℕ)
        → result ≡ act_in (Some (decoded through virt.now word (Some op.now))) }
{
    match refusal_of(op, &virt.csrs.hstatus, virt.mode) {
        Some(_) => Act::Other,
        None => effect_act(virt.mode, effect_of(op, &virt.regs)),
    }
}

// What the instruction of a word does in it.
fn word_act(virt: &Virtual, word: u32) -> Act
    ensures { (through : Mmu) → result ≡ act_in (Some (instruction through virt.now word)) }
{
    match decode(word) {
        Some(op) => op_act(virt, &op),
        None => Act::Other,
    }
}

/// What a machine's next instruction does, by its state and the word at pc, if there is one.
#[tactic(auto, using(crate::proofs::Ends::word_does, crate::proofs::Ends::no_word_does_nothing))]
pub fn act_of(virt: &Virtual, word: Option<u32>) -> Act
    ensures act { (m : Machine) → m.platform.virt ≡ virt.now → step_word m ≡ word
        → result ≡ act_in (step_outcome m) }
    ensures none { word ≡ None → result ≡ Other }
{
    match word {
        Some(word) => word_act(virt, word),
        None => Act::Other,
    }
}
