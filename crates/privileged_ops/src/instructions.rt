// How each of these instructions ends.

ghost use Rattle.std.specs.Prelude.{◌≡◌, IfErr, ℕ, None};
ghost use Rattle.arch_defs.specs.Traps.{arrived, returned};
ghost use Rattle.op_defs.specs.declared.ops.Privileged.TheVariants as effect;
ghost use Rattle.machine_defs.specs.Privileges.{performed, privileged, refusal};
ghost use Rattle.privileged_ops.specs.PrivilegedEnds.{IfNotMade, made_outcome, outcome_of};

use crate::csrs::access_csr;
use crate::refusals::{refusal, supervisor_refusal};
use arch_defs::{CsrEnd, Fence, Tag, Virtual};
use op_defs::{DataAccess, Privileged};
use trap_delegation::sret;

/// How an instruction ended.
#[derive(Clone, Copy)]
pub enum Performed {
    /// It was made.
    Done,
    /// It was a WFI, and was made but for the wait.
    Waits,
    /// It was an HFENCE.GVMA, and was made but for the cached translations, of which it names these.
    Fenced(Fence),
    /// It was an SFENCE.VMA, or an HFENCE.VVMA, which is for these accesses, and was made but for the
    /// first-stage translations, of which it names these.
    FirstFenced(Option<Tag>, Fence),
    /// It is an HLV, HLVX or HSV, and is allowed to make this access as VS or VU.
    Accesses(DataAccess),
    /// The mode does not allow it: an illegal instruction, or a virtual one.
    Refused(CsrEnd),
}

/// Makes what an instruction asks for, unless its mode does not allow it.
#[tactic(auto, unfolding(machine_defs::specs::Privileges::privileged))]
pub fn perform(state: &mut Virtual, effect: Privileged) -> Performed
    ensures ends { (word : ℕ) → privileged state.old word effect ≡ outcome_of word result state.new }
    ensures stays { IfNotMade result (state.new ≡ state.old) }
{
    match refusal(&effect, &state.csrs.hstatus, state.mode) {
        Some(end) => Performed::Refused(end),
        None => perform_allowed(state, effect),
    }
}

// Makes what an instruction asks for that its mode allows.
fn perform_allowed(state: &mut Virtual, effect: Privileged) -> Performed
    requires { refusal effect state.old.csrs.hstatus state.old.mode ≡ None }
    ensures ends { (word : ℕ) → performed state.old word effect ≡ outcome_of word result state.new }
    ensures stays { IfNotMade result (state.new ≡ state.old) }
{
    match effect {
        Privileged::Csr {
            op,
            number,
            operand,
            writes,
            rd,
        } => match access_csr(state, op, number, operand, writes, rd) {
            Ok(()) => Performed::Done,
            Err(end) => Performed::Refused(end),
        },
        Privileged::Sret => {
            leave(state);
            Performed::Done
        }
        Privileged::Wfi => {
            state.pass();
            Performed::Waits
        }
        Privileged::SfenceVma(named) => {
            state.pass();
            Performed::FirstFenced(None, named)
        }
        Privileged::HfenceVvma(named) => {
            state.pass();
            Performed::FirstFenced(Some(Tag::Nested(state.csrs.hgatp)), named)
        }
        Privileged::HfenceGvma(named) => {
            state.pass();
            Performed::Fenced(named)
        }
        Privileged::HlvAccess(wanted) => Performed::Accesses(wanted),
    }
}

// SRET (Privileged Architecture 20211203, 8.6.4).
#[tactic(auto, using(crate::proofs::Returns::sret_is_supervisor))]
fn leave(state: &mut Virtual)
    requires { refusal effect.Sret state.old.csrs.hstatus state.old.mode ≡ None }
    ensures { state.new ≡ arrived state.old (returned state.old.csrs state.old.regs state.old.mode) }
{
    state.mode = sret(&mut state.csrs, &mut state.regs, state.mode);
}

/// Makes an SRET. Where the mode may not do that, the instruction is an illegal one or a virtual one (8.6.1),
/// and nothing changes.
#[tactic(auto, unfolding(machine_defs::specs::Privileges::privileged, machine_defs::specs::Privileges::refusal))]
pub fn perform_sret(state: &mut Virtual) -> Result<(), CsrEnd>
    ensures ends { (word : ℕ) → privileged state.old word effect.Sret ≡ made_outcome word result state.new }
    ensures stays { IfErr result (λ end. state.new ≡ state.old) }
{
    match supervisor_refusal(state.csrs.hstatus.vtsr, state.mode) {
        Some(end) => Err(end),
        None => {
            leave(state);
            Ok(())
        }
    }
}
