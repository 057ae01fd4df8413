// Instructions on control and status registers (Unprivileged ISA 20191213, 9.1) and SRET (Privileged
// Architecture 20211203, 8.6.4).

ghost use Rattle.std.specs.Prelude.{◌≡◌, IfErr, true};
ghost use Rattle.privileged_ops.specs.PrivilegedEnds.{made_outcome};
ghost use Rattle.rv64_asm.specs.Fitting.{fits};
ghost use Rattle.rv64_asm.specs.Words.{encoded};
ghost use Rattle.hcsr_emulation.specs.Ends.{EndsSo, IfAccessRaised, IsCsrOrSret, accessed_outcome};

use crate::emulation::refused;
use arch_defs::{CsrEnd, Trap, Virtual};
use op_defs::Op;
use op_effects::{operand_of, writes};
use privileged_ops::{access_csr, perform_sret};

/// How an instruction ended that makes no access to memory, or whose access is made.
#[derive(Clone, Copy, PartialEq, Eq)]
pub enum Accessed {
    /// It was made.
    Done,
    /// It trapped, and nothing has changed.
    Raise(Trap),
}

/// Makes an instruction on a control and status register, or an SRET, in the mode of the state, or tells its
/// trap: an illegal instruction or a virtual one (8.6.1), with the word of the instruction.
pub fn access(state: &mut Virtual, op: Op) -> Accessed
    requires kind { IsCsrOrSret op }
    requires fits { fits op ≡ true }
    ensures ends { EndsSo op state.old (accessed_outcome result state.new) }
    ensures stays { IfAccessRaised result (state.new ≡ state.old) }
{
    match made(state, &op) {
        Ok(()) => Accessed::Done,
        Err(end) => Accessed::Raise(refused(state, &op, end)),
    }
}

// Makes what the instruction asks for.
#[tactic(auto, unfolding(op_defs::specs::Meaning::meaning, machine_defs::specs::Privileges::privileged, machine_defs::specs::Privileges::refusal))]
fn made(state: &mut Virtual, op: &Op) -> Result<(), CsrEnd>
    requires { IsCsrOrSret op.now }
    ensures ends { EndsSo op.now state.old (made_outcome (encoded op.now) result state.new) }
    ensures stays { IfErr result (λ end. state.new ≡ state.old) }
{
    match *op {
        Op::Csr {
            op,
            source,
            rd,
            number,
        } => {
            let operand = operand_of(&source, &state.regs);
            access_csr(state, op, number, operand, writes(op, &source), rd)
        }
        Op::Sret => perform_sret(state),
        _ => unreachable!(),
    }
}
