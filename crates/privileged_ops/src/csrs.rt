// Instructions on control and status registers (Unprivileged ISA 20191213, 9.1).

ghost use Rattle.std.specs.Prelude.{◌≡◌, IfErr, ℕ};
ghost use Rattle.arch_defs.specs.CsrAccess.{read_csr};
ghost use Rattle.machine_defs.specs.Privileges.{combined, csr_accessed, csr_shown};
ghost use Rattle.privileged_ops.specs.PrivilegedEnds.{made_outcome, with_register};

use arch_defs::{CsrEnd, Reg, Register, Virtual};
use csr_file::{named_to_write, read, shown, write_register};
use op_defs::CsrOp;

// What an instruction makes of a register's number and its operand.
fn combined(op: CsrOp, before: u64, operand: u64) -> u64
    ensures { result ≡ combined op before operand }
{
    match op {
        CsrOp::Write => operand,
        CsrOp::Set => before | operand,
        CsrOp::Clear => before & !operand,
    }
}

// Reads a register into `rd`.
fn show(state: &mut Virtual, number: u16, rd: Reg) -> Result<(), CsrEnd>
    ensures ends { (word : ℕ) → csr_shown state.old word rd (read_csr state.old.csrs state.old.mode number)
        ≡ made_outcome word result state.new }
    ensures stays { IfErr result (λ end. state.new ≡ state.old) }
{
    match read(&state.csrs, state.mode, number) {
        Ok(value) => {
            state.set(rd, value);
            Ok(())
        }
        Err(end) => Err(end),
    }
}

/// Reads a register into `rd`, and changes it where the instruction `writes`. Where the mode may not do that,
/// the instruction is an illegal one or a virtual one (Privileged Architecture 20211203, 8.6.1), and nothing
/// changes.
#[tactic(auto, using(crate::proofs::Changes::accessed, crate::proofs::Changes::refused_access))]
pub fn access_csr(
    state: &mut Virtual,
    op: CsrOp,
    number: u16,
    operand: u64,
    writes: bool,
    rd: Reg,
) -> Result<(), CsrEnd>
    ensures ends { (word : ℕ) → csr_accessed state.old word op number operand writes rd
        ≡ made_outcome word result state.new }
    ensures stays { IfErr result (λ end. state.new ≡ state.old) }
{
    if !writes {
        return show(state, number, rd);
    }
    match named_to_write(&state.csrs, state.mode, number) {
        Ok(register) => {
            change(state, op, register, operand, rd);
            Ok(())
        }
        Err(end) => Err(end),
    }
}

// Reads a register into `rd`, and writes what the instruction makes of it.
fn change(state: &mut Virtual, op: CsrOp, register: Register, operand: u64, rd: Reg)
    ensures { state.new ≡ with_register state.old op register operand rd }
{
    let before = shown(&state.csrs, register);
    write_register(&mut state.csrs, register, combined(op, before, operand));
    state.set(rd, before);
}
