// Arithmetic and atomic memory operations by their instructions.

ghost use Rattle.std.specs.Prelude.{◌≡◌};
ghost use Rattle.int_ops.specs.Results.{IsAmo, IsArithmetic, amo_result, arithmetic_result};

use crate::arithmetic::double_alu;
use crate::atomics::sized_amo;
use crate::words::word_alu;
use op_defs::Op;

/// What an instruction of the arithmetic of I and M makes of its two operands, on 64 bits or on the low 32
/// bits (Unprivileged ISA 20191213, 2.4, 5.2 and 7).
pub fn alu(op: Op, a: u64, b: u64) -> u64
    requires { IsArithmetic op }
    ensures { result ≡ arithmetic_result op a b }
{
    match op {
        Op::AluImmediate { op, .. } | Op::Alu { op, .. } => double_alu(op, a, b),
        Op::WordImmediate { op, .. } | Op::Word { op, .. } => word_alu(op, a, b),
        _ => unreachable!(),
    }
}

/// What an atomic memory operation makes of the old value in memory and its operand, of which it sees the
/// low bytes of its width, sign extended (Unprivileged ISA 20191213, 8.4). Its low bytes are stored.
pub fn amo(op: Op, old: u64, b: u64) -> u64
    requires { IsAmo op }
    ensures { result ≡ amo_result op old b }
{
    match op {
        Op::Amo { op, width, .. } => sized_amo(op, width, old, b),
        _ => unreachable!(),
    }
}
