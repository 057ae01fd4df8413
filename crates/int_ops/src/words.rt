// Arithmetic on the low 32 bits.

ghost use Rattle.std.specs.Prelude.{◌≡◌, ◌-◌, ◌/◌, ◌%◌, ◌^◌, ◌==◌, if◌then◌else◌};
ghost use Rattle.op_defs.specs.Arithmetic.{low, word, word_alu};

use crate::arithmetic::{divide, remainder, shift_right};
use arch_defs::{Width, extend};
use op_defs::WordOp;

/// What an operation on the low 32 bits makes of its two operands, sign extended (Unprivileged ISA
/// 20191213, 5.2 and 7).
#[tactic(auto, unfolding(op_defs::specs::Arithmetic::word_alu))]
#[inline(always)]
pub fn word_alu(op: WordOp, a: u64, b: u64) -> u64
    ensures { result ≡ word_alu op a b }
{
    match op {
        WordOp::Add => word(a.wrapping_add(b)),
        WordOp::Sub => word(a.wrapping_sub(b)),
        WordOp::Sll => word(low(a) << (b & 31)),
        WordOp::Srl => word(low(a) >> (b & 31)),
        WordOp::Sra => shift_right(word(a), b & 31),
        WordOp::Mul => word(a.wrapping_mul(b)),
        WordOp::Div => word(divide(word(a), word(b))),
        WordOp::Divu => divide_unsigned(a, b),
        WordOp::Rem => word(remainder(word(a), word(b))),
        WordOp::Remu => remainder_unsigned(a, b),
    }
}

fn word(a: u64) -> u64
    ensures { result ≡ word a }
{
    extend(Width::Word, true, a)
}

fn low(a: u64) -> u64
    ensures { result ≡ low a }
{
    a & 0xFFFF_FFFF
}

fn divide_unsigned(a: u64, b: u64) -> u64
    ensures { result ≡ (if low b == 0 then 2 ^ 64 - 1 else word (low a / low b)) }
{
    if low(b) == 0 {
        u64::MAX
    } else {
        word(low(a) / low(b))
    }
}

fn remainder_unsigned(a: u64, b: u64) -> u64
    ensures { result ≡ (if low b == 0 then word a else word (low a % low b)) }
{
    if low(b) == 0 {
        word(a)
    } else {
        word(low(a) % low(b))
    }
}
