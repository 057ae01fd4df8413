// Arithmetic on 64 bits.

ghost use Rattle.std.specs.Prelude.{◌≡◌, ◌-◌, ◌/◌, ◌%◌, ◌^◌, ◌<◌, ◌==◌, ◌*ℤ◌, if◌then◌else◌};
ghost use Rattle.op_defs.specs.Arithmetic.{alu, high_half, one_if, quotient, remainder, shifted_right};

use op_defs::AluOp;

/// What an operation on 64 bits makes of its two operands (Unprivileged ISA 20191213, 2.4, 5.2 and 7).
#[tactic(auto, unfolding(op_defs::specs::Arithmetic::alu))]
#[inline(always)]
pub fn double_alu(op: AluOp, a: u64, b: u64) -> u64
    ensures { result ≡ alu op a b }
{
    match op {
        AluOp::Add => a.wrapping_add(b),
        AluOp::Sub => a.wrapping_sub(b),
        AluOp::Sll => a << (b & 63),
        AluOp::Slt => one_if(a.cast_signed() < b.cast_signed()),
        AluOp::Sltu => one_if(a < b),
        AluOp::Xor => a ^ b,
        AluOp::Srl => a >> (b & 63),
        AluOp::Sra => shift_right(a, b & 63),
        AluOp::Or => a | b,
        AluOp::And => a & b,
        AluOp::Mul => a.wrapping_mul(b),
        AluOp::Mulh => high_half(product(a.cast_signed(), b.cast_signed())),
        AluOp::Mulhsu => high_half(a.cast_signed() as i128 * b as i128),
        AluOp::Mulhu => ((a as u128 * b as u128) >> 64) as u64,
        AluOp::Div => divide(a, b),
        AluOp::Divu => divide_unsigned(a, b),
        AluOp::Rem => remainder(a, b),
        AluOp::Remu => remainder_unsigned(a, b),
    }
}

fn one_if(test: bool) -> u64
    ensures { result ≡ one_if test }
{
    if test { 1 } else { 0 }
}

/// A shift to the right that repeats the sign.
pub fn shift_right(a: u64, by: u64) -> u64
    requires { by < 64 }
    ensures { result ≡ shifted_right a by }
{
    if a < 1 << 63 { a >> by } else { !(!a >> by) }
}

/// The quotient of signed numbers: all ones by zero, the dividend at the overflow.
pub fn divide(a: u64, b: u64) -> u64
    ensures { result ≡ quotient a b }
{
    if b == 0 {
        u64::MAX
    } else {
        a.cast_signed()
            .wrapping_div(b.cast_signed())
            .cast_unsigned()
    }
}

/// The remainder of signed numbers: the dividend by zero, 0 at the overflow.
pub fn remainder(a: u64, b: u64) -> u64
    ensures { result ≡ remainder a b }
{
    if b == 0 {
        a
    } else {
        a.cast_signed()
            .wrapping_rem(b.cast_signed())
            .cast_unsigned()
    }
}

fn divide_unsigned(a: u64, b: u64) -> u64
    ensures { result ≡ (if b == 0 then 2 ^ 64 - 1 else a / b) }
{
    if b == 0 { u64::MAX } else { a / b }
}

fn remainder_unsigned(a: u64, b: u64) -> u64
    ensures { result ≡ (if b == 0 then a else a % b) }
{
    if b == 0 { a } else { a % b }
}

fn product(a: i64, b: i64) -> i128
    ensures { result ≡ a *ℤ b }
{
    a as i128 * b as i128
}

fn high_half(product: i128) -> u64
    ensures { result ≡ high_half product }
{
    (product.cast_unsigned() >> 64) as u64
}
