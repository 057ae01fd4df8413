// Atomic memory operations.

ghost use Rattle.std.specs.Prelude.{◌≡◌};
ghost use Rattle.op_defs.specs.Arithmetic.{amo, amo_of};

use arch_defs::{Width, extend};
use op_defs::AmoOp;

/// What an atomic memory operation makes of the old value in memory and its operand, of which it sees
/// the low bytes of its width, sign extended (Unprivileged ISA 20191213, 8.4). Its low bytes are stored.
pub fn sized_amo(op: AmoOp, width: Width, held: u64, b: u64) -> u64
    ensures { result ≡ amo op width held b }
{
    combined(op, extend(width, true, held), extend(width, true, b))
}

#[tactic(auto, unfolding(op_defs::specs::Arithmetic::amo_of))]
fn combined(op: AmoOp, held: u64, b: u64) -> u64
    ensures { result ≡ amo_of op held b }
{
    match op {
        AmoOp::Swap => b,
        AmoOp::Add => held.wrapping_add(b),
        AmoOp::Xor => held ^ b,
        AmoOp::And => held & b,
        AmoOp::Or => held | b,
        AmoOp::Min => if held.cast_signed() < b.cast_signed() {
            held
        } else {
            b
        },
        AmoOp::Max => if held.cast_signed() < b.cast_signed() {
            b
        } else {
            held
        },
        AmoOp::Minu => if held < b { held } else { b },
        AmoOp::Maxu => if held < b { b } else { held },
    }
}
