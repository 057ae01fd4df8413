// Atomic memory operations.

ghost use Rattle.std.specs.Prelude.{◌≡◌, Some, None, ◌==◌, if◌then◌else◌};
ghost use Rattle.op_defs.specs.declared.ops.Op.TheVariants.{LoadReserved};
ghost use Rattle.op_defs.specs.Fields.{rd, rs1, rs2};
ghost use Rattle.op_defs.specs.Table.{amo_op_of, atomic_by, atomic_of};

use crate::fields::{funct3, rd, rs1, rs2};
use arch_defs::Width;
use op_defs::{AmoOp, Op};

/// AMO.
#[tactic(auto, unfolding(op_defs::specs::Table::atomic_of))]
pub fn atomic(bits: u32) -> Option<Op>
    ensures { result ≡ atomic_of bits }
{
    match funct3(bits) {
        2 => atomic_by(bits >> 27, bits, Width::Word),
        3 => atomic_by(bits >> 27, bits, Width::Double),
        _ => None,
    }
}

#[tactic(auto, unfolding(op_defs::specs::Table::atomic_by))]
fn atomic_by(funct5: u32, bits: u32, width: Width) -> Option<Op>
    ensures { result ≡ atomic_by funct5 bits width }
{
    if funct5 == 0b00010 {
        return load_reserved(bits, width);
    }
    if funct5 == 0b00011 {
        return Some(Op::StoreConditional {
            width,
            rd: rd(bits),
            rs1: rs1(bits),
            rs2: rs2(bits),
        });
    }
    match amo_op(funct5) {
        Some(op) => Some(Op::Amo {
            op,
            width,
            rd: rd(bits),
            rs1: rs1(bits),
            rs2: rs2(bits),
        }),
        None => None,
    }
}

fn load_reserved(bits: u32, width: Width) -> Option<Op>
    ensures { result ≡ (if rs2 bits == 0 then Some (LoadReserved width (rd bits) (rs1 bits)) else None) }
{
    if rs2(bits).number() == 0 {
        Some(Op::LoadReserved {
            width,
            rd: rd(bits),
            rs1: rs1(bits),
        })
    } else {
        None
    }
}

#[tactic(auto, unfolding(op_defs::specs::Table::amo_op_of))]
fn amo_op(funct5: u32) -> Option<AmoOp>
    ensures { result ≡ amo_op_of funct5 }
{
    match funct5 {
        0b00001 => Some(AmoOp::Swap),
        0b00000 => Some(AmoOp::Add),
        0b00100 => Some(AmoOp::Xor),
        0b01100 => Some(AmoOp::And),
        0b01000 => Some(AmoOp::Or),
        0b10000 => Some(AmoOp::Min),
        0b10100 => Some(AmoOp::Max),
        0b11000 => Some(AmoOp::Minu),
        0b11100 => Some(AmoOp::Maxu),
        _ => None,
    }
}
