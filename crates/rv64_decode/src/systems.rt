// The words of opcode SYSTEM.

ghost use Rattle.std.specs.Prelude.{◌≡◌};
ghost use Rattle.arch_defs.specs.Bits.{field};
ghost use Rattle.op_defs.specs.Table.{csr_of, csr_op_of, fence_op_of, guest_access_of, guest_load_by, guest_load_of, guest_store_of, system_of, system_op_of};

use crate::fields::{funct3, funct7, rd, rs1, rs2};
use arch_defs::Width;
use op_defs::{CsrOp, CsrSource, Op};

/// SYSTEM.
#[tactic(auto, unfolding(op_defs::specs::Table::system_of))]
pub fn system(bits: u32) -> Option<Op>
    ensures { result ≡ system_of bits }
{
    match funct3(bits) {
        0 => privileged(bits),
        4 => guest_access(bits),
        _ => Some(csr(bits)),
    }
}

#[tactic(auto, unfolding(op_defs::specs::Table::system_op_of))]
fn privileged(bits: u32) -> Option<Op>
    ensures { result ≡ system_op_of bits }
{
    match bits {
        0x0000_0073 => Some(Op::Ecall),
        0x0010_0073 => Some(Op::Ebreak),
        0x1020_0073 => Some(Op::Sret),
        0x1050_0073 => Some(Op::Wfi),
        _ => {
            if rd(bits).number() == 0 {
                fence_op(bits)
            } else {
                None
            }
        }
    }
}

#[tactic(auto, unfolding(op_defs::specs::Table::fence_op_of))]
fn fence_op(bits: u32) -> Option<Op>
    ensures { result ≡ fence_op_of bits }
{
    let rs1 = rs1(bits);
    let rs2 = rs2(bits);
    match funct7(bits) {
        0b0001001 => Some(Op::SfenceVma { rs1, rs2 }),
        0b0010001 => Some(Op::HfenceVvma { rs1, rs2 }),
        0b0110001 => Some(Op::HfenceGvma { rs1, rs2 }),
        _ => None,
    }
}

#[tactic(auto, unfolding(op_defs::specs::Table::guest_access_of))]
fn guest_access(bits: u32) -> Option<Op>
    ensures { result ≡ guest_access_of bits }
{
    if (bits >> 25) & 1 == 0 {
        guest_load(bits)
    } else if rd(bits).number() == 0 {
        guest_store(bits)
    } else {
        None
    }
}

#[tactic(auto, unfolding(op_defs::specs::Table::guest_load_of))]
fn guest_load(bits: u32) -> Option<Op>
    ensures { result ≡ guest_load_of bits }
{
    match (funct7(bits), rs2(bits).number()) {
        (0b0110000, 3) => None,
        (0b0110000, _) => guest_load_by(Width::Byte, bits),
        (0b0110010, _) => guest_load_by(Width::Half, bits),
        (0b0110100, _) => guest_load_by(Width::Word, bits),
        (0b0110110, 0) => guest_load_by(Width::Double, bits),
        _ => None,
    }
}

#[tactic(auto, unfolding(op_defs::specs::Table::guest_load_by))]
fn guest_load_by(width: Width, bits: u32) -> Option<Op>
    ensures { result ≡ guest_load_by width bits }
{
    let rd = rd(bits);
    let rs1 = rs1(bits);
    match rs2(bits).number() {
        0 => Some(Op::GuestLoad {
            width,
            signed: true,
            rd,
            rs1,
        }),
        1 => Some(Op::GuestLoad {
            width,
            signed: false,
            rd,
            rs1,
        }),
        3 => Some(Op::GuestFetch { width, rd, rs1 }),
        _ => None,
    }
}

#[tactic(auto, unfolding(op_defs::specs::Table::guest_store_of))]
fn guest_store(bits: u32) -> Option<Op>
    ensures { result ≡ guest_store_of bits }
{
    let rs1 = rs1(bits);
    let rs2 = rs2(bits);
    match funct7(bits) {
        0b0110001 => Some(Op::GuestStore {
            width: Width::Byte,
            rs1,
            rs2,
        }),
        0b0110011 => Some(Op::GuestStore {
            width: Width::Half,
            rs1,
            rs2,
        }),
        0b0110101 => Some(Op::GuestStore {
            width: Width::Word,
            rs1,
            rs2,
        }),
        0b0110111 => Some(Op::GuestStore {
            width: Width::Double,
            rs1,
            rs2,
        }),
        _ => None,
    }
}

#[tactic(auto, unfolding(op_defs::specs::Table::csr_of))]
fn csr(bits: u32) -> Op
    ensures { result ≡ csr_of bits }
{
    let op = csr_op(bits);
    let rd = rd(bits);
    let number = (bits >> 20) as u16;
    let operand = rs1(bits);
    if (bits >> 14) & 1 == 0 {
        Op::Csr {
            op,
            source: CsrSource::Register(operand),
            rd,
            number,
        }
    } else {
        Op::Csr {
            op,
            source: CsrSource::Immediate(operand.number() as u8),
            rd,
            number,
        }
    }
}

#[tactic(auto, unfolding(op_defs::specs::Table::csr_op_of))]
fn csr_op(bits: u32) -> CsrOp
    ensures { result ≡ csr_op_of (field 12 2 bits) }
{
    match (bits >> 12) & 3 {
        1 => CsrOp::Write,
        2 => CsrOp::Set,
        _ => CsrOp::Clear,
    }
}
