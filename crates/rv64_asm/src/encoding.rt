// From an op to its word.

ghost use Rattle.std.specs.Prelude.{◌≡◌, ◌<◌, ◌^◌, true};
ghost use Rattle.rv64_asm.specs.Words.{csr_word, encoded, immediate_word, is_shift, r_word, register_word};
ghost use Rattle.rv64_asm.specs.Words.{width_code};
ghost use Rattle.rv64_asm.specs.Fitting.{fits, source_fits};

use crate::formats::{b_word, bits, i_word, j_word, r_word, s_word, u_word};
use crate::groups::{
    alu_funct3, alu_funct7, amo_funct7, counterpart, csr_code, guest_load_rs2, is_shift,
    load_funct3, test_funct3, width_code,
};
use arch_defs::{Reg, Width};
use op_defs::{AluOp, CsrOp, CsrSource, Op};

/// The word of an op whose fields fit, aq and rl of atomic operations clear. FENCE orders all with all.
#[tactic(auto, unfolding(crate::specs::Words::encoded), using(crate::proofs::Shifts::amounts))]
pub fn encode(op: &Op) -> u32
    requires { fits op.now ≡ true }
    ensures { result ≡ encoded op.now }
{
    match *op {
        Op::Lui { rd, immediate } => u_word(0b0110111, rd, immediate),
        Op::Auipc { rd, immediate } => u_word(0b0010111, rd, immediate),
        Op::Jal { rd, offset } => j_word(0b1101111, rd, offset),
        Op::Jalr { rd, rs1, offset } => i_word(0b1100111, rd, 0b000, bits(rs1), offset),
        Op::Branch {
            test,
            rs1,
            rs2,
            offset,
        } => b_word(0b1100011, test_funct3(test), rs1, rs2, offset),
        Op::Load {
            width,
            signed,
            rd,
            rs1,
            offset,
        } => i_word(0b0000011, rd, load_funct3(width, signed), bits(rs1), offset),
        Op::Store {
            width,
            rs1,
            rs2,
            offset,
        } => s_word(0b0100011, width_code(width), rs1, rs2, offset),
        Op::AluImmediate {
            op,
            rd,
            rs1,
            immediate,
        } => immediate_word(0b0010011, op, rd, rs1, immediate),
        Op::Alu { op, rd, rs1, rs2 } => register_word(0b0110011, op, rd, rs1, bits(rs2)),
        Op::WordImmediate {
            op,
            rd,
            rs1,
            immediate,
        } => immediate_word(0b0011011, counterpart(op), rd, rs1, immediate),
        Op::Word { op, rd, rs1, rs2 } => {
            register_word(0b0111011, counterpart(op), rd, rs1, bits(rs2))
        }
        Op::Fence => 0x0FF0_000F,
        Op::FenceI => 0x0000_100F,
        Op::LoadReserved { width, rd, rs1 } => atomic(width, rd, rs1, 0, 0b0001000),
        Op::StoreConditional {
            width,
            rd,
            rs1,
            rs2,
        } => atomic(width, rd, rs1, bits(rs2), 0b0001100),
        Op::Amo {
            op,
            width,
            rd,
            rs1,
            rs2,
        } => atomic(width, rd, rs1, bits(rs2), amo_funct7(op)),
        Op::Ecall => 0x0000_0073,
        Op::Ebreak => 0x0010_0073,
        Op::Sret => 0x1020_0073,
        Op::Wfi => 0x1050_0073,
        Op::Csr {
            op,
            source,
            rd,
            number,
        } => csr(op, source, rd, number),
        Op::SfenceVma { rs1, rs2 } => system(0, 0b000, rs1, bits(rs2), 0b0001001),
        Op::HfenceVvma { rs1, rs2 } => system(0, 0b000, rs1, bits(rs2), 0b0010001),
        Op::HfenceGvma { rs1, rs2 } => system(0, 0b000, rs1, bits(rs2), 0b0110001),
        Op::GuestLoad {
            width,
            signed,
            rd,
            rs1,
        } => system(
            bits(rd),
            0b100,
            rs1,
            guest_load_rs2(signed),
            0b0110000 + width_code(width) * 2,
        ),
        Op::GuestFetch { width, rd, rs1 } => system(
            bits(rd),
            0b100,
            rs1,
            3,
            0b0110000 + width_code(width) * 2,
        ),
        Op::GuestStore { width, rs1, rs2 } => system(
            0,
            0b100,
            rs1,
            bits(rs2),
            0b0110001 + width_code(width) * 2,
        ),
    }
}

// The R format with an op's funct3 and funct7, and in place of rs2 a register or an amount.
#[tactic(auto, unfolding(crate::specs::Words::register_word))]
fn register_word(opcode: u32, op: AluOp, rd: Reg, rs1: Reg, rs2: u32) -> u32
    requires opcode { opcode < 2 ^ 7 }
    requires rs2 { rs2 < 2 ^ 6 }
    ensures { result ≡ register_word opcode op rd rs1 rs2 }
{
    r_word(opcode, bits(rd), alu_funct3(op), rs1, rs2, alu_funct7(op))
}

#[tactic(auto, unfolding(crate::specs::Words::immediate_word))]
fn immediate_word(opcode: u32, op: AluOp, rd: Reg, rs1: Reg, immediate: u64) -> u32
    requires opcode { opcode < 2 ^ 7 }
    requires amount { is_shift op ≡ true → immediate < 2 ^ 6 }
    ensures { result ≡ immediate_word opcode op rd rs1 immediate }
{
    if is_shift(op) {
        register_word(opcode, op, rd, rs1, immediate as u32)
    } else {
        i_word(opcode, rd, alu_funct3(op), bits(rs1), immediate)
    }
}

fn atomic(width: Width, rd: Reg, rs1: Reg, rs2: u32, funct7: u32) -> u32
    requires rs2 { rs2 < 2 ^ 5 }
    requires funct7 { funct7 < 127 }
    ensures { result ≡ r_word 0b0101111 rd (width_code width) rs1 rs2 funct7 }
{
    r_word(0b0101111, bits(rd), width_code(width), rs1, rs2, funct7)
}

fn system(rd: u32, funct3: u32, rs1: Reg, rs2: u32, funct7: u32) -> u32
    requires rd { rd < 2 ^ 5 }
    requires funct3 { funct3 < 2 ^ 3 }
    requires rs2 { rs2 < 2 ^ 5 }
    requires funct7 { funct7 < 127 }
    ensures { result ≡ r_word 0b1110011 rd funct3 rs1 rs2 funct7 }
{
    r_word(0b1110011, rd, funct3, rs1, rs2, funct7)
}

#[tactic(auto, unfolding(crate::specs::Words::csr_word, crate::specs::Fitting::source_fits))]
fn csr(op: CsrOp, source: CsrSource, rd: Reg, number: u16) -> u32
    requires { source_fits source ≡ true }
    ensures { result ≡ csr_word op source rd number }
{
    match source {
        CsrSource::Register(rs1) => i_word(0b1110011, rd, csr_code(op), bits(rs1), number as u64),
        CsrSource::Immediate(immediate) => i_word(
            0b1110011,
            rd,
            csr_code(op) + 0b100,
            immediate as u32,
            number as u64,
        ),
    }
}
