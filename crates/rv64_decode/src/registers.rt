// Arithmetic on registers and immediates.

ghost use Rattle.std.specs.Prelude.{◌≡◌};
ghost use Rattle.op_defs.specs.Fields.{funct3};
ghost use Rattle.op_defs.specs.Table.{alu_op_of, base_op_of, base_word_op_of, immediate_arithmetic_of, immediate_op_of, multiply_op_of, multiply_word_op_of, register_arithmetic_of, shift_of, word_immediate_arithmetic_of, word_arithmetic_of, word_op_of, word_shift_of};

use crate::fields::{funct7, i_immediate, rd, rs1, rs2};
use op_defs::{AluOp, Op, WordOp};

/// OP-IMM.
#[tactic(auto, using(crate::proofs::Indices::low_bits), unfolding(op_defs::specs::Table::immediate_arithmetic_of))]
#[inline]
pub fn immediate(minor: u32, bits: u32) -> Option<Op>
    requires { minor ≡ funct3 bits }
    ensures { result ≡ immediate_arithmetic_of bits }
{
    if minor % 4 == 1 {
        return match shift(minor, bits >> 26) {
            Some(op) => Some(Op::AluImmediate {
                op,
                rd: rd(bits),
                rs1: rs1(bits),
                immediate: ((bits >> 20) & 63) as u64,
            }),
            None => None,
        };
    }
    Some(Op::AluImmediate {
        op: immediate_op(minor),
        rd: rd(bits),
        rs1: rs1(bits),
        immediate: i_immediate(bits),
    })
}

#[tactic(auto, unfolding(op_defs::specs::Table::immediate_op_of))]
#[inline]
fn immediate_op(funct3: u32) -> AluOp
    ensures { result ≡ immediate_op_of funct3 }
{
    match funct3 {
        0 => AluOp::Add,
        2 => AluOp::Slt,
        3 => AluOp::Sltu,
        4 => AluOp::Xor,
        6 => AluOp::Or,
        _ => AluOp::And,
    }
}

#[tactic(auto, unfolding(op_defs::specs::Table::shift_of))]
#[inline]
fn shift(funct3: u32, upper: u32) -> Option<AluOp>
    ensures { result ≡ shift_of funct3 upper }
{
    match (funct3, upper) {
        (1, 0) => Some(AluOp::Sll),
        (1, _) => None,
        (_, 0) => Some(AluOp::Srl),
        (_, 0b010000) => Some(AluOp::Sra),
        _ => None,
    }
}

/// OP.
#[tactic(auto, unfolding(op_defs::specs::Table::register_arithmetic_of))]
#[inline]
pub fn register(minor: u32, bits: u32) -> Option<Op>
    requires { minor ≡ funct3 bits }
    ensures { result ≡ register_arithmetic_of bits }
{
    match alu_op(funct7(bits), minor) {
        Some(op) => Some(Op::Alu {
            op,
            rd: rd(bits),
            rs1: rs1(bits),
            rs2: rs2(bits),
        }),
        None => None,
    }
}

#[tactic(auto, unfolding(op_defs::specs::Table::alu_op_of))]
#[inline]
fn alu_op(funct7: u32, funct3: u32) -> Option<AluOp>
    ensures { result ≡ alu_op_of funct7 funct3 }
{
    match (funct7, funct3) {
        (0, _) => Some(base_op(funct3)),
        (1, _) => Some(multiply_op(funct3)),
        (0b0100000, 0) => Some(AluOp::Sub),
        (0b0100000, 5) => Some(AluOp::Sra),
        _ => None,
    }
}

#[tactic(auto, unfolding(op_defs::specs::Table::base_op_of))]
#[inline]
fn base_op(funct3: u32) -> AluOp
    ensures { result ≡ base_op_of funct3 }
{
    match funct3 {
        0 => AluOp::Add,
        1 => AluOp::Sll,
        2 => AluOp::Slt,
        3 => AluOp::Sltu,
        4 => AluOp::Xor,
        5 => AluOp::Srl,
        6 => AluOp::Or,
        _ => AluOp::And,
    }
}

#[tactic(auto, unfolding(op_defs::specs::Table::multiply_op_of))]
#[inline]
fn multiply_op(funct3: u32) -> AluOp
    ensures { result ≡ multiply_op_of funct3 }
{
    match funct3 {
        0 => AluOp::Mul,
        1 => AluOp::Mulh,
        2 => AluOp::Mulhsu,
        3 => AluOp::Mulhu,
        4 => AluOp::Div,
        5 => AluOp::Divu,
        6 => AluOp::Rem,
        _ => AluOp::Remu,
    }
}

/// OP-IMM-32.
#[tactic(auto, unfolding(op_defs::specs::Table::word_immediate_arithmetic_of))]
#[inline]
pub fn word_immediate(minor: u32, bits: u32) -> Option<Op>
    requires { minor ≡ funct3 bits }
    ensures { result ≡ word_immediate_arithmetic_of bits }
{
    if minor == 0 {
        return Some(Op::WordImmediate {
            op: WordOp::Add,
            rd: rd(bits),
            rs1: rs1(bits),
            immediate: i_immediate(bits),
        });
    }
    match word_shift(minor, funct7(bits)) {
        Some(op) => Some(Op::WordImmediate {
            op,
            rd: rd(bits),
            rs1: rs1(bits),
            immediate: rs2(bits).number() as u64,
        }),
        None => None,
    }
}

#[tactic(auto, unfolding(op_defs::specs::Table::word_shift_of))]
#[inline]
fn word_shift(funct3: u32, funct7: u32) -> Option<WordOp>
    ensures { result ≡ word_shift_of funct3 funct7 }
{
    match (funct3, funct7) {
        (1, 0) => Some(WordOp::Sll),
        (5, 0) => Some(WordOp::Srl),
        (5, 0b0100000) => Some(WordOp::Sra),
        _ => None,
    }
}

/// OP-32.
#[tactic(auto, unfolding(op_defs::specs::Table::word_arithmetic_of))]
#[inline]
pub fn word(minor: u32, bits: u32) -> Option<Op>
    requires { minor ≡ funct3 bits }
    ensures { result ≡ word_arithmetic_of bits }
{
    match word_op(funct7(bits), minor) {
        Some(op) => Some(Op::Word {
            op,
            rd: rd(bits),
            rs1: rs1(bits),
            rs2: rs2(bits),
        }),
        None => None,
    }
}

#[tactic(auto, unfolding(op_defs::specs::Table::word_op_of))]
#[inline]
fn word_op(funct7: u32, funct3: u32) -> Option<WordOp>
    ensures { result ≡ word_op_of funct7 funct3 }
{
    match (funct7, funct3) {
        (0, _) => base_word_op(funct3),
        (1, _) => multiply_word_op(funct3),
        (0b0100000, 0) => Some(WordOp::Sub),
        (0b0100000, 5) => Some(WordOp::Sra),
        _ => None,
    }
}

#[tactic(auto, unfolding(op_defs::specs::Table::base_word_op_of))]
#[inline]
fn base_word_op(funct3: u32) -> Option<WordOp>
    ensures { result ≡ base_word_op_of funct3 }
{
    match funct3 {
        0 => Some(WordOp::Add),
        1 => Some(WordOp::Sll),
        5 => Some(WordOp::Srl),
        _ => None,
    }
}

#[tactic(auto, unfolding(op_defs::specs::Table::multiply_word_op_of))]
#[inline]
fn multiply_word_op(funct3: u32) -> Option<WordOp>
    ensures { result ≡ multiply_word_op_of funct3 }
{
    match funct3 {
        0 => Some(WordOp::Mul),
        4 => Some(WordOp::Div),
        5 => Some(WordOp::Divu),
        6 => Some(WordOp::Rem),
        7 => Some(WordOp::Remu),
        _ => None,
    }
}
