// The table of words, by opcode.

ghost use Rattle.std.specs.Prelude.{◌≡◌, ◌==◌, Some, None, IfSome, if◌then◌else◌, true};
ghost use Rattle.op_defs.specs.declared.ops.Op.TheVariants.{Auipc, Jal, Jalr, Lui};
ghost use Rattle.op_defs.specs.Fields.{funct3, rd, rs1, i_immediate, j_immediate, u_immediate};
ghost use Rattle.op_defs.specs.Table.{op_of, test_of, branch_of, load_of, store_of, fence_of, is_system};
ghost use Rattle.rv64_decode.specs.Common.{IsIndex, common_op_of};

use crate::atomics::atomic;
use crate::fields::{
    b_immediate, funct3, i_immediate, index, j_immediate, rd, rs1, rs2, s_immediate, u_immediate,
    width,
};
use crate::registers::{immediate, register, word, word_immediate};
use crate::systems::system;
use op_defs::{Op, Test};

/// The instruction that a word is: exactly that of the instruction table, and none for a word outside it.
#[tactic(auto, unfolding(op_defs::specs::Table::op_of, crate::specs::Common::common_op_of))]
#[inline(always)]
pub fn decode(bits: u32) -> Option<Op>
    ensures { result ≡ op_of bits }
{
    match bits & 0x7F {
        0b0001111 => fence(bits),
        0b0101111 => atomic(bits),
        0b1110011 => system(bits),
        _ => decode_common(bits),
    }
}

/// The same of a word of SYSTEM.
#[tactic(auto, unfolding(op_defs::specs::Table::op_of, op_defs::specs::Table::is_system))]
#[inline(always)]
pub fn decode_system(bits: u32) -> Option<Op>
    requires { is_system bits ≡ true }
    ensures { result ≡ op_of bits }
{
    system(bits)
}

/// The same, but none for a word of MISC-MEM, AMO or SYSTEM.
#[inline(always)]
pub fn decode_common(bits: u32) -> Option<Op>
    ensures value { result ≡ common_op_of bits }
    ensures known { IfSome result (λ op. op_of bits ≡ Some op) }
{
    indexed(index(bits), bits)
}

// The same of a word by its index, so that one dispatch tells opcode and funct3. What it calls is only
// `inline`: with `inline(always)` it would grow so large that its own is dropped.
#[tactic(auto, using(crate::proofs::Indices::opcode_at, crate::proofs::Indices::funct3_at), unfolding(op_defs::specs::Table::op_of, crate::specs::Common::common_op_of))]
#[inline(always)]
fn indexed(index: u32, bits: u32) -> Option<Op>
    requires index { IsIndex index bits }
    ensures value { result ≡ common_op_of bits }
    ensures known { IfSome result (λ op. op_of bits ≡ Some op) }
{
    match index {
        0x01 => load(0, bits),
        0x21 => load(1, bits),
        0x41 => load(2, bits),
        0x61 => load(3, bits),
        0x81 => load(4, bits),
        0xA1 => load(5, bits),
        0xC1 => load(6, bits),
        0xE1 => load(7, bits),
        0x09 => store(0, bits),
        0x29 => store(1, bits),
        0x49 => store(2, bits),
        0x69 => store(3, bits),
        0x89 => store(4, bits),
        0xA9 => store(5, bits),
        0xC9 => store(6, bits),
        0xE9 => store(7, bits),
        0x05 => immediate(0, bits),
        0x25 => immediate(1, bits),
        0x45 => immediate(2, bits),
        0x65 => immediate(3, bits),
        0x85 => immediate(4, bits),
        0xA5 => immediate(5, bits),
        0xC5 => immediate(6, bits),
        0xE5 => immediate(7, bits),
        0x0D => register(0, bits),
        0x2D => register(1, bits),
        0x4D => register(2, bits),
        0x6D => register(3, bits),
        0x8D => register(4, bits),
        0xAD => register(5, bits),
        0xCD => register(6, bits),
        0xED => register(7, bits),
        0x07 => word_immediate(0, bits),
        0x27 => word_immediate(1, bits),
        0x47 => word_immediate(2, bits),
        0x67 => word_immediate(3, bits),
        0x87 => word_immediate(4, bits),
        0xA7 => word_immediate(5, bits),
        0xC7 => word_immediate(6, bits),
        0xE7 => word_immediate(7, bits),
        0x0F => word(0, bits),
        0x2F => word(1, bits),
        0x4F => word(2, bits),
        0x6F => word(3, bits),
        0x8F => word(4, bits),
        0xAF => word(5, bits),
        0xCF => word(6, bits),
        0xEF => word(7, bits),
        0x19 => branch(0, bits),
        0x39 => branch(1, bits),
        0x59 => branch(2, bits),
        0x79 => branch(3, bits),
        0x99 => branch(4, bits),
        0xB9 => branch(5, bits),
        0xD9 => branch(6, bits),
        0xF9 => branch(7, bits),
        0x1A => jump_by_register(0, bits),
        0x3A => jump_by_register(1, bits),
        0x5A => jump_by_register(2, bits),
        0x7A => jump_by_register(3, bits),
        0x9A => jump_by_register(4, bits),
        0xBA => jump_by_register(5, bits),
        0xDA => jump_by_register(6, bits),
        0xFA => jump_by_register(7, bits),
        0x0E | 0x2E | 0x4E | 0x6E | 0x8E | 0xAE | 0xCE | 0xEE => load_upper(bits),
        0x06 | 0x26 | 0x46 | 0x66 | 0x86 | 0xA6 | 0xC6 | 0xE6 => add_upper(bits),
        0x1C | 0x3C | 0x5C | 0x7C | 0x9C | 0xBC | 0xDC | 0xFC => jump(bits),
        _ => None,
    }
}

#[inline]
fn load_upper(bits: u32) -> Option<Op>
    ensures { result ≡ Some (Lui (rd bits) (u_immediate bits)) }
{
    Some(Op::Lui {
        rd: rd(bits),
        immediate: u_immediate(bits),
    })
}

#[inline]
fn add_upper(bits: u32) -> Option<Op>
    ensures { result ≡ Some (Auipc (rd bits) (u_immediate bits)) }
{
    Some(Op::Auipc {
        rd: rd(bits),
        immediate: u_immediate(bits),
    })
}

#[inline]
fn jump(bits: u32) -> Option<Op>
    ensures { result ≡ Some (Jal (rd bits) (j_immediate bits)) }
{
    Some(Op::Jal {
        rd: rd(bits),
        offset: j_immediate(bits),
    })
}

#[inline]
fn jump_by_register(minor: u32, bits: u32) -> Option<Op>
    requires { minor ≡ funct3 bits }
    ensures { result
        ≡ (if funct3 bits == 0 then Some (Jalr (rd bits) (rs1 bits) (i_immediate bits)) else None) }
{
    if minor == 0 {
        Some(Op::Jalr {
            rd: rd(bits),
            rs1: rs1(bits),
            offset: i_immediate(bits),
        })
    } else {
        None
    }
}

#[tactic(auto, unfolding(op_defs::specs::Table::branch_of))]
#[inline]
fn branch(minor: u32, bits: u32) -> Option<Op>
    requires { minor ≡ funct3 bits }
    ensures { result ≡ branch_of bits }
{
    match test(minor) {
        Some(test) => Some(Op::Branch {
            test,
            rs1: rs1(bits),
            rs2: rs2(bits),
            offset: b_immediate(bits),
        }),
        None => None,
    }
}

#[tactic(auto, unfolding(op_defs::specs::Table::test_of))]
#[inline]
fn test(funct3: u32) -> Option<Test>
    ensures { result ≡ test_of funct3 }
{
    match funct3 {
        0 => Some(Test::Eq),
        1 => Some(Test::Ne),
        4 => Some(Test::Lt),
        5 => Some(Test::Ge),
        6 => Some(Test::Ltu),
        7 => Some(Test::Geu),
        _ => None,
    }
}

#[tactic(auto, using(crate::proofs::Indices::low_bits, crate::proofs::Indices::high_bit), unfolding(op_defs::specs::Table::load_of))]
#[inline]
fn load(minor: u32, bits: u32) -> Option<Op>
    requires { minor ≡ funct3 bits }
    ensures { result ≡ load_of bits }
{
    if minor == 7 {
        return None;
    }
    Some(Op::Load {
        width: width(minor),
        signed: minor / 4 == 0,
        rd: rd(bits),
        rs1: rs1(bits),
        offset: i_immediate(bits),
    })
}

#[tactic(auto, using(crate::proofs::Indices::low_bits, crate::proofs::Indices::high_bit), unfolding(op_defs::specs::Table::store_of))]
#[inline]
fn store(minor: u32, bits: u32) -> Option<Op>
    requires { minor ≡ funct3 bits }
    ensures { result ≡ store_of bits }
{
    if minor / 4 == 0 {
        Some(Op::Store {
            width: width(minor),
            rs1: rs1(bits),
            rs2: rs2(bits),
            offset: s_immediate(bits),
        })
    } else {
        None
    }
}

#[tactic(auto, unfolding(op_defs::specs::Table::fence_of))]
#[inline]
fn fence(bits: u32) -> Option<Op>
    ensures { result ≡ fence_of bits }
{
    match funct3(bits) {
        0 => Some(Op::Fence),
        1 => Some(Op::FenceI),
        _ => None,
    }
}
