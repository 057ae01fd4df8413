// The fields of a word, and the immediates of the formats.

ghost use Rattle.std.specs.Prelude.{◌≡◌, ◌%◌, ◌<◌};
ghost use Rattle.op_defs.specs.Fields.{i_immediate, s_immediate, b_immediate, u_immediate, j_immediate, funct3, funct7, rd, rs1, rs2};
ghost use Rattle.op_defs.specs.Table.{width_of};
ghost use Rattle.rv64_decode.specs.Common.{IsIndex, spread_of};

use arch_defs::{Reg, Width};

#[inline(always)]
pub fn rd(word: u32) -> Reg
    ensures { result ≡ rd word }
{
    Reg::at(word, 7)
}

#[inline(always)]
pub fn rs1(word: u32) -> Reg
    ensures { result ≡ rs1 word }
{
    Reg::at(word, 15)
}

#[inline(always)]
pub fn rs2(word: u32) -> Reg
    ensures { result ≡ rs2 word }
{
    Reg::at(word, 20)
}

#[inline(always)]
pub fn funct3(word: u32) -> u32
    ensures value { result ≡ funct3 word }
    ensures small { result < 8 }
{
    (word >> 12) & 7
}

#[inline(always)]
pub fn funct7(word: u32) -> u32
    ensures value { result ≡ funct7 word }
    ensures small { result < 128 }
{
    word >> 25
}

/// The width that the low two bits of funct3 name.
#[tactic(auto, unfolding(op_defs::specs::Table::width_of))]
#[inline(always)]
pub fn width(funct3: u32) -> Width
    ensures { result ≡ width_of (funct3 % 4) }
{
    match funct3 % 4 {
        0 => Width::Byte,
        1 => Width::Half,
        2 => Width::Word,
        _ => Width::Double,
    }
}

#[inline(always)]
pub fn i_immediate(word: u32) -> u64
    ensures { result ≡ i_immediate word }
{
    (word.cast_signed() as i64 >> 20).cast_unsigned()
}

#[inline(always)]
pub fn s_immediate(word: u32) -> u64
    ensures { result ≡ s_immediate word }
{
    let upper = (word.cast_signed() as i64 >> 25).cast_unsigned();
    upper
        .wrapping_mul(32)
        .wrapping_add((word / 128 % 32) as u64)
}

#[inline(always)]
pub fn b_immediate(word: u32) -> u64
    ensures { result ≡ b_immediate word }
{
    let sign = (word.cast_signed() as i64 >> 31).cast_unsigned();
    let low = word / 128 % 2 * 2048 + word / 0x200_0000 % 64 * 32 + word / 256 % 16 * 2;
    sign.wrapping_mul(4096).wrapping_add(low as u64)
}

#[inline(always)]
pub fn u_immediate(word: u32) -> u64
    ensures { result ≡ u_immediate word }
{
    let upper = (word.cast_signed() as i64 >> 12).cast_unsigned();
    upper.wrapping_mul(4096)
}

#[inline(always)]
pub fn j_immediate(word: u32) -> u64
    ensures { result ≡ j_immediate word }
{
    let upper = (word.cast_signed() >> 20).cast_unsigned();
    let low = word / 4096 % 256 * 4096 + word / 0x10_0000 % 2 * 2048 + upper / 2 % 1024 * 2;
    let offset = upper / 0x10_0000 * 0x10_0000 + low;
    (offset.cast_signed() as i64).cast_unsigned()
}

/// Opcode and funct3 in one number, which tells too whether the word ends in 11, so that one range test does.
#[tactic(auto, using(crate::proofs::Indices::is_index))]
#[inline(always)]
pub fn index(word: u32) -> u32
    ensures { IsIndex result word }
{
    spread(word.wrapping_add(1))
}

// Opcode, funct3 and the low two bits in one number.
#[tactic(auto, using(crate::proofs::Indices::product), unfolding(crate::specs::Common::spread_of))]
#[inline(always)]
fn spread(next: u32) -> u32
    ensures { result ≡ spread_of next }
{
    (next / 4096 % 8 * 4096 + next % 128).wrapping_mul(0x4010_8000) >> 22
}
