// The formats of words (Unprivileged ISA 20191213, 2.2 and 2.3).

ghost use Rattle.std.specs.Prelude.{◌≡◌, ◌<◌, ◌≤◌, ◌^◌};
ghost use Rattle.rv64_asm.specs.Words.{r_word, i_word, s_word, b_word, u_word, j_word};

use arch_defs::Reg;

/// A register's number, as a field.
pub fn bits(register: Reg) -> u32
    ensures value { result ≡ register }
    ensures small { result < 2 ^ 5 }
{
    register.number() as u32
}

/// The R format. In place of rs2 there may be a number of up to six bits, beside an even funct7.
#[tactic(auto, unfolding(crate::specs::Words::r_word))]
pub fn r_word(opcode: u32, rd: u32, funct3: u32, rs1: Reg, rs2: u32, funct7: u32) -> u32
    requires opcode { opcode < 2 ^ 7 }
    requires rd { rd < 2 ^ 5 }
    requires funct3 { funct3 < 2 ^ 3 }
    requires rs2 { rs2 < 2 ^ 6 }
    requires funct7 { funct7 < 127 }
    ensures { result ≡ r_word opcode rd funct3 rs1 rs2 funct7 }
{
    opcode
        + rd * 0x80
        + funct3 * 0x1000
        + bits(rs1) * 0x8000
        + rs2 * 0x10_0000
        + funct7 * 0x200_0000
}

/// The I format; `rs1` is a register's number, or five bits of an immediate.
#[tactic(auto, unfolding(crate::specs::Words::i_word))]
pub fn i_word(opcode: u32, rd: Reg, funct3: u32, rs1: u32, immediate: u64) -> u32
    requires opcode { opcode < 2 ^ 7 }
    requires funct3 { funct3 < 2 ^ 3 }
    requires rs1 { rs1 < 2 ^ 5 }
    ensures { result ≡ i_word opcode rd funct3 rs1 immediate }
{
    opcode
        + bits(rd) * 0x80
        + funct3 * 0x1000
        + rs1 * 0x8000
        + (immediate & 0xFFF) as u32 * 0x10_0000
}

/// The S format.
#[tactic(auto, unfolding(crate::specs::Words::s_word))]
pub fn s_word(opcode: u32, funct3: u32, rs1: Reg, rs2: Reg, immediate: u64) -> u32
    requires opcode { opcode < 2 ^ 7 }
    requires funct3 { funct3 < 2 ^ 3 }
    ensures { result ≡ s_word opcode funct3 rs1 rs2 immediate }
{
    opcode
        + (immediate & 0x1F) as u32 * 0x80
        + funct3 * 0x1000
        + bits(rs1) * 0x8000
        + bits(rs2) * 0x10_0000
        + ((immediate >> 5) & 0x7F) as u32 * 0x200_0000
}

/// The B format.
#[tactic(auto, unfolding(crate::specs::Words::b_word))]
pub fn b_word(opcode: u32, funct3: u32, rs1: Reg, rs2: Reg, immediate: u64) -> u32
    requires opcode { opcode < 2 ^ 7 }
    requires funct3 { funct3 < 2 ^ 3 }
    ensures { result ≡ b_word opcode funct3 rs1 rs2 immediate }
{
    opcode
        + ((immediate >> 11) & 1) as u32 * 0x80
        + ((immediate >> 1) & 0xF) as u32 * 0x100
        + funct3 * 0x1000
        + bits(rs1) * 0x8000
        + bits(rs2) * 0x10_0000
        + ((immediate >> 5) & 0x3F) as u32 * 0x200_0000
        + ((immediate >> 12) & 1) as u32 * 0x8000_0000
}

/// The U format.
#[tactic(auto, unfolding(crate::specs::Words::u_word))]
pub fn u_word(opcode: u32, rd: Reg, immediate: u64) -> u32
    requires { opcode < 2 ^ 7 }
    ensures { result ≡ u_word opcode rd immediate }
{
    opcode + bits(rd) * 0x80 + ((immediate >> 12) & 0xF_FFFF) as u32 * 0x1000
}

/// The J format.
#[tactic(auto, unfolding(crate::specs::Words::j_word))]
pub fn j_word(opcode: u32, rd: Reg, immediate: u64) -> u32
    requires { opcode < 2 ^ 7 }
    ensures { result ≡ j_word opcode rd immediate }
{
    opcode
        + bits(rd) * 0x80
        + ((immediate >> 12) & 0xFF) as u32 * 0x1000
        + ((immediate >> 11) & 1) as u32 * 0x10_0000
        + ((immediate >> 1) & 0x3FF) as u32 * 0x20_0000
        + ((immediate >> 20) & 1) as u32 * 0x8000_0000
}
