// funct3, funct7 and the like, of the groups of instructions.

ghost use Rattle.std.specs.Prelude.{◌≡◌, ◌<◌, ◌^◌};
ghost use Rattle.rv64_asm.specs.Words.{test_funct3, width_code, load_funct3, alu_funct3, alu_funct7};
ghost use Rattle.rv64_asm.specs.Words.{amo_funct7, counterpart, csr_code, guest_load_rs2, is_shift};

use arch_defs::Width;
use op_defs::{AluOp, AmoOp, CsrOp, Test, WordOp};

#[tactic(auto, unfolding(crate::specs::Words::test_funct3))]
pub fn test_funct3(test: Test) -> u32
    ensures value { result ≡ test_funct3 test }
    ensures small { result < 2 ^ 3 }
{
    match test {
        Test::Eq => 0b000,
        Test::Ne => 0b001,
        Test::Lt => 0b100,
        Test::Ge => 0b101,
        Test::Ltu => 0b110,
        Test::Geu => 0b111,
    }
}

/// The binary logarithm of a width in bytes.
#[tactic(auto, unfolding(crate::specs::Words::width_code))]
pub fn width_code(width: Width) -> u32
    ensures value { result ≡ width_code width }
    ensures small { result < 2 ^ 2 }
{
    match width {
        Width::Byte => 0,
        Width::Half => 1,
        Width::Word => 2,
        Width::Double => 3,
    }
}

#[tactic(auto, unfolding(crate::specs::Words::load_funct3))]
pub fn load_funct3(width: Width, signed: bool) -> u32
    ensures value { result ≡ load_funct3 width signed }
    ensures small { result < 2 ^ 3 }
{
    if signed {
        width_code(width)
    } else {
        width_code(width) + 0b100
    }
}

#[tactic(auto, unfolding(crate::specs::Words::alu_funct3))]
pub fn alu_funct3(op: AluOp) -> u32
    ensures value { result ≡ alu_funct3 op }
    ensures small { result < 2 ^ 3 }
{
    match op {
        AluOp::Add | AluOp::Sub | AluOp::Mul => 0b000,
        AluOp::Sll | AluOp::Mulh => 0b001,
        AluOp::Slt | AluOp::Mulhsu => 0b010,
        AluOp::Sltu | AluOp::Mulhu => 0b011,
        AluOp::Xor | AluOp::Div => 0b100,
        AluOp::Srl | AluOp::Sra | AluOp::Divu => 0b101,
        AluOp::Or | AluOp::Rem => 0b110,
        AluOp::And | AluOp::Remu => 0b111,
    }
}

#[tactic(auto, unfolding(crate::specs::Words::alu_funct7))]
pub fn alu_funct7(op: AluOp) -> u32
    ensures value { result ≡ alu_funct7 op }
    ensures small { result < 127 }
{
    match op {
        AluOp::Sub | AluOp::Sra => 0b0100000,
        AluOp::Mul | AluOp::Mulh | AluOp::Mulhsu | AluOp::Mulhu => 0b0000001,
        AluOp::Div | AluOp::Divu | AluOp::Rem | AluOp::Remu => 0b0000001,
        _ => 0,
    }
}

/// The op on 64 bits that has the funct3 and the funct7 of an op on words.
#[tactic(auto, unfolding(crate::specs::Words::counterpart))]
pub fn counterpart(op: WordOp) -> AluOp
    ensures { result ≡ counterpart op }
{
    match op {
        WordOp::Add => AluOp::Add,
        WordOp::Sub => AluOp::Sub,
        WordOp::Sll => AluOp::Sll,
        WordOp::Srl => AluOp::Srl,
        WordOp::Sra => AluOp::Sra,
        WordOp::Mul => AluOp::Mul,
        WordOp::Div => AluOp::Div,
        WordOp::Divu => AluOp::Divu,
        WordOp::Rem => AluOp::Rem,
        WordOp::Remu => AluOp::Remu,
    }
}

/// Whether an op with an immediate is a shift.
#[tactic(auto, unfolding(crate::specs::Words::is_shift))]
pub fn is_shift(op: AluOp) -> bool
    ensures { result ≡ is_shift op }
{
    match op {
        AluOp::Sll | AluOp::Srl | AluOp::Sra => true,
        _ => false,
    }
}

/// funct5, with aq and rl clear.
#[tactic(auto, unfolding(crate::specs::Words::amo_funct7))]
pub fn amo_funct7(op: AmoOp) -> u32
    ensures value { result ≡ amo_funct7 op }
    ensures small { result < 127 }
{
    match op {
        AmoOp::Swap => 0b0000100,
        AmoOp::Add => 0b0000000,
        AmoOp::Xor => 0b0010000,
        AmoOp::And => 0b0110000,
        AmoOp::Or => 0b0100000,
        AmoOp::Min => 0b1000000,
        AmoOp::Max => 0b1010000,
        AmoOp::Minu => 0b1100000,
        AmoOp::Maxu => 0b1110000,
    }
}

#[tactic(auto, unfolding(crate::specs::Words::csr_code))]
pub fn csr_code(op: CsrOp) -> u32
    ensures value { result ≡ csr_code op }
    ensures small { result < 2 ^ 2 }
{
    match op {
        CsrOp::Write => 0b01,
        CsrOp::Set => 0b10,
        CsrOp::Clear => 0b11,
    }
}

/// What rs2 of HLV says of the extension.
#[tactic(auto, unfolding(crate::specs::Words::guest_load_rs2))]
pub fn guest_load_rs2(signed: bool) -> u32
    ensures value { result ≡ guest_load_rs2 signed }
    ensures small { result < 2 ^ 1 }
{
    if signed { 0 } else { 1 }
}
