// Instructions with their operands in an assembler's order.

ghost use Rattle.std.specs.Prelude.{◌≡◌, ◌<◌};
ghost use Rattle.work_images.specs.Instructions.{add, addi, auipc, beq, csrrs, csrrw, hfence_gvma, jal};
ghost use Rattle.work_images.specs.Instructions.{lbu, ld, lui, sd};

use arch_defs::{Reg, Width};
use op_defs::{AluOp, CsrOp, CsrSource, Op, Test};

pub fn auipc(rd: u8, immediate: u64) -> Op
    requires { rd < 32 }
    ensures { result ≡ auipc rd immediate }
{
    Op::Auipc {
        rd: Reg::new(rd),
        immediate,
    }
}

pub fn lui(rd: u8, immediate: u64) -> Op
    requires { rd < 32 }
    ensures { result ≡ lui rd immediate }
{
    Op::Lui {
        rd: Reg::new(rd),
        immediate,
    }
}

pub fn addi(rd: u8, rs1: u8, immediate: u64) -> Op
    requires rd { rd < 32 }
    requires rs1 { rs1 < 32 }
    ensures { result ≡ addi rd rs1 immediate }
{
    Op::AluImmediate {
        op: AluOp::Add,
        rd: Reg::new(rd),
        rs1: Reg::new(rs1),
        immediate,
    }
}

pub fn add(rd: u8, rs1: u8, rs2: u8) -> Op
    requires rd { rd < 32 }
    requires rs1 { rs1 < 32 }
    requires rs2 { rs2 < 32 }
    ensures { result ≡ add rd rs1 rs2 }
{
    Op::Alu {
        op: AluOp::Add,
        rd: Reg::new(rd),
        rs1: Reg::new(rs1),
        rs2: Reg::new(rs2),
    }
}

/// `ld rd, offset(rs1)`
pub fn ld(rd: u8, offset: u64, rs1: u8) -> Op
    requires rd { rd < 32 }
    requires rs1 { rs1 < 32 }
    ensures { result ≡ ld rd offset rs1 }
{
    Op::Load {
        width: Width::Double,
        signed: true,
        rd: Reg::new(rd),
        rs1: Reg::new(rs1),
        offset,
    }
}

/// `lbu rd, offset(rs1)`
pub fn lbu(rd: u8, offset: u64, rs1: u8) -> Op
    requires rd { rd < 32 }
    requires rs1 { rs1 < 32 }
    ensures { result ≡ lbu rd offset rs1 }
{
    Op::Load {
        width: Width::Byte,
        signed: false,
        rd: Reg::new(rd),
        rs1: Reg::new(rs1),
        offset,
    }
}

/// `sd rs2, offset(rs1)`
pub fn sd(rs2: u8, offset: u64, rs1: u8) -> Op
    requires rs1 { rs1 < 32 }
    requires rs2 { rs2 < 32 }
    ensures { result ≡ sd rs2 offset rs1 }
{
    Op::Store {
        width: Width::Double,
        rs1: Reg::new(rs1),
        rs2: Reg::new(rs2),
        offset,
    }
}

pub fn csrrw(rd: u8, number: u16, rs1: u8) -> Op
    requires rd { rd < 32 }
    requires rs1 { rs1 < 32 }
    ensures { result ≡ csrrw rd number rs1 }
{
    Op::Csr {
        op: CsrOp::Write,
        source: CsrSource::Register(Reg::new(rs1)),
        rd: Reg::new(rd),
        number,
    }
}

pub fn csrrs(rd: u8, number: u16, rs1: u8) -> Op
    requires rd { rd < 32 }
    requires rs1 { rs1 < 32 }
    ensures { result ≡ csrrs rd number rs1 }
{
    Op::Csr {
        op: CsrOp::Set,
        source: CsrSource::Register(Reg::new(rs1)),
        rd: Reg::new(rd),
        number,
    }
}

/// A branch whose offset is left to its label.
pub fn beq(rs1: u8, rs2: u8) -> Op
    requires rs1 { rs1 < 32 }
    requires rs2 { rs2 < 32 }
    ensures { result ≡ beq rs1 rs2 }
{
    Op::Branch {
        test: Test::Eq,
        rs1: Reg::new(rs1),
        rs2: Reg::new(rs2),
        offset: 0,
    }
}

/// A jump whose offset is left to its label.
pub fn jal(rd: u8) -> Op
    requires { rd < 32 }
    ensures { result ≡ jal rd }
{
    Op::Jal {
        rd: Reg::new(rd),
        offset: 0,
    }
}

pub fn hfence_gvma(rs1: u8, rs2: u8) -> Op
    requires rs1 { rs1 < 32 }
    requires rs2 { rs2 < 32 }
    ensures { result ≡ hfence_gvma rs1 rs2 }
{
    Op::HfenceGvma {
        rs1: Reg::new(rs1),
        rs2: Reg::new(rs2),
    }
}
