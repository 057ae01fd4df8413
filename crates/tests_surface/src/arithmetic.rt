// Arithmetic and atomic operations by their instructions, and words decoded.

ghost use Rattle.int_ops.specs.Results.{IsAmo, IsArithmetic};

use arch_defs::{Reg, Width};
use int_ops::{alu, amo};
use op_defs::{AluOp, AmoOp, Op, WordOp};
use rv64_decode::decode;

// x3 from x1 and x2.
fn of(op: AluOp) -> Op
    ensures { IsArithmetic result }
{
    Op::Alu {
        op,
        rd: Reg::new(3),
        rs1: Reg::new(1),
        rs2: Reg::new(2),
    }
}

// The same on words.
fn of_words(op: WordOp) -> Op
    ensures { IsArithmetic result }
{
    Op::Word {
        op,
        rd: Reg::new(3),
        rs1: Reg::new(1),
        rs2: Reg::new(2),
    }
}

// An operation, its operands, and what it makes of them (Unprivileged ISA 20191213, 7.1 and 7.2).
struct Row(AluOp, u64, u64, u64);

const LEAST: u64 = 0x8000_0000_0000_0000;

const ONES: u64 = 0xFFFF_FFFF_FFFF_FFFF;

static ROWS: [Row; 5] = [
    Row(AluOp::Div, LEAST, ONES, LEAST),
    Row(AluOp::Rem, LEAST, ONES, 0),
    Row(AluOp::Divu, 7, 0, ONES),
    Row(AluOp::Remu, 7, 0, 7),
    Row(AluOp::Mulhsu, ONES, ONES, ONES),
];

#[test]
fn divisions_and_products(rt: HostRuntime) {
    for &Row(op, a, b, made) in &ROWS {
        assert!(rt; alu(of(op), a, b) == made);
    }
}

// SRAW by 31 of a word with its sign.
#[test]
fn words_keep_their_sign(rt: HostRuntime) {
    let made: u64 = alu(of_words(WordOp::Sra), 0x8000_0000u64, 31u64);
    assert!(rt; made == ONES);
}

// ADDI and ADDIW, whose second operand is their immediate.
#[test]
fn immediates(rt: HostRuntime) {
    let add = Op::AluImmediate {
        op: AluOp::Add,
        rd: Reg::new(3),
        rs1: Reg::new(1),
        immediate: 5,
    };
    assert!(rt; alu(add, ONES, 5u64) == 4);
    let add_word = Op::WordImmediate {
        op: WordOp::Add,
        rd: Reg::new(3),
        rs1: Reg::new(1),
        immediate: 1,
    };
    assert!(rt; alu(add_word, 0x7FFF_FFFFu64, 1u64) == 0xFFFF_FFFF_8000_0000);
}

fn of_memory(op: AmoOp, width: Width) -> Op
    ensures { IsAmo result }
{
    Op::Amo {
        op,
        width,
        rd: Reg::new(3),
        rs1: Reg::new(1),
        rs2: Reg::new(2),
    }
}

// AMOMAX.W compares the low words as signed, AMOMAX.D the doublewords.
#[test]
fn atomic_operations(rt: HostRuntime) {
    let word: u64 = amo(of_memory(AmoOp::Max, Width::Word), 0x8000_0000u64, 1u64);
    assert!(rt; word == 1);
    let double: u64 = amo(of_memory(AmoOp::Max, Width::Double), 0x8000_0000u64, 1u64);
    assert!(rt; double == 0x8000_0000);
}

// ADDI x10, x0, 65; the word 0 is not an instruction.
#[test]
fn words_are_decoded(rt: HostRuntime) {
    let none: Option<Op> = decode(0u32);
    assert!(rt; none.is_none());
    let some = decode(0x0410_0513u32);
    assert!(rt;
        matches!(
            some,
            Some(Op::AluImmediate {
                op: AluOp::Add,
                immediate: 65,
                ..
            })
        )
    );
}
