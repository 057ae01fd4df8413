// The assembler: words of instructions, and images.

ghost use Rattle.std.specs.Prelude.{◌≡◌, true};
ghost use Rattle.rv64_asm.specs.Plans.{is_aimed};

use arch_defs::Reg;
use no_memory::NoMemory;
use op_defs::{AluOp, Op, Test};
use rv64_asm::{AsmFault, Image, encode, fits};
use std::alloc::Global;

// ADDI x0, x0, 0.
fn nothing() -> Op {
    Op::AluImmediate {
        op: AluOp::Add,
        rd: Reg::new(0),
        rs1: Reg::new(0),
        immediate: 0,
    }
}

#[tactic(auto, unfolding(rv64_asm::specs::Plans::is_aimed))]
fn beq() -> Op
    ensures { is_aimed result ≡ true }
{
    Op::Branch {
        test: Test::Eq,
        rs1: Reg::new(0),
        rs2: Reg::new(0),
        offset: 0,
    }
}

#[tactic(auto, unfolding(rv64_asm::specs::Plans::is_aimed))]
fn jal() -> Op
    ensures { is_aimed result ≡ true }
{
    Op::Jal {
        rd: Reg::new(0),
        offset: 0,
    }
}

#[test]
fn a_word(rt: HostRuntime) {
    let op = nothing();
    let held: bool = fits(&op);
    assert!(rt; held);
    let word: u32 = encode(&op);
    assert!(rt; word == 0x13);
}

fn push(image: &mut Image, op: Op) -> Result<(), NoMemory> {
    if fits(&op) { image.push(op) } else { Ok(()) }
}

fn label(image: &mut Image, id: u32) -> Result<(), NoMemory> {
    if image.has(id) {
        Ok(())
    } else {
        image.label(id)
    }
}

fn place(image: &mut Image, at: u64, bytes: &[u8]) -> Result<(), NoMemory> {
    if at < 0x10_0000 && bytes.len() < 0x10_0000 {
        image.place(at, bytes)
    } else {
        Ok(())
    }
}

// What a refusal keeps: a distance, or a label.
fn told(fault: AsmFault) -> (i64, u32) {
    match fault {
        AsmFault::NoMemory => (0, 0),
        AsmFault::TooFar(distance) => (distance, 0),
        AsmFault::NoLabel(id) => (0, id),
    }
}

fn end_of(image: Image) -> Result<usize, AsmFault> {
    let bytes: Vec<u8> = image.finish()?;
    Ok(bytes.len())
}

// JAL to a label that was never set.
#[test]
fn a_label_is_missing(rt: HostRuntime) {
    let mut image: Image = Image::new(rt.alloc());
    image.push_to(jal(), 7u32).expect(&rt, "memory");
    let end = end_of(image);
    assert!(rt; end.err().map(told) == Some((0, 7)));
}

// BEQ over that number of instructions.
fn end_over(alloc: Global, count: u32) -> Result<Result<usize, AsmFault>, NoMemory> {
    let mut image = Image::new(alloc);
    image.push_to(beq(), 1u32)?;
    for _ in 0..count {
        push(&mut image, nothing())?;
    }
    label(&mut image, 1)?;
    Ok(end_of(image))
}

#[test]
fn a_branch_is_too_far(rt: HostRuntime) {
    let far = end_over(rt.alloc(), 1023).expect(&rt, "memory");
    assert!(rt; far.err().map(told) == Some((4096, 0)));
    let near = end_over(rt.alloc(), 1022).expect(&rt, "memory");
    assert!(rt; near.ok() == Some(4092));
}

#[test]
fn placed_bytes_stand_over_instructions(rt: HostRuntime) {
    let mut image = Image::new(rt.alloc());
    place(&mut image, 0, &[1, 2, 3, 4, 5]).expect(&rt, "memory");
    push(&mut image, nothing()).expect(&rt, "memory");
    let bytes = image.finish().expect(&rt, "memory");
    assert!(rt; bytes.as_slice() == [1, 2, 3, 4, 5].as_slice());
}
