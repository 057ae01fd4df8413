// A guest hypervisor with one nested guest, whose second stage it changes command by command.

ghost use Rattle.std.specs.Prelude.{◌≡◌, ◌≤◌, length, IfOk, OnOk};
ghost use Rattle.rv64_asm.specs.Plans.{empty_plan};
ghost use Rattle.work_images.specs.Lines.{with_all_lines};
ghost use Rattle.work_images.specs.Program.{handler, image_plan, letters, nested, program, serving, setup};
ghost use Rattle.work_images.specs.Guests.{image_bytes};

use crate::instructions::{
    add, addi, auipc, beq, csrrs, csrrw, hfence_gvma, jal, lbu, ld, lui, sd,
};
use crate::lines::{Label, Line, add_all};
use no_memory::NoMemory;
use op_defs::Op;
use rv64_asm::{AsmFault, Image};
use std::alloc::Global;

const SSTATUS: u16 = 0x100;

const STVEC: u16 = 0x105;

const SEPC: u16 = 0x141;

const SCAUSE: u16 = 0x142;

const VSATP: u16 = 0x280;

const HSTATUS: u16 = 0x600;

const HGATP: u16 = 0x680;

// Sets hgatp, vsatp and the trap handler, and what SRET enters.
fn setup() -> [Line; 13]
    ensures { result ≡ setup }
{
    [
        Line::Op(auipc(8, 0)),
        Line::Op(ld(5, 0x400, 8)),
        Line::Op(csrrw(0, HGATP, 5)),
        Line::Op(ld(5, 0x408, 8)),
        Line::Op(csrrw(0, VSATP, 5)),
        Line::Op(addi(5, 8, 0x60)),
        Line::Op(csrrw(0, STVEC, 5)),
        Line::Op(addi(5, 0, 0x100)),
        Line::Op(csrrs(0, SSTATUS, 5)),
        Line::Op(addi(5, 0, 0x80)),
        Line::Op(csrrs(0, HSTATUS, 5)),
        Line::Op(lui(9, 0x20000)),
        Line::Op(add(9, 9, 8)),
    ]
}

// Takes a command: a store, a fence, and a run of the nested guest.
fn serving() -> [Line; 13]
    ensures { result ≡ serving }
{
    [
        Line::Label(Label::Again),
        Line::Op(ld(6, 0, 9)),
        Line::To(beq(6, 0), Label::Done),
        Line::Op(ld(7, 8, 9)),
        Line::Op(sd(7, 0, 6)),
        Line::Op(ld(7, 0x10, 9)),
        Line::To(beq(7, 0), Label::Unfenced),
        Line::Op(hfence_gvma(7, 0)),
        Line::Label(Label::Unfenced),
        Line::Op(ld(11, 0x18, 9)),
        Line::Op(addi(9, 9, 0x20)),
        Line::Op(csrrw(0, SEPC, 0)),
        Line::Op(Op::Sret),
    ]
}

// The trap handler: puts a byte, and goes on; after the last command, the end.
fn handler() -> [Line; 11]
    ensures { result ≡ handler }
{
    [
        Line::Op(csrrs(5, SCAUSE, 0)),
        Line::Op(addi(6, 0, 0xA)),
        Line::To(beq(5, 6), Label::Put),
        Line::Op(addi(10, 5, 0x20)),
        Line::Label(Label::Put),
        Line::Op(addi(17, 0, 1)),
        Line::Op(Op::Ecall),
        Line::To(jal(0), Label::Again),
        Line::Label(Label::Done),
        Line::Op(addi(17, 0, 8)),
        Line::Op(Op::Ecall),
    ]
}

// The nested guest's code, its hgatp and vsatp, and its table, which maps one page of code.
fn nested() -> [Line; 7]
    ensures { result ≡ nested }
{
    [
        Line::OpAt(0x1000, lbu(10, 0, 11)),
        Line::OpAt(0x1004, Op::Ecall),
        Line::DoubleAt(0x400, 0x8000_1000_0008_0004),
        Line::DoubleAt(0x408, 0),
        Line::DoubleAt(0x4000, 0x2000_2001),
        Line::DoubleAt(0x8000, 0x2000_2401),
        Line::DoubleAt(0x9000, 0x2000_045B),
    ]
}

// Adds a letter to each page of data.
fn add_letters(image: &mut Image) -> Result<(), NoMemory>
    ensures { OnOk result (image.new ≡ with_all_lines image.old letters) }
{
    for page in 0..15u8 {
        Line::ByteAt(0xA000 + 0x1000 * page as u64, 65 + page).add(image)?;
    }
    Ok(())
}

// The program, without commands.
fn add_program(image: &mut Image) -> Result<(), NoMemory>
    requires { image.old ≡ empty_plan }
    ensures { OnOk result (image.new ≡ with_all_lines image.old program) }
{
    add_all(image, &setup())?;
    add_all(image, &serving())?;
    add_all(image, &handler())?;
    add_all(image, &nested())?;
    add_letters(image)?;
    Ok(())
}

/// The image with these bytes of commands.
pub fn image_with(alloc: Global, commands: &[u8]) -> Result<Vec<u8>, NoMemory>
    requires { length commands.now ≤ 320008 }
    ensures { IfOk result (λ v. v.items ≡ image_bytes (image_plan commands.now)) }
{
    let mut image = Image::new(alloc);
    add_program(&mut image)?;
    image.place(0x20000, commands)?;
    match image.finish() {
        Ok(bytes) => Ok(bytes),
        Err(AsmFault::NoMemory) => Err(NoMemory),
        // Each label is set, and near.
        Err(AsmFault::TooFar(_)) => unreachable!(),
        Err(AsmFault::NoLabel(_)) => unreachable!(),
    }
}
