// When the fields of an op fit.

ghost use Rattle.std.specs.Prelude.{◌≡◌};
ghost use Rattle.rv64_asm.specs.Fitting.{fits, has_guest_fetch, has_load, in_range, in_steps};
ghost use Rattle.rv64_asm.specs.Fitting.{alu_immediate_fits, is_atomic_width, source_fits, word_immediate_fits};

use arch_defs::Width;
use op_defs::{AluOp, CsrSource, Op, WordOp};

/// Whether the fields of an op fit its format, so that a word has it: immediates and offsets in their
/// range, and multiples of what they must be of; amounts of shifts below 64 or 32; an op and a width that
/// the instruction has; a CSR's number below 4096, and its immediate below 32.
#[tactic(auto, unfolding(crate::specs::Fitting::fits))]
pub fn fits(op: &Op) -> bool
    ensures { result ≡ fits op.now }
{
    match *op {
        Op::Lui { immediate, .. } | Op::Auipc { immediate, .. } => is_upper(immediate),
        Op::Jal { offset, .. } => is_jump_offset(offset),
        Op::Branch { offset, .. } => is_branch_offset(offset),
        Op::Jalr { offset, .. } | Op::Store { offset, .. } => is_12_bits(offset),
        Op::Load {
            width,
            signed,
            offset,
            ..
        } => has_load(width, signed) && is_12_bits(offset),
        Op::AluImmediate { op, immediate, .. } => alu_immediate_fits(op, immediate),
        Op::WordImmediate { op, immediate, .. } => word_immediate_fits(op, immediate),
        Op::LoadReserved { width, .. }
        | Op::StoreConditional { width, .. }
        | Op::Amo { width, .. } => is_atomic_width(width),
        Op::Csr { source, number, .. } => source_fits(source) && number < 4096,
        Op::GuestLoad { width, signed, .. } => has_load(width, signed),
        Op::GuestFetch { width, .. } => has_guest_fetch(width),
        _ => true,
    }
}

fn is_12_bits(x: u64) -> bool
    ensures { result ≡ in_range 12 x }
{
    x < 0x800 || x >= 0xFFFF_FFFF_FFFF_F800
}

fn is_branch_offset(x: u64) -> bool
    ensures { result ≡ in_steps 13 2 x }
{
    (x < 0x1000 || x >= 0xFFFF_FFFF_FFFF_F000) && x % 2 == 0
}

fn is_jump_offset(x: u64) -> bool
    ensures { result ≡ in_steps 21 2 x }
{
    (x < 0x10_0000 || x >= 0xFFFF_FFFF_FFF0_0000) && x % 2 == 0
}

fn is_upper(x: u64) -> bool
    ensures { result ≡ in_steps 32 4096 x }
{
    (x < 0x8000_0000 || x >= 0xFFFF_FFFF_8000_0000) && x % 4096 == 0
}

#[tactic(auto, unfolding(crate::specs::Fitting::is_atomic_width))]
fn is_atomic_width(width: Width) -> bool
    ensures { result ≡ is_atomic_width width }
{
    match width {
        Width::Byte | Width::Half => false,
        Width::Word | Width::Double => true,
    }
}

#[tactic(auto, unfolding(crate::specs::Fitting::has_load))]
fn has_load(width: Width, signed: bool) -> bool
    ensures { result ≡ has_load width signed }
{
    match (width, signed) {
        (Width::Double, false) => false,
        _ => true,
    }
}

#[tactic(auto, unfolding(crate::specs::Fitting::has_guest_fetch))]
fn has_guest_fetch(width: Width) -> bool
    ensures { result ≡ has_guest_fetch width }
{
    match width {
        Width::Half | Width::Word => true,
        Width::Byte | Width::Double => false,
    }
}

#[tactic(auto, unfolding(crate::specs::Fitting::alu_immediate_fits))]
fn alu_immediate_fits(op: AluOp, x: u64) -> bool
    ensures { result ≡ alu_immediate_fits op x }
{
    match op {
        AluOp::Add | AluOp::Slt | AluOp::Sltu | AluOp::Xor | AluOp::Or | AluOp::And => is_12_bits(
            x,
        ),
        AluOp::Sll | AluOp::Srl | AluOp::Sra => x < 64,
        _ => false,
    }
}

#[tactic(auto, unfolding(crate::specs::Fitting::word_immediate_fits))]
fn word_immediate_fits(op: WordOp, x: u64) -> bool
    ensures { result ≡ word_immediate_fits op x }
{
    match op {
        WordOp::Add => is_12_bits(x),
        WordOp::Sll | WordOp::Srl | WordOp::Sra => x < 32,
        _ => false,
    }
}

#[tactic(auto, unfolding(crate::specs::Fitting::source_fits))]
fn source_fits(source: CsrSource) -> bool
    ensures { result ≡ source_fits source }
{
    match source {
        CsrSource::Register(_) => true,
        CsrSource::Immediate(x) => x < 32,
    }
}
