// What an instruction asks for.

ghost use Rattle.std.specs.Prelude.{◌≡◌};
ghost use Rattle.op_defs.specs.declared.ops.Effect.TheVariants.{Sets, Raises};
ghost use Rattle.op_defs.specs.Meaning.{accesses, accesses_by_hlv, address_at, branch, even, is_branch_taken, is_none, jump, meaning, operand_of, writes};

use arch_defs::{BREAKPOINT, INSTRUCTION_MISALIGNED, Reg, Regs, Width};
use fence_handler::request;
use int_ops::alu;
use op_defs::{CsrOp, CsrSource, DataAccess, Effect, Op, Privileged, Purpose, Test};

/// What an instruction asks for, read off the registers.
#[tactic(auto, unfolding(op_defs::specs::Meaning::meaning))]
pub fn effect_of(op: &Op, regs: &Regs) -> Effect
    ensures { result ≡ meaning op.now regs.now }
{
    let next = regs.pc.wrapping_add(4);
    match *op {
        Op::Lui { rd, immediate } => set(rd, immediate, next),
        Op::Auipc { rd, immediate } => set(rd, regs.pc.wrapping_add(immediate), next),
        Op::Jal { rd, offset } => jump(rd, next, regs.pc.wrapping_add(offset)),
        Op::Jalr { rd, rs1, offset } => jump(rd, next, even(address_at(regs, rs1, offset))),
        Op::Branch {
            test,
            rs1,
            rs2,
            offset,
        } => {
            branch(
                is_branch_taken(test, regs.read(rs1), regs.read(rs2)),
                next,
                regs.pc.wrapping_add(offset),
            )
        }
        Op::Load {
            width,
            signed,
            rd,
            rs1,
            offset,
        } => accesses(
            address_at(regs, rs1, offset),
            width,
            Purpose::Load { signed, rd },
        ),
        Op::Store {
            width,
            rs1,
            rs2,
            offset,
        } => accesses(
            address_at(regs, rs1, offset),
            width,
            Purpose::Store {
                value: regs.read(rs2),
            },
        ),
        Op::AluImmediate {
            rd,
            rs1,
            immediate,
            ..
        }
        | Op::WordImmediate {
            rd,
            rs1,
            immediate,
            ..
        } => set(rd, alu(*op, regs.read(rs1), immediate), next),
        Op::Alu { rd, rs1, rs2, .. } | Op::Word { rd, rs1, rs2, .. } => {
            set(rd, alu(*op, regs.read(rs1), regs.read(rs2)), next)
        }
        Op::Fence | Op::FenceI => set(Reg::new(0), 0, next),
        Op::LoadReserved { width, rd, rs1 } => {
            accesses(regs.read(rs1), width, Purpose::Reserve { rd })
        }
        Op::StoreConditional {
            width,
            rd,
            rs1,
            rs2,
        } => accesses(
            regs.read(rs1),
            width,
            Purpose::StoreReserved {
                value: regs.read(rs2),
                rd,
            },
        ),
        Op::Amo {
            op,
            width,
            rd,
            rs1,
            rs2,
        } => accesses(
            regs.read(rs1),
            width,
            Purpose::Modify {
                op,
                operand: regs.read(rs2),
                rd,
            },
        ),
        Op::Ecall => Effect::Calls,
        Op::Ebreak => Effect::Raises {
            cause: BREAKPOINT,
            tval: regs.pc,
        },
        Op::Sret => Effect::Privileged(Privileged::Sret),
        Op::Wfi => Effect::Privileged(Privileged::Wfi),
        Op::Csr {
            op,
            ref source,
            rd,
            number,
        } => Effect::Privileged(Privileged::Csr {
            op,
            number,
            operand: operand_of(source, regs),
            writes: writes(op, source),
            rd,
        }),
        Op::SfenceVma { .. } => Effect::Privileged(Privileged::SfenceVma(request(*op, regs))),
        Op::HfenceVvma { .. } => Effect::Privileged(Privileged::HfenceVvma(request(*op, regs))),
        Op::HfenceGvma { .. } => Effect::Privileged(Privileged::HfenceGvma(request(*op, regs))),
        Op::GuestLoad {
            width,
            signed,
            rd,
            rs1,
        } => accesses_by_hlv(regs.read(rs1), width, Purpose::Load { signed, rd }),
        Op::GuestFetch { width, rd, rs1 } => {
            accesses_by_hlv(regs.read(rs1), width, Purpose::LoadCode { rd })
        }
        Op::GuestStore { width, rs1, rs2 } => {
            accesses_by_hlv(
                regs.read(rs1),
                width,
                Purpose::Store {
                    value: regs.read(rs2),
                },
            )
        }
    }
}

fn set(rd: Reg, value: u64, next: u64) -> Effect
    ensures { result ≡ Sets rd value next }
{
    Effect::Sets { rd, value, next }
}

fn accesses(address: u64, width: Width, purpose: Purpose) -> Effect
    ensures { result ≡ accesses address width purpose }
{
    Effect::Data(DataAccess {
        address,
        width,
        purpose,
    })
}

fn accesses_by_hlv(address: u64, width: Width, purpose: Purpose) -> Effect
    ensures { result ≡ accesses_by_hlv address width purpose }
{
    Effect::Privileged(Privileged::HlvAccess(DataAccess {
        address,
        width,
        purpose,
    }))
}

/// The address that a load, a store or a jump by register has.
#[inline(always)]
pub fn address_at(regs: &Regs, rs1: Reg, offset: u64) -> u64
    ensures { result ≡ address_at regs.now rs1 offset }
{
    regs.read(rs1).wrapping_add(offset)
}

/// An address with its lowest bit clear.
#[inline(always)]
pub fn even(address: u64) -> u64
    ensures { result ≡ even address }
{
    address - address % 2
}

/// Whether a branch is taken.
#[inline(always)]
pub fn is_branch_taken(test: Test, a: u64, b: u64) -> bool
    ensures { result ≡ is_branch_taken test a b }
{
    match test {
        Test::Eq => a == b,
        Test::Ne => a != b,
        Test::Lt => a.cast_signed() < b.cast_signed(),
        Test::Ge => a.cast_signed() >= b.cast_signed(),
        Test::Ltu => a < b,
        Test::Geu => a >= b,
    }
}

/// The operand of an instruction on a control and status register.
pub fn operand_of(source: &CsrSource, regs: &Regs) -> u64
    ensures { result ≡ operand_of source.now regs.now }
{
    match *source {
        CsrSource::Register(rs1) => regs.read(rs1),
        CsrSource::Immediate(immediate) => immediate as u64,
    }
}

// Whether the operand is x0, or an immediate of 0.
fn is_none(source: &CsrSource) -> bool
    ensures { result ≡ is_none source.now }
{
    match *source {
        CsrSource::Register(rs1) => rs1.number() == 0,
        CsrSource::Immediate(immediate) => immediate == 0,
    }
}

/// Whether an instruction on a control and status register writes it: not where it sets or clears the bits of
/// x0, or of an immediate of 0 (Unprivileged ISA 20191213, 9.1).
pub fn writes(op: CsrOp, source: &CsrSource) -> bool
    ensures { result ≡ writes op source.now }
{
    match op {
        CsrOp::Write => true,
        CsrOp::Set | CsrOp::Clear => !is_none(source),
    }
}

fn jump(rd: Reg, next: u64, target: u64) -> Effect
    ensures { result ≡ jump rd next target }
{
    if target % 4 == 0 {
        set(rd, next, target)
    } else {
        misaligned(target)
    }
}

fn branch(taken: bool, next: u64, target: u64) -> Effect
    ensures { result ≡ branch taken next target }
{
    if !taken {
        set(Reg::new(0), 0, next)
    } else if target % 4 == 0 {
        set(Reg::new(0), 0, target)
    } else {
        misaligned(target)
    }
}

fn misaligned(target: u64) -> Effect
    ensures { result ≡ Raises INSTRUCTION_MISALIGNED target }
{
    Effect::Raises {
        cause: INSTRUCTION_MISALIGNED,
        tval: target,
    }
}
