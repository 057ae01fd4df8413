// What a fence names (Privileged Architecture 20211203, 4.2.1, 8.3.1 and 8.3.2).

ghost use Rattle.std.specs.Prelude.{◌≡◌};
ghost use Rattle.op_defs.specs.Meaning.{fence_named, fence_operand, first_fence_named, meaning};
ghost use Rattle.fence_handler.specs.Requests.{IsFence, fence_effect};

use arch_defs::{Fence, Reg, Regs};
use op_defs::Op;

/// What a fence names, by its registers: an HFENCE.GVMA the VMID in the low 7 bits of rs2, and the guest
/// physical page of the address that rs1 has divided by 4; an SFENCE.VMA and an HFENCE.VVMA the ASID in the
/// low 16 bits of rs2, in the place of a VMID, and the virtual page of the address that rs1 has. Where a
/// register is x0, it names none.
#[tactic(auto, unfolding(op_defs::specs::Meaning::meaning))]
pub fn request(op: Op, regs: &Regs) -> Fence
    requires { IsFence op }
    ensures { meaning op regs.now ≡ fence_effect op result }
{
    match op {
        Op::SfenceVma { rs1, rs2 } => first_fence_named(rs1, rs2, regs),
        Op::HfenceVvma { rs1, rs2 } => first_fence_named(rs1, rs2, regs),
        Op::HfenceGvma { rs1, rs2 } => fence_named(rs1, rs2, regs),
        _ => unreachable!(),
    }
}

fn fence_named(rs1: Reg, rs2: Reg, regs: &Regs) -> Fence
    ensures { result ≡ fence_named rs1 rs2 regs.now }
{
    Fence {
        vmid: fence_operand(rs2, regs.read(rs2) % 0x80),
        page: fence_operand(rs1, regs.read(rs1) >> 10),
    }
}

fn first_fence_named(rs1: Reg, rs2: Reg, regs: &Regs) -> Fence
    ensures { result ≡ first_fence_named rs1 rs2 regs.now }
{
    Fence {
        vmid: fence_operand(rs2, regs.read(rs2) % 0x1_0000),
        page: fence_operand(rs1, regs.read(rs1) >> 12),
    }
}

// What a register names: a value, if the register is not x0.
fn fence_operand(register: Reg, value: u64) -> Option<u64>
    ensures { result ≡ fence_operand register value }
{
    if register.number() == 0 {
        None
    } else {
        Some(value)
    }
}
