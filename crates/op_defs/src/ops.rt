// Instructions, and what they ask for.

use arch_defs::{Fence, Reg, Width};

/// Arithmetic on 64 bits, of RV64I and M.
#[derive(Clone, Copy)]
pub enum AluOp {
    Add,
    Sub,
    Sll,
    Slt,
    Sltu,
    Xor,
    Srl,
    Sra,
    Or,
    And,
    Mul,
    Mulh,
    Mulhsu,
    Mulhu,
    Div,
    Divu,
    Rem,
    Remu,
}

/// Arithmetic on the low 32 bits, whose result is sign extended.
#[derive(Clone, Copy)]
pub enum WordOp {
    Add,
    Sub,
    Sll,
    Srl,
    Sra,
    Mul,
    Div,
    Divu,
    Rem,
    Remu,
}

/// What an atomic memory operation makes of the old value and its operand.
#[derive(Clone, Copy)]
pub enum AmoOp {
    Swap,
    Add,
    Xor,
    And,
    Or,
    Min,
    Max,
    Minu,
    Maxu,
}

/// The test of a conditional branch.
#[derive(Clone, Copy)]
pub enum Test {
    Eq,
    Ne,
    Lt,
    Ge,
    Ltu,
    Geu,
}

/// What an instruction on a control and status register does to it.
#[derive(Clone, Copy)]
pub enum CsrOp {
    Write,
    Set,
    Clear,
}

/// The operand of such an instruction: a register, or five bits of the word.
#[derive(Clone, Copy)]
pub enum CsrSource {
    Register(Reg),
    Immediate(u8),
}

/// An instruction of RV64IMA, Zicsr, Zifencei, the supervisor and the hypervisor extension. Immediates
/// and offsets are sign extended to 64 bits; shifts by an immediate have the amount there. aq and rl of
/// atomic operations, and the fields of FENCE and FENCE.I, change nothing on one hart, and are left out.
#[derive(Clone, Copy)]
pub enum Op {
    Lui {
        rd: Reg,
        immediate: u64,
    },
    Auipc {
        rd: Reg,
        immediate: u64,
    },
    Jal {
        rd: Reg,
        offset: u64,
    },
    Jalr {
        rd: Reg,
        rs1: Reg,
        offset: u64,
    },
    Branch {
        test: Test,
        rs1: Reg,
        rs2: Reg,
        offset: u64,
    },
    Load {
        width: Width,
        signed: bool,
        rd: Reg,
        rs1: Reg,
        offset: u64,
    },
    Store {
        width: Width,
        rs1: Reg,
        rs2: Reg,
        offset: u64,
    },
    AluImmediate {
        op: AluOp,
        rd: Reg,
        rs1: Reg,
        immediate: u64,
    },
    Alu {
        op: AluOp,
        rd: Reg,
        rs1: Reg,
        rs2: Reg,
    },
    WordImmediate {
        op: WordOp,
        rd: Reg,
        rs1: Reg,
        immediate: u64,
    },
    Word {
        op: WordOp,
        rd: Reg,
        rs1: Reg,
        rs2: Reg,
    },
    Fence,
    FenceI,
    LoadReserved {
        width: Width,
        rd: Reg,
        rs1: Reg,
    },
    StoreConditional {
        width: Width,
        rd: Reg,
        rs1: Reg,
        rs2: Reg,
    },
    Amo {
        op: AmoOp,
        width: Width,
        rd: Reg,
        rs1: Reg,
        rs2: Reg,
    },
    Ecall,
    Ebreak,
    Sret,
    Wfi,
    Csr {
        op: CsrOp,
        source: CsrSource,
        rd: Reg,
        number: u16,
    },
    SfenceVma {
        rs1: Reg,
        rs2: Reg,
    },
    HfenceVvma {
        rs1: Reg,
        rs2: Reg,
    },
    HfenceGvma {
        rs1: Reg,
        rs2: Reg,
    },
    /// HLV.
    GuestLoad {
        width: Width,
        signed: bool,
        rd: Reg,
        rs1: Reg,
    },
    /// HLVX, whose value is not sign extended for a half and for a word.
    GuestFetch {
        width: Width,
        rd: Reg,
        rs1: Reg,
    },
    /// HSV.
    GuestStore {
        width: Width,
        rs1: Reg,
        rs2: Reg,
    },
}

/// What an instruction asks for, read off the registers alone. Unless said otherwise pc goes on by 4.
#[derive(Clone, Copy)]
pub enum Effect {
    /// `rd` becomes `value`, and pc `next`.
    Sets { rd: Reg, value: u64, next: u64 },
    /// An exception of this cause, with what stval gets.
    Raises { cause: u64, tval: u64 },
    /// An access to data.
    Data(DataAccess),
    /// A call of the execution environment.
    Calls,
    /// What the mode decides on.
    Privileged(Privileged),
}

/// The one access to data that an instruction makes: where, how wide, and what for.
#[derive(Clone, Copy)]
pub struct DataAccess {
    /// A virtual address.
    pub address: u64,
    pub width: Width,
    pub purpose: Purpose,
}

/// What an access to data is for.
#[derive(Clone, Copy)]
pub enum Purpose {
    /// A load, or HLV: `rd` becomes what is loaded, extended by its sign or by zeros.
    Load { signed: bool, rd: Reg },
    /// HLVX: `rd` becomes what is loaded, extended by zeros, where the page may be executed.
    LoadCode { rd: Reg },
    /// A store, or HSV: the low bytes of `value` are stored.
    Store { value: u64 },
    /// LR: `rd` becomes what is loaded, sign extended, and the place is reserved.
    Reserve { rd: Reg },
    /// SC: the low bytes of `value` are stored if the place is reserved. `rd` becomes 0 if they are and 1
    /// if not, and nothing is reserved any more.
    StoreReserved { value: u64, rd: Reg },
    /// An atomic memory operation: `rd` becomes what is loaded, sign extended, and what `op` makes of it
    /// and `operand` is stored.
    Modify { op: AmoOp, operand: u64, rd: Reg },
}

/// What an instruction of opcode SYSTEM asks for, which the mode decides.
#[derive(Clone, Copy)]
pub enum Privileged {
    /// `rd` becomes what the register of this number shows, which, if it `writes`, becomes what `op` makes
    /// of that and `operand`.
    Csr {
        op: CsrOp,
        number: u16,
        operand: u64,
        writes: bool,
        rd: Reg,
    },
    Sret,
    Wfi,
    /// SFENCE.VMA, HFENCE.VVMA and HFENCE.GVMA, with what each names.
    SfenceVma(Fence),
    HfenceVvma(Fence),
    HfenceGvma(Fence),
    /// HLV, HLVX or HSV: an access that is made as VS or VU (Privileged Architecture 20211203, 8.3.1).
    HlvAccess(DataAccess),
}
