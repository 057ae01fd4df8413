// Privilege modes, kinds of access and traps.

ghost use Rattle.std.specs.Prelude.{◌≡◌};
ghost use Rattle.arch_defs.specs.Interrupts.{interrupt_of};
ghost use Rattle.arch_defs.specs.Traps.{exception, faults_of, has_guest_address, is_address_code, is_supervisor, is_virtual};

/// The privilege modes with the hypervisor extension, below machine mode: HS and U with V = 0, VS and
/// VU with V = 1 (Privileged Architecture 20211203, 8.1).
#[derive(Clone, Copy, PartialEq, Eq)]
pub enum Mode {
    HS,
    U,
    VS,
    VU,
}

impl Mode {
    /// V, the virtualization mode.
    pub fn is_virtual(self) -> bool
        ensures { result ≡ is_virtual self }
    {
        matches!(self, Mode::VS | Mode::VU)
    }

    /// Whether the nominal privilege is S and not U.
    pub fn is_supervisor(self) -> bool
        ensures { result ≡ is_supervisor self }
    {
        matches!(self, Mode::HS | Mode::VS)
    }

    // Whether an exception writes a guest virtual address to stval, by the mode as which the instruction or
    // its access is made: for HLV, HLVX and HSV it is VS or VU.
    fn has_guest_address(self, code: u64) -> bool
        ensures { result ≡ has_guest_address self code }
    {
        self.is_virtual() && is_address_code(code)
    }
}

/// What an access to memory is for.
#[derive(Clone, Copy, PartialEq, Eq)]
pub enum Access {
    Fetch,
    Load,
    Store,
    /// The load of HLVX, which needs the permission to execute.
    ExecLoad,
    /// The read of a first-stage page-table entry.
    Implicit,
}

impl Access {
    /// The codes of its faults.
    pub fn faults(self) -> FaultCodes
        ensures { result ≡ faults_of self }
    {
        match self {
            Access::Fetch => FaultCodes {
                misaligned: INSTRUCTION_MISALIGNED,
                access: INSTRUCTION_ACCESS_FAULT,
                page: INSTRUCTION_PAGE_FAULT,
                guest_page: INSTRUCTION_GUEST_PAGE_FAULT,
            },
            Access::Load | Access::ExecLoad | Access::Implicit => FaultCodes {
                misaligned: LOAD_MISALIGNED,
                access: LOAD_ACCESS_FAULT,
                page: LOAD_PAGE_FAULT,
                guest_page: LOAD_GUEST_PAGE_FAULT,
            },
            Access::Store => FaultCodes {
                misaligned: STORE_MISALIGNED,
                access: STORE_ACCESS_FAULT,
                page: STORE_PAGE_FAULT,
                guest_page: STORE_GUEST_PAGE_FAULT,
            },
        }
    }
}

/// The codes of the faults of an access (Privileged Architecture 20211203, 4.1.8 and 8.6.1).
#[derive(Clone, Copy, PartialEq, Eq)]
pub struct FaultCodes {
    /// Its address is not a multiple of its width.
    pub misaligned: u64,
    /// Memory has no place for it.
    pub access: u64,
    /// The first stage does not translate its address.
    pub page: u64,
    /// The second stage does not translate its guest physical address.
    pub guest_page: u64,
}

/// A trap, with all that its entry writes (Privileged Architecture 20211203, 8.6).
#[derive(Clone, Copy, PartialEq, Eq)]
pub struct Trap {
    /// The code of the exception or interrupt, without scause's bit 63.
    pub cause: u64,
    pub interrupt: bool,
    /// What stval gets.
    pub tval: u64,
    /// The faulting guest physical address divided by 4.
    pub tval2: u64,
    /// Whether `tval` is a guest virtual address.
    pub gva: bool,
    /// Whether the implicit read of a first-stage entry faulted.
    pub implicit: bool,
}

impl Trap {
    /// The trap of an exception of an instruction or an access made as this mode, with no guest physical
    /// address.
    pub fn of_exception(mode: Mode, cause: u64, tval: u64) -> Trap
        ensures { result ≡ exception mode cause tval }
    {
        Trap {
            cause,
            interrupt: false,
            tval,
            tval2: 0,
            gva: mode.has_guest_address(cause),
            implicit: false,
        }
    }

    /// The trap of the interrupt with this code.
    pub fn of_interrupt(code: u64) -> Trap
        ensures { result ≡ interrupt_of code }
    {
        Trap {
            cause: code,
            interrupt: true,
            tval: 0,
            tval2: 0,
            gva: false,
            implicit: false,
        }
    }
}

// Whether stval gets an address for this exception.
fn is_address_code(code: u64) -> bool
    ensures { result ≡ is_address_code code }
{
    matches!(code, 0 | 1 | 3..=7 | 12 | 13 | 15 | 20 | 21 | 23)
}

/// Instruction address misaligned (Privileged Architecture 20211203, 8.6.1, as all codes here).
pub const INSTRUCTION_MISALIGNED: u64 = 0;

/// Instruction access fault.
pub const INSTRUCTION_ACCESS_FAULT: u64 = 1;

/// Illegal instruction.
pub const ILLEGAL_INSTRUCTION: u64 = 2;

/// Breakpoint.
pub const BREAKPOINT: u64 = 3;

/// Load address misaligned.
pub const LOAD_MISALIGNED: u64 = 4;

/// Load access fault.
pub const LOAD_ACCESS_FAULT: u64 = 5;

/// Store or AMO address misaligned.
pub const STORE_MISALIGNED: u64 = 6;

/// Store or AMO access fault.
pub const STORE_ACCESS_FAULT: u64 = 7;

/// Environment call from U-mode or VU-mode.
pub const ECALL_FROM_USER: u64 = 8;

/// Environment call from HS-mode.
pub const ECALL_FROM_HS: u64 = 9;

/// Environment call from VS-mode.
pub const ECALL_FROM_VS: u64 = 10;

/// Instruction page fault.
pub const INSTRUCTION_PAGE_FAULT: u64 = 12;

/// Load page fault.
pub const LOAD_PAGE_FAULT: u64 = 13;

/// Store or AMO page fault.
pub const STORE_PAGE_FAULT: u64 = 15;

/// Instruction guest-page fault.
pub const INSTRUCTION_GUEST_PAGE_FAULT: u64 = 20;

/// Load guest-page fault.
pub const LOAD_GUEST_PAGE_FAULT: u64 = 21;

/// Virtual instruction.
pub const VIRTUAL_INSTRUCTION: u64 = 22;

/// Store or AMO guest-page fault.
pub const STORE_GUEST_PAGE_FAULT: u64 = 23;
