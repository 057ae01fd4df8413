// The registers of a hart: x registers, pc, and the control and status registers with named bits.

ghost use Rattle.std.specs.Prelude.{◌≡◌, ◌<◌};
ghost use Rattle.arch_defs.specs.Bits.{field};
ghost use Rattle.arch_defs.specs.Registers.{read, advanced, clear_interrupts, csrs_at_reset, passed, sets, supervisor_at_reset, clear_supervisor_status, clear_hypervisor_status, regs_at, virtual_at};

use crate::first_buffers::FirstBuffer;
use crate::modes::Mode;
use crate::roots::{GuestRoot, SupervisorRoot};
use std::marker::Model;

/// The number of an x register, 0 to 31.
#[derive(Clone, Copy, PartialEq, Eq)]
pub struct Reg {
    number: u8,
}

impl Model for Reg {
    ghost use Rattle.std.specs.Prelude.{ℕ, ◌<◌};

    ghost Value = { ℕ };

    ghost view = { λ r. r.number };

    ghost invariant = { λ r. r.number < 32 };

    ghost inverse = { λ n. record { number = n } };
}

impl Reg {
    /// The register that the five bits of `word` from bit `low` on name.
    pub fn at(word: u32, low: u32) -> Reg
        requires { low < 32 }
        ensures { result ≡ field low 5 word }
    {
        Reg {
            number: ((word >> low) & 31) as u8,
        }
    }

    /// The register of this number.
    pub fn new(number: u8) -> Reg
        requires { number < 32 }
        ensures { result ≡ number }
    {
        Reg { number }
    }

    /// The register's number, as an index.
    pub fn number(self) -> usize
        ensures value { result ≡ self }
        ensures small { result < 32 }
    {
        self.number as usize
    }
}

/// x0 to x31 and pc. x0 is 0 and never written.
#[derive(Clone, Copy, PartialEq, Eq)]
pub struct Regs {
    pub x: [u64; 32],
    pub pc: u64,
}

impl Regs {
    /// All x registers zero, and pc.
    pub fn starting_at(pc: u64) -> Regs
        ensures { result ≡ regs_at pc }
    {
        Regs { x: [0; 32], pc }
    }

    /// The value of a register.
    pub fn read(&self, register: Reg) -> u64
        ensures { result ≡ read self.now register }
    {
        self.x[register.number()]
    }

    /// Sets register `rd` to `value`, unless it is x0, and pc to `next`.
    pub fn advance(&mut self, rd: Reg, value: u64, next: u64)
        ensures { self.new ≡ advanced self.old rd value next }
    {
        if rd.number() != 0 {
            self.x[rd.number()] = value;
        }
        self.pc = next;
    }
}

/// The writable bits of sstatus and vsstatus (Privileged Architecture 20211203, 4.1.1 and 8.2.11).
#[derive(Clone, Copy, PartialEq, Eq)]
pub struct SupervisorStatus {
    pub sie: bool,
    pub spie: bool,
    pub spp: bool,
    pub sum: bool,
    pub mxr: bool,
}

impl SupervisorStatus {
    /// All bits clear.
    pub fn clear() -> SupervisorStatus
        ensures { result ≡ clear_supervisor_status }
    {
        SupervisorStatus {
            sie: false,
            spie: false,
            spp: false,
            sum: false,
            mxr: false,
        }
    }
}

/// The writable bits of hstatus (Privileged Architecture 20211203, 8.2.1).
#[derive(Clone, Copy, PartialEq, Eq)]
pub struct HypervisorStatus {
    pub gva: bool,
    pub spv: bool,
    pub spvp: bool,
    pub hu: bool,
    pub vtvm: bool,
    pub vtw: bool,
    pub vtsr: bool,
}

impl HypervisorStatus {
    /// All bits clear.
    pub fn clear() -> HypervisorStatus
        ensures { result ≡ clear_hypervisor_status }
    {
        HypervisorStatus {
            gva: false,
            spv: false,
            spvp: false,
            hu: false,
            vtvm: false,
            vtw: false,
            vtsr: false,
        }
    }
}

/// A bit for each of the three interrupts of a level (Privileged Architecture 20211203, 4.1.3 and 8.2.3).
#[derive(Clone, Copy, PartialEq, Eq)]
pub struct Interrupts {
    pub software: bool,
    pub timer: bool,
    pub external: bool,
}

impl Interrupts {
    /// All bits clear.
    pub fn clear() -> Interrupts
        ensures { result ≡ clear_interrupts }
    {
        Interrupts {
            software: false,
            timer: false,
            external: false,
        }
    }
}

/// The registers that HS and VS each have: those of the 1xx rows, and those of the 2xx rows that match.
#[derive(Clone, Copy, PartialEq, Eq)]
pub struct SupervisorCsrs {
    pub status: SupervisorStatus,
    pub tvec: u64,
    pub scratch: u64,
    pub epc: u64,
    pub cause: u64,
    pub tval: u64,
    pub atp: SupervisorRoot,
}

impl SupervisorCsrs {
    /// All registers zero.
    pub fn at_reset() -> SupervisorCsrs
        ensures { result ≡ supervisor_at_reset }
    {
        SupervisorCsrs {
            status: SupervisorStatus::clear(),
            tvec: 0,
            scratch: 0,
            epc: 0,
            cause: 0,
            tval: 0,
            atp: SupervisorRoot::Bare,
        }
    }
}

/// The control and status registers of HS and VS (Privileged Architecture 20211203, 4.1 and 8.2).
/// `sip`'s timer and external bits and `time` are the owner's to set before a step.
#[derive(Clone, Copy, PartialEq, Eq)]
pub struct Csrs {
    /// sstatus to satp.
    pub hs: SupervisorCsrs,
    /// vsstatus to vsatp.
    pub vs: SupervisorCsrs,
    pub sie: Interrupts,
    pub sip: Interrupts,
    pub scounteren_tm: bool,
    pub senvcfg_fiom: bool,
    pub hstatus: HypervisorStatus,
    /// Bit i is set where exception i of V = 1 goes to VS.
    pub hedeleg: u64,
    pub hideleg: Interrupts,
    pub hie: Interrupts,
    pub hvip: Interrupts,
    pub hcounteren_tm: bool,
    pub henvcfg_fiom: bool,
    pub htimedelta: u64,
    pub htval: u64,
    pub htinst: u64,
    pub hgatp: GuestRoot,
    /// What a read of time shows with V = 0.
    pub time: u64,
}

impl Csrs {
    /// All registers zero.
    pub fn at_reset() -> Csrs
        ensures { result ≡ csrs_at_reset }
    {
        Csrs {
            hs: SupervisorCsrs::at_reset(),
            vs: SupervisorCsrs::at_reset(),
            sie: Interrupts::clear(),
            sip: Interrupts::clear(),
            scounteren_tm: false,
            senvcfg_fiom: false,
            hstatus: HypervisorStatus::clear(),
            hedeleg: 0,
            hideleg: Interrupts::clear(),
            hie: Interrupts::clear(),
            hvip: Interrupts::clear(),
            hcounteren_tm: false,
            henvcfg_fiom: false,
            htimedelta: 0,
            htval: 0,
            htinst: 0,
            hgatp: GuestRoot::Bare,
            time: 0,
        }
    }
}

/// All of a machine beside its memory that its instructions see or leave: registers, mode, the reservation of
/// LR, a physical address and a width in bytes, and the cached first-stage translations.
#[derive(Clone, Copy)]
pub struct Virtual {
    pub regs: Regs,
    pub csrs: Csrs,
    pub mode: Mode,
    pub reservation: Option<(u64, u8)>,
    pub first: FirstBuffer,
}

impl Virtual {
    /// All registers zero, but for pc; no reservation, and no cached translation.
    pub fn starting_at(mode: Mode, pc: u64) -> Virtual
        ensures { result ≡ virtual_at mode pc }
    {
        Virtual {
            regs: Regs::starting_at(pc),
            csrs: Csrs::at_reset(),
            mode,
            reservation: None,
            first: FirstBuffer::new(),
        }
    }

    /// Sets register `rd` to `value`, and has pc go on.
    pub fn set(&mut self, rd: Reg, value: u64)
        ensures { self.new ≡ sets self.old rd value }
    {
        let next = self.regs.pc.wrapping_add(4);
        self.regs.advance(rd, value, next);
    }

    /// Has pc go on.
    pub fn pass(&mut self)
        ensures { self.new ≡ passed self.old }
    {
        self.regs.pc = self.regs.pc.wrapping_add(4);
    }
}
