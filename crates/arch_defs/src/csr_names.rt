// The control and status registers by name, and how an access can be refused.

/// The registers that HS and VS each have a copy of, each in its own `SupervisorCsrs`.
#[derive(Clone, Copy)]
pub enum SupervisorCsr {
    Status,
    Tvec,
    Scratch,
    Epc,
    Cause,
    Tval,
    Atp,
}

/// The registers of interrupts.
#[derive(Clone, Copy)]
pub enum InterruptCsr {
    Sie,
    Sip,
    Vsie,
    Vsip,
    Hideleg,
    Hie,
    Hip,
    Hvip,
}

/// The registers of one named bit.
#[derive(Clone, Copy)]
pub enum EnableCsr {
    Scounteren,
    Senvcfg,
    Hcounteren,
    Henvcfg,
}

/// The other registers of the hypervisor extension.
#[derive(Clone, Copy)]
pub enum HypervisorCsr {
    Hstatus,
    Hedeleg,
    Htimedelta,
    Hgeie,
    Hgeip,
    Htval,
    Htinst,
    Hgatp,
}

/// A control and status register.
#[derive(Clone, Copy)]
pub enum Register {
    /// sstatus to satp of HS.
    Supervisor(SupervisorCsr),
    /// vsstatus to vsatp.
    VirtualSupervisor(SupervisorCsr),
    Interrupt(InterruptCsr),
    Enable(EnableCsr),
    Hypervisor(HypervisorCsr),
    /// time as it reads with V = 0.
    Time,
    /// time as it reads with V = 1.
    GuestTime,
}

/// Why an access to a register raises an exception.
#[derive(Clone, Copy, PartialEq, Eq)]
pub enum CsrEnd {
    /// An illegal instruction, code 2.
    Illegal,
    /// A virtual instruction, code 22.
    Virtual,
}
