// What the numbers name in HS, and the names of the registers.

ghost use Rattle.std.specs.Prelude.{◌≡◌};
ghost use Rattle.arch_defs.specs.CsrNames.{supervisor_register, virtual_supervisor_register, hypervisor_register, read_only_register, register_of};

use arch_defs::{EnableCsr, HypervisorCsr, InterruptCsr, Register, SupervisorCsr};

#[tactic(auto, unfolding(arch_defs::specs::CsrNames::supervisor_register))]
fn supervisor_register(number: u16) -> Option<Register>
    ensures { result ≡ supervisor_register number }
{
    match number {
        0x100 => Some(Register::Supervisor(SupervisorCsr::Status)),
        0x104 => Some(Register::Interrupt(InterruptCsr::Sie)),
        0x105 => Some(Register::Supervisor(SupervisorCsr::Tvec)),
        0x106 => Some(Register::Enable(EnableCsr::Scounteren)),
        0x10A => Some(Register::Enable(EnableCsr::Senvcfg)),
        0x140 => Some(Register::Supervisor(SupervisorCsr::Scratch)),
        0x141 => Some(Register::Supervisor(SupervisorCsr::Epc)),
        0x142 => Some(Register::Supervisor(SupervisorCsr::Cause)),
        0x143 => Some(Register::Supervisor(SupervisorCsr::Tval)),
        0x144 => Some(Register::Interrupt(InterruptCsr::Sip)),
        0x180 => Some(Register::Supervisor(SupervisorCsr::Atp)),
        _ => None,
    }
}

#[tactic(auto, unfolding(arch_defs::specs::CsrNames::virtual_supervisor_register))]
fn virtual_supervisor_register(number: u16) -> Option<Register>
    ensures { result ≡ virtual_supervisor_register number }
{
    match number {
        0x200 => Some(Register::VirtualSupervisor(SupervisorCsr::Status)),
        0x204 => Some(Register::Interrupt(InterruptCsr::Vsie)),
        0x205 => Some(Register::VirtualSupervisor(SupervisorCsr::Tvec)),
        0x240 => Some(Register::VirtualSupervisor(SupervisorCsr::Scratch)),
        0x241 => Some(Register::VirtualSupervisor(SupervisorCsr::Epc)),
        0x242 => Some(Register::VirtualSupervisor(SupervisorCsr::Cause)),
        0x243 => Some(Register::VirtualSupervisor(SupervisorCsr::Tval)),
        0x244 => Some(Register::Interrupt(InterruptCsr::Vsip)),
        0x280 => Some(Register::VirtualSupervisor(SupervisorCsr::Atp)),
        _ => None,
    }
}

#[tactic(auto, unfolding(arch_defs::specs::CsrNames::hypervisor_register))]
fn hypervisor_register(number: u16) -> Option<Register>
    ensures { result ≡ hypervisor_register number }
{
    match number {
        0x600 => Some(Register::Hypervisor(HypervisorCsr::Hstatus)),
        0x602 => Some(Register::Hypervisor(HypervisorCsr::Hedeleg)),
        0x603 => Some(Register::Interrupt(InterruptCsr::Hideleg)),
        0x604 => Some(Register::Interrupt(InterruptCsr::Hie)),
        0x605 => Some(Register::Hypervisor(HypervisorCsr::Htimedelta)),
        0x606 => Some(Register::Enable(EnableCsr::Hcounteren)),
        0x607 => Some(Register::Hypervisor(HypervisorCsr::Hgeie)),
        0x60A => Some(Register::Enable(EnableCsr::Henvcfg)),
        0x643 => Some(Register::Hypervisor(HypervisorCsr::Htval)),
        0x644 => Some(Register::Interrupt(InterruptCsr::Hip)),
        0x645 => Some(Register::Interrupt(InterruptCsr::Hvip)),
        0x64A => Some(Register::Hypervisor(HypervisorCsr::Htinst)),
        0x680 => Some(Register::Hypervisor(HypervisorCsr::Hgatp)),
        _ => None,
    }
}

#[tactic(auto, unfolding(arch_defs::specs::CsrNames::read_only_register))]
fn read_only_register(number: u16) -> Option<Register>
    ensures { result ≡ read_only_register number }
{
    match number {
        0xC01 => Some(Register::Time),
        0xE12 => Some(Register::Hypervisor(HypervisorCsr::Hgeip)),
        _ => None,
    }
}

/// The register that a number names in HS, if any.
#[tactic(auto, unfolding(arch_defs::specs::CsrNames::register_of))]
pub fn register_of(number: u16) -> Option<Register>
    ensures { result ≡ register_of number }
{
    match number >> 8 {
        1 => supervisor_register(number),
        2 => virtual_supervisor_register(number),
        6 => hypervisor_register(number),
        _ => read_only_register(number),
    }
}

/// The control and status registers of HS: the name, as assembly has it, and the number (Privileged
/// Architecture 20211203, tables 2.2 to 2.4).
pub static CSR_NAMES: [(&'static str, u16); 35] = [
    ("sstatus", 0x100),
    ("sie", 0x104),
    ("stvec", 0x105),
    ("scounteren", 0x106),
    ("senvcfg", 0x10A),
    ("sscratch", 0x140),
    ("sepc", 0x141),
    ("scause", 0x142),
    ("stval", 0x143),
    ("sip", 0x144),
    ("satp", 0x180),
    ("vsstatus", 0x200),
    ("vsie", 0x204),
    ("vstvec", 0x205),
    ("vsscratch", 0x240),
    ("vsepc", 0x241),
    ("vscause", 0x242),
    ("vstval", 0x243),
    ("vsip", 0x244),
    ("vsatp", 0x280),
    ("hstatus", 0x600),
    ("hedeleg", 0x602),
    ("hideleg", 0x603),
    ("hie", 0x604),
    ("htimedelta", 0x605),
    ("hcounteren", 0x606),
    ("hgeie", 0x607),
    ("henvcfg", 0x60A),
    ("htval", 0x643),
    ("hip", 0x644),
    ("hvip", 0x645),
    ("htinst", 0x64A),
    ("hgatp", 0x680),
    ("time", 0xC01),
    ("hgeip", 0xE12),
];
