// The control and status registers of a form.

ghost use Rattle.std.specs.Prelude.{◌≡◌, ◌≤◌, length, map};
ghost use Rattle.arch_defs.specs.CsrAccess.{shown};
ghost use Rattle.guest_save.specs.Registers.{all_written, csr_numbers, csrs_in};

use arch_defs::{Csrs, EnableCsr, HypervisorCsr, InterruptCsr, Register, SupervisorCsr};
use csr_file::{shown, write_register};

/// sstatus to stval.
const BEFORE_SIP: [Register; 9] = [
    Register::Supervisor(SupervisorCsr::Status),
    Register::Interrupt(InterruptCsr::Sie),
    Register::Supervisor(SupervisorCsr::Tvec),
    Register::Enable(EnableCsr::Scounteren),
    Register::Enable(EnableCsr::Senvcfg),
    Register::Supervisor(SupervisorCsr::Scratch),
    Register::Supervisor(SupervisorCsr::Epc),
    Register::Supervisor(SupervisorCsr::Cause),
    Register::Supervisor(SupervisorCsr::Tval),
];

/// satp to hgatp.
const AFTER_SIP: [Register; 19] = [
    Register::Supervisor(SupervisorCsr::Atp),
    Register::VirtualSupervisor(SupervisorCsr::Status),
    Register::VirtualSupervisor(SupervisorCsr::Tvec),
    Register::VirtualSupervisor(SupervisorCsr::Scratch),
    Register::VirtualSupervisor(SupervisorCsr::Epc),
    Register::VirtualSupervisor(SupervisorCsr::Cause),
    Register::VirtualSupervisor(SupervisorCsr::Tval),
    Register::VirtualSupervisor(SupervisorCsr::Atp),
    Register::Hypervisor(HypervisorCsr::Hstatus),
    Register::Hypervisor(HypervisorCsr::Hedeleg),
    Register::Interrupt(InterruptCsr::Hideleg),
    Register::Interrupt(InterruptCsr::Hie),
    Register::Hypervisor(HypervisorCsr::Htimedelta),
    Register::Enable(EnableCsr::Hcounteren),
    Register::Enable(EnableCsr::Henvcfg),
    Register::Hypervisor(HypervisorCsr::Htval),
    Register::Interrupt(InterruptCsr::Hvip),
    Register::Hypervisor(HypervisorCsr::Htinst),
    Register::Hypervisor(HypervisorCsr::Hgatp),
];

// What registers show.
#[tactic(auto, using(crate::proofs::Parsing::one_more_shown))]
fn show_all(csrs: &Csrs, registers: &[Register], into: &mut [u64])
    requires { length registers.now ≡ length into.old }
    ensures { into.new ≡ map (shown csrs.now) registers.now }
{
    for i in 0..registers.len() {
        into[i] = shown(csrs, registers[i]);
    }
}

// Writes registers, in turn.
#[tactic(auto, using(crate::proofs::Parsing::all_written_ends, crate::proofs::Parsing::all_written_goes))]
fn write_all(csrs: &mut Csrs, registers: &[Register], numbers: &[u64])
    requires { length registers.now ≤ length numbers.now }
    ensures { csrs.new ≡ all_written csrs.old registers.now numbers.now }
{
    for i in 0..registers.len() {
        write_register(csrs, registers[i], numbers[i]);
    }
}

/// The numbers of the registers in a form.
pub fn csr_numbers(csrs: &Csrs) -> [u64; 29]
    ensures { result ≡ csr_numbers csrs.now }
{
    let mut numbers = [0; 29];
    show_all(csrs, &BEFORE_SIP, &mut numbers[..9]);
    numbers[9] = csrs.sip.software as u64;
    show_all(csrs, &AFTER_SIP, &mut numbers[10..]);
    numbers
}

/// The registers of these numbers.
#[tactic(auto, unfolding(crate::specs::Registers::csrs_in))]
pub fn csrs_in(numbers: &[u64]) -> Csrs
    requires { 29 ≤ length numbers.now }
    ensures { result ≡ csrs_in numbers.now }
{
    let mut csrs = Csrs::at_reset();
    write_all(&mut csrs, &BEFORE_SIP, numbers);
    csrs.sip.software = numbers[9] % 2 == 1;
    write_all(&mut csrs, &AFTER_SIP, &numbers[10..]);
    csrs
}
