// Traps, interrupts and fences, by the calls that take them.

ghost use Rattle.fence_handler.specs.Requests.{IsFence};

use arch_defs::{Csrs, Fence, Level, Mode, Reg, Regs, Trap};
use csr_file::{read, write};
use fence_handler::request;
use op_defs::Op;
use trap_delegation::{enter_hs, enter_vs, pending, sret, target};

const ILLEGAL: Trap = Trap {
    cause: 2,
    interrupt: false,
    tval: 0,
    tval2: 0,
    gva: false,
    implicit: false,
};

// Registers with these values.
fn with(values: &[(u16, u64)]) -> Csrs {
    let mut csrs = Csrs::at_reset();
    for &(number, value) in values {
        let _written = write(&mut csrs, Mode::HS, number, value);
    }
    csrs
}

fn has(csrs: &Csrs, values: &[(u16, u64)]) -> bool {
    for &(number, value) in values {
        if read(csrs, Mode::HS, number) != Ok(value) {
            return false;
        }
    }
    true
}

// The word 0 at HS after a guest-page fault: SPV, SPVP and GVA are set, and htval and htinst have what it
// left. SPV, GVA, htval and htinst are cleared, and SPVP stays (Privileged Architecture 20211203, 8.2.1,
// 8.6.3).
#[test]
fn an_illegal_word_at_hs(rt: HostRuntime) {
    let mut csrs = with(&[(0x600, 0x1C0), (0x643, 0x400), (0x64A, 0x3000)]);
    let before = [(0x600, 0x2_0000_01C0), (0x643, 0x400), (0x64A, 0x3000)];
    assert!(rt; has(&csrs, &before));
    let mut regs = Regs::starting_at(0x8000_0000);
    let mode: Mode = enter_hs(&mut csrs, &mut regs, Mode::HS, &ILLEGAL);
    assert!(rt; mode == Mode::HS);
    let left = [
        (0x600, 0x2_0000_0100),
        (0x643, 0),
        (0x64A, 0),
        (0x142, 2),
        (0x143, 0),
        (0x141, 0x8000_0000),
    ];
    assert!(rt; has(&csrs, &left));
}

fn level_of(level: Level) -> u8 {
    match level {
        Level::HS => 0,
        Level::VS => 1,
    }
}

// In VS an illegal instruction goes to HS, or to VS where hedeleg has its bit.
#[test]
fn a_trap_goes_to_a_level(rt: HostRuntime) {
    let level: Level = target(&with(&[]), Mode::VS, &ILLEGAL);
    assert!(rt; level_of(level) == 0);
    let delegated = with(&[(0x602, 4)]);
    assert!(rt; level_of(target(&delegated, Mode::VS, &ILLEGAL)) == 1);
}

#[test]
fn an_entry_and_a_return(rt: HostRuntime) {
    let mut csrs = with(&[(0x205, 0x100)]);
    let mut regs = Regs::starting_at(0x40);
    let mode: Mode = enter_vs(&mut csrs, &mut regs, Mode::VU, &ILLEGAL);
    assert!(rt; mode == Mode::VS);
    assert!(rt; regs.pc == 0x100);
    let back: Mode = sret(&mut csrs, &mut regs, Mode::VS);
    assert!(rt; back == Mode::VU);
    assert!(rt; regs.pc == 0x40);
}

// hip.VSSIP, enabled in hie and not delegated, is due in VS; without it none is.
#[test]
fn a_pending_interrupt(rt: HostRuntime) {
    let none: Option<u64> = pending(&with(&[]), Mode::VS);
    assert!(rt; none == None);
    let some = pending(&with(&[(0x645, 4), (0x604, 4)]), Mode::VS);
    assert!(rt; some == Some(2));
}

// HFENCE.GVMA and SFENCE.VMA by x5 and x6, and one by x0 alone.
fn hfence_gvma() -> Op
    ensures { IsFence result }
{
    Op::HfenceGvma {
        rs1: Reg::new(5),
        rs2: Reg::new(6),
    }
}

fn sfence_vma() -> Op
    ensures { IsFence result }
{
    Op::SfenceVma {
        rs1: Reg::new(5),
        rs2: Reg::new(6),
    }
}

fn hfence_vvma_of_all() -> Op
    ensures { IsFence result }
{
    Op::HfenceVvma {
        rs1: Reg::new(0),
        rs2: Reg::new(0),
    }
}

// x5 has an address divided by 4 for the first, and an address for the second; x6 a VMID and an ASID.
#[test]
fn what_fences_name(rt: HostRuntime) {
    let mut regs = Regs::starting_at(0);
    regs.x[5] = 0x1000;
    regs.x[6] = 0x81;
    let guest: Fence = request(hfence_gvma(), &regs);
    assert!(rt; (guest.vmid, guest.page) == (Some(1), Some(4)));
    let first = request(sfence_vma(), &regs);
    assert!(rt; (first.vmid, first.page) == (Some(0x81), Some(1)));
    let all = request(hfence_vvma_of_all(), &regs);
    assert!(rt; (all.vmid, all.page) == (None, None));
}
