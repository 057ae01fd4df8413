// Control and status registers by their numbers.

use arch_defs::{CsrEnd, Csrs, Mode};
use csr_file::{read, write};

// The registers that there are (Privileged Architecture 20211203, 2.2): of a supervisor, then of VS and of
// the hypervisor, then time and hgeip.
const NUMBERS: [u16; 35] = [
    0x100, 0x104, 0x105, 0x106, 0x10A, 0x140, 0x141, 0x142, 0x143, 0x144, 0x180, 0x200, 0x204,
    0x205, 0x240, 0x241, 0x242, 0x243, 0x244, 0x280, 0x600, 0x602, 0x603, 0x604, 0x605, 0x606,
    0x607, 0x60A, 0x643, 0x644, 0x645, 0x64A, 0x680, 0xC01, 0xE12,
];

fn is_there(number: u16) -> bool {
    for listed in NUMBERS {
        if listed == number {
            return true;
        }
    }
    false
}

// Whether a mode may read a register that there is, where no TM bit is set: HS each, VS those of a
// supervisor.
fn is_open_to(mode: Mode, number: u16) -> bool {
    match mode {
        Mode::HS => true,
        Mode::VS => number < 0x200,
        Mode::U | Mode::VU => false,
    }
}

// How an access ends, by 0 for what is made, 1 for illegal and 2 for virtual: 8.6.1 and 2.1.
fn wanted(mode: Mode, number: u16, writes: bool) -> u8 {
    if !is_there(number) || (writes && number >= 0xC00) {
        1
    } else if is_open_to(mode, number) {
        0
    } else if mode == Mode::U {
        1
    } else {
        2
    }
}

fn told(end: CsrEnd) -> u8 {
    match end {
        CsrEnd::Illegal => 1,
        CsrEnd::Virtual => 2,
    }
}

fn read_end(csrs: &Csrs, mode: Mode, number: u16) -> u8 {
    let end: Result<u64, CsrEnd> = read(csrs, mode, number);
    match end {
        Ok(_) => 0,
        Err(refusal) => told(refusal),
    }
}

fn write_end(csrs: &mut Csrs, mode: Mode, number: u16) -> u8 {
    let end: Result<(), CsrEnd> = write(csrs, mode, number, 0u64);
    match end {
        Ok(()) => 0,
        Err(refusal) => told(refusal),
    }
}

fn are_right(mode: Mode) -> bool {
    for number in 0..4096 {
        let mut csrs = Csrs::at_reset();
        if read_end(&csrs, mode, number) != wanted(mode, number, false)
            || write_end(&mut csrs, mode, number) != wanted(mode, number, true)
        {
            return false;
        }
    }
    true
}

#[test]
fn every_number_in_every_mode(rt: HostRuntime) {
    for mode in [Mode::HS, Mode::U, Mode::VS, Mode::VU] {
        assert!(rt; are_right(mode));
    }
}

#[test]
fn a_value_is_read_back(rt: HostRuntime) {
    let mut csrs = Csrs::at_reset();
    assert!(rt; write(&mut csrs, Mode::HS, 0x140u16, 7u64) == Ok(()));
    assert!(rt; read(&csrs, Mode::HS, 0x140u16) == Ok(7));
}
