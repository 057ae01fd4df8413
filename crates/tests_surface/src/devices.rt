// The clock, the console, the calls and the device page.

use arch_defs::Regs;
use console_dev::Console;
use device_page::access;
use no_memory::NoMemory;
use see_calls::{CallEnd, call};
use std::alloc::Global;
use virtual_timer::{Clock, WaitEnd};

#[test]
fn a_clock(rt: HostRuntime) {
    let mut clock: Clock = Clock::new();
    clock.set(2u64);
    clock.step();
    let now: u64 = clock.now();
    let due: bool = clock.due();
    let next: Option<u64> = clock.next_event();
    assert!(rt; (now, due, next) == (1, false, Some(2)));
    clock.step();
    assert!(rt; (clock.due(), clock.next_event()) == (true, None));
}

#[test]
fn a_clock_that_goes_on(rt: HostRuntime) {
    let mut clock: Clock = Clock::at(10u64, 100u64);
    clock.advance(20u64);
    let timer: u64 = clock.timer();
    assert!(rt; (clock.now(), timer) == (30, 100));
}

fn has_woken(end: WaitEnd) -> bool {
    match end {
        WaitEnd::Woke => true,
        WaitEnd::ForGood => false,
    }
}

// Whether a wait from 10 on ends, and when. The timer is at 100, and an input comes at 50.
fn waited(sie: u64) -> (bool, u64) {
    let mut clock = Clock::at(10u64, 100u64);
    let input: Option<u64> = Some(50);
    let end: WaitEnd = clock.wait(sie, input);
    (has_woken(end), clock.now())
}

// sie has bit 5 for the timer and bit 9 for an input.
#[test]
fn waits(rt: HostRuntime) {
    assert!(rt; waited(0) == (false, 10));
    assert!(rt; waited(0x220) == (true, 50));
    assert!(rt; waited(0x20) == (true, 100));
}

// A console of one byte, with the byte 7 to come at 5.
fn console(alloc: Global) -> Result<Console, NoMemory> {
    Console::new(alloc, 1u64, vec![in alloc; (5u64, 7u8)]?)
}

#[test]
fn a_console_is_put_to(rt: HostRuntime) {
    let mut console: Console = console(rt.alloc()).expect(&rt, "memory");
    let first: bool = console.put(65u8);
    assert!(rt; first);
    let full: bool = console.is_full();
    assert!(rt; full);
    assert!(rt; !console.put(66));
    let bytes: &[u8] = console.bytes();
    assert!(rt; bytes == b"A".as_slice());
}

#[test]
fn a_console_is_got_from(rt: HostRuntime) {
    let mut console = console(rt.alloc()).expect(&rt, "memory");
    let next: Option<u64> = console.next();
    assert!(rt; next == Some(5));
    let unread: &[(u64, u8)] = console.unread();
    assert!(rt; unread == [(5, 7)].as_slice());
    let early: Option<u8> = console.get(4u64);
    assert!(rt; early == None);
    assert!(rt; console.get(5) == Some(7));
    assert!(rt; console.next() == None);
}

#[test]
fn a_console_that_goes_on(rt: HostRuntime) {
    let alloc = rt.alloc();
    let console: Console = Console::resume(
        alloc,
        2u64,
        b"A",
        vec![in alloc; (5u64, 7u8)].expect(&rt, "memory"),
    )
    .expect(&rt, "memory");
    assert!(rt; console.bytes() == b"A".as_slice());
    assert!(rt; console.unread() == [(5, 7)].as_slice());
}

fn has_stopped(end: CallEnd) -> bool {
    match end {
        CallEnd::Go => false,
        CallEnd::Stop => true,
    }
}

#[test]
fn calls(rt: HostRuntime) {
    let mut console = console(rt.alloc()).expect(&rt, "memory");
    let mut clock = Clock::new();
    let mut regs = Regs::starting_at(0);
    regs.x[17] = 1;
    regs.x[10] = 65;
    assert!(rt; !has_stopped(call(&mut regs, &mut clock, &mut console)));
    assert!(rt; console.bytes() == b"A".as_slice());
    regs.x[17] = 8;
    assert!(rt; has_stopped(call(&mut regs, &mut clock, &mut console)));
}

// A byte stored at 0, the status, the input, and a load that the page does not serve.
#[test]
fn the_device_page(rt: HostRuntime) {
    let mut console = console(rt.alloc()).expect(&rt, "memory");
    let status: Option<u64> = access(8u64, 8u8, None, &mut console, 5u64);
    assert!(rt; status == Some(3));
    assert!(rt; access(0, 1, Some(65u64), &mut console, 5) == Some(0));
    assert!(rt; console.bytes() == b"A".as_slice());
    assert!(rt; access(0, 1, None, &mut console, 5) == Some(7));
    assert!(rt; access(0, 2, None, &mut console, 5) == None);
}
