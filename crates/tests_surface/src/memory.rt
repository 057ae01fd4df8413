// Machine memory, and a guest's RAM in it.

use crate::machines::{memory, part};
use arch_defs::Part;
use no_memory::NoMemory;
use phys_mem::{Mem, PhysMem, Ram};

// Doublewords at 8, below and above them: the bytes of the number, the lowest first.
fn numbers(memory: &mut PhysMem) -> Option<(u64, u64)> {
    if memory.size() != 12288 {
        return None;
    }
    memory.store(8u64, 8u8, 0x8877_6655_4433_2211u64);
    let double: u64 = memory.load(8u64, 8u8);
    Some((double, memory.load(10, 2)))
}

#[test]
fn machine_memory(rt: HostRuntime) {
    let made: Result<PhysMem, NoMemory> = PhysMem::new(rt.alloc(), 3u64);
    let mut memory: PhysMem = made.expect(&rt, "memory");
    assert!(rt; numbers(&mut memory) == Some((0x8877_6655_4433_2211, 0x4433)));
}

// The first byte of frame 2.
fn first_of_last(memory: &PhysMem) -> Option<u8> {
    if memory.size() != 12288 {
        return None;
    }
    let frame: &[u8] = memory.frame(2u64);
    frame.first().copied()
}

// Copies a byte into frame 1, and the frame to frame 2.
fn copy(memory: &mut PhysMem) {
    if memory.size() == 12288 {
        memory.copy_in(4096u64, &[7u8]);
    }
    if memory.size() == 12288 {
        memory.copy_frame(1u64, 2u64);
    }
}

fn zero(memory: &mut PhysMem) {
    if memory.size() == 12288 {
        memory.zero_frame(2u64);
    }
}

#[test]
fn frames_of_memory(rt: HostRuntime) {
    let mut memory = memory(rt.alloc(), 3).expect(&rt, "memory");
    copy(&mut memory);
    assert!(rt; first_of_last(&memory) == Some(7));
    zero(&mut memory);
    assert!(rt; first_of_last(&memory) == Some(0));
}

// A doubleword through the two calls of memory of any kind, and one behind its end.
fn through<M: Mem>(mem: &mut M, at: u64) -> (bool, Option<u64>)
    requires backed { M.is_backed mem.old }
    ensures backed { M.is_backed mem.new }
{
    if at % 8 != 0 {
        return (false, None);
    }
    let set: bool = mem.set(at, 8u8, 5u64);
    let got: Option<u64> = mem.get(at, 8u8);
    (set, got)
}

// Memory without a byte: it has two calls, and no other.
#[derive(Clone, Copy)]
struct NoBytes;

impl Mem for NoBytes {
    ghost use Rattle.std.specs.Prelude.{[], ⊤};

    ghost memory = { λ _. record { base = 0; bytes = [] } };

    ghost is_backed = { λ _. ⊤ };

    ghost keeps = { λ _ _. ⊤ };

    fn get(&self, _at: u64, _width: u8) -> Option<u64> {
        None
    }

    fn set(&mut self, _at: u64, _width: u8, _value: u64) -> bool {
        false
    }
}

#[test]
fn memory_of_any_kind(rt: HostRuntime) {
    assert!(rt; through(&mut NoBytes, 0) == (false, None));
    let mut memory = memory(rt.alloc(), 3).expect(&rt, "memory");
    assert!(rt; through(&mut memory, 12280) == (true, Some(5)));
    assert!(rt; through(&mut memory, 12288) == (false, None));
}

// RAM of one block begins at 80000000.
fn through_ram(memory: &mut PhysMem, part: &Part) -> Option<(bool, Option<u64>)> {
    let size = memory.size();
    if !part.lies_in(size) {
        return None;
    }
    let mut ram: Ram = Ram::new(memory, part);
    Some(through(&mut ram, 0x8000_0000))
}

fn is_outside(memory: &mut PhysMem, part: &Part) -> Option<(bool, Option<u64>)> {
    let size = memory.size();
    if !part.lies_in(size) {
        return None;
    }
    Some(through(&mut Ram::new(memory, part), 0x8020_0000))
}

#[test]
fn a_guests_ram(rt: HostRuntime) {
    let mut memory = memory(rt.alloc(), 1024).expect(&rt, "memory");
    let part = part(&[0], 512, 516, 0, 0);
    assert!(rt; through_ram(&mut memory, &part) == Some((true, Some(5))));
    assert!(rt; is_outside(&mut memory, &part) == Some((false, None)));
}
