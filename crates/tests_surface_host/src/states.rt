// What a machine and the hart have, taken apart, the switch between them, and a run of the hart.

ghost use Rattle.std.specs.Prelude.{◌≡◌, [], ◌∷◌, Some, false, true};
ghost use Rattle.arch_defs.specs.Traps.{is_virtual};

use arch_defs::{Csrs, FirstBuffer, HartState, Key, Mode, Part, Regs, Tag, Virtual};
use no_memory::NoMemory;
use phys_mem::PhysMem;
use rv64_hart::{Hart, Stop, Tally, Why};
use std::alloc::Global;
use world_switch::{load, save, to_guest_hs, to_nested};

const START: u64 = 0x8000_0000;

// What a machine has: pc and x5, what time reads, the mode, what is reserved, and how many first-stage
// translations are cached.
struct Parts {
    registers: (u64, u64),
    time: u64,
    mode: Mode,
    reservation: Option<(u64, u8)>,
    first: usize,
}

fn parts_of(virt: Virtual) -> Parts {
    let Virtual {
        regs,
        csrs,
        mode,
        reservation,
        first,
    } = virt;
    let regs: Regs = regs;
    let csrs: Csrs = csrs;
    let first: FirstBuffer = first;
    Parts {
        registers: (regs.pc, regs.x[5]),
        time: csrs.time,
        mode,
        reservation,
        first: first.as_slice().len(),
    }
}

fn at_start() -> Virtual {
    Virtual {
        regs: Regs::starting_at(START),
        csrs: Csrs::at_reset(),
        mode: Mode::U,
        reservation: Some((START, 4)),
        first: FirstBuffer::new(),
    }
}

#[test]
fn what_a_machine_has(rt: HostRuntime) {
    let Parts {
        registers,
        time,
        mode,
        reservation,
        first,
    } = parts_of(at_start());
    assert!(rt; registers == (START, 0));
    assert!(rt; time == 0);
    assert!(rt; mode == Mode::U);
    assert!(rt; reservation == Some((START, 4)));
    assert!(rt; first == 0);
}

fn is_flat(tag: Tag) -> bool {
    match tag {
        Tag::Flat => true,
        Tag::Nested(_hgatp) => false,
    }
}

// The mode in which the hart is, and whether it is for a guest with V = 0.
fn hart_of(state: HartState) -> (Mode, bool) {
    let HartState { virt, tag } = state;
    (virt.mode, is_flat(tag))
}

fn state_at_start() -> HartState {
    HartState {
        virt: Virtual::starting_at(Mode::VU, START),
        tag: Tag::Flat,
    }
}

#[test]
fn what_the_hart_has(rt: HostRuntime) {
    assert!(rt; hart_of(state_at_start()) == (Mode::VU, true));
}

// MODE 8, VMID 1 and PPN 80004: a value that hgatp can hold.
fn key() -> Key {
    Key(0x8000_1000_0008_0004)
}

#[test]
fn a_key(rt: HostRuntime) {
    let Key(value) = key();
    let value: u64 = value;
    assert!(rt; value == 0x8000_1000_0008_0004);
}

// A part of the blocks 5 and 2 whose host table has its root at frame 8, and one space at 12.
fn own_part() -> Part
    ensures { result.blocks ≡ 5 ∷ 2 ∷ [] }
{
    Part::new(&[5, 2], 8, 16, 1, 0)
}

// A guest with a reservation at its start.
fn guest(mode: Mode) -> Virtual
    ensures reservation { result.reservation ≡ Some (0x80000000, 4) }
    ensures mode { result.mode ≡ mode }
{
    let mut virt = Virtual::starting_at(mode, START);
    virt.reservation = Some((START, 4));
    virt
}

// What the hart reserves for it, and in which mode, and what is saved of that.
fn told(hart: &HartState, part: &Part, virt: &mut Virtual) -> (Mode, Option<(u64, u8)>, Mode) {
    save(hart, part, virt);
    (hart.virt.mode, hart.virt.reservation, virt.mode)
}

fn switched(mode: Mode) -> (Mode, Option<(u64, u8)>, Mode) {
    let part = own_part();
    let mut virt = guest(mode);
    let mut hart = state_at_start();
    load(&virt, &part, 8u64, &mut hart);
    told(&hart, &part, &mut virt)
}

// RAM begins with block 5, at A00000.
#[test]
fn guests_on_the_hart(rt: HostRuntime) {
    let at = Some((0xA0_0000, 4));
    assert!(rt; switched(Mode::HS) == (Mode::VS, at, Mode::HS));
    assert!(rt; switched(Mode::VU) == (Mode::VU, at, Mode::VU));
}

fn switched_to_hs() -> (Mode, Option<(u64, u8)>, Mode) {
    let part = own_part();
    let mut virt = guest(Mode::U);
    let mut hart = state_at_start();
    to_guest_hs(&virt, &part, 8u64, &mut hart);
    told(&hart, &part, &mut virt)
}

fn switched_to_nested() -> (Mode, Option<(u64, u8)>, Mode) {
    let part = own_part();
    let mut virt = guest(Mode::VS);
    let mut hart = state_at_start();
    to_nested(&virt, &part, 12u64, &mut hart);
    told(&hart, &part, &mut virt)
}

#[test]
fn both_switches(rt: HostRuntime) {
    let at = Some((0xA0_0000, 4));
    assert!(rt; switched_to_hs() == (Mode::VU, at, Mode::U));
    assert!(rt; switched_to_nested() == (Mode::VS, at, Mode::VS));
}

// JAL x0, 0 at the start of one frame, where the hart begins.
fn looping(alloc: Global) -> Result<PhysMem, NoMemory> {
    let mut memory = PhysMem::new(alloc, 1)?;
    if memory.size() == 4096 {
        memory.store(0, 4, 0x6F);
    }
    Ok(memory)
}

// How many steps a run makes, and whether it ends by its limit.
fn run(hart: &mut Hart, memory: &mut PhysMem, limit: u64) -> (u64, bool, [u64; 2]) {
    let mut tally = Tally::new();
    if limit > 100_000 {
        return (0, false, [0, 0]);
    }
    let stop: Stop = hart.run(memory, limit, false, &mut tally);
    (
        stop.taken,
        stop.why == Why::Limit,
        [tally.entries(), tally.taken()],
    )
}

#[test]
fn a_run_walks_once(rt: HostRuntime) {
    let mut memory = looping(rt.alloc()).expect(&rt, "memory");
    let mut hart: Hart = Hart::new();
    assert!(rt; run(&mut hart, &mut memory, 10_000) == (10_000, true, [1, 10_000]));
    let walks: u64 = hart.walks();
    assert!(rt; walks == 1);
}

// A hart is lent, and lent to be changed.
fn moved_to(hart: &mut Hart, mode: Mode) -> Mode {
    let state: &mut HartState = hart.state_mut();
    state.virt.mode = mode;
    let state: &HartState = hart.state();
    state.virt.mode
}

#[test]
fn a_hart_is_lent(rt: HostRuntime) {
    let mut hart = Hart::new();
    assert!(rt; moved_to(&mut hart, Mode::VU) == Mode::VU);
}

fn number_of_why(why: Why) -> u64 {
    match why {
        Why::Limit => 0,
        Why::Exit(trap) => trap.cause,
        Why::VsTrap => 2,
    }
}

#[test]
fn a_stop_and_a_tally(rt: HostRuntime) {
    let Stop { taken, why } = Stop {
        taken: 5,
        why: Why::VsTrap,
    };
    let taken: u64 = taken;
    assert!(rt; (taken, number_of_why(why)) == (5, 2));
    let tally: Tally = Tally::new();
    let counts: (u64, u64, u64) = (tally.entries(), tally.taken(), tally.trace());
    assert!(rt; counts == (0, 0, 0));
}
