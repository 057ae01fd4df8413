// Walks of tables, and accesses through both stages.

ghost use Rattle.hlv_hsv.specs.Ends.{IsHlvOrHsv};

use crate::machines::{memory, part, put};
use arch_defs::{Access, Csrs, Mode, Part, Reg, Regs, Shape, Trap, Virtual, WalkEnd, Width};
use console_dev::Console;
use csr_file::{read, write};
use hcsr_emulation::Accessed;
use hlv_hsv::access;
use no_memory::NoMemory;
use op_defs::{CsrOp, CsrSource, Op};
use phys_mem::{PhysMem, Ram};
use rv64_asm::fits;
use stage_walk::{Fetch, walk};
use std::alloc::Global;
use trap_delegation::enter_hs;
use two_stage_walk::translate;

// A table whose entries are all this word, or cannot be read.
#[derive(Clone, Copy)]
struct Everywhere {
    entry: Result<u64, Trap>,
}

const UNREADABLE: Trap = Trap {
    cause: 5,
    interrupt: false,
    tval: 7,
    tval2: 0,
    gva: false,
    implicit: false,
};

impl Fetch for Everywhere {
    ghost reading = { λ e place. e.entry };

    fn pte_at(&self, _place: u64) -> Result<u64, Trap> {
        self.entry
    }
}

// How a walk ends, by numbers: 1 at a leaf with its frame, level and rights; 2 at a page fault; 3 at a place
// that cannot be read, with 1 where it is for the trap of these tests.
fn told(end: WalkEnd) -> (u8, u64, u8, [bool; 4]) {
    match end {
        WalkEnd::Leaf(frame, level, r, w, x, u) => (1, frame, level, [r, w, x, u]),
        WalkEnd::PageFault => (2, 0, 0, [false; 4]),
        WalkEnd::FetchEnd(place, trap) => (3, place, (trap == UNREADABLE) as u8, [false; 4]),
    }
}

#[test]
fn ends_of_walks(rt: HostRuntime) {
    let leaf = Everywhere { entry: Ok(0xCF) };
    let end: WalkEnd = walk(&leaf, 1u64, Shape::Sv39, 0u64, Access::Load);
    assert!(rt; told(end) == (1, 0, 2, [true, true, true, false]));
    assert!(rt; told(walk(&leaf, 1, Shape::Sv48, 0, Access::Load)).2 == 3);
    let unread = Everywhere {
        entry: Err(UNREADABLE),
    };
    let end = walk(&unread, 1, Shape::Sv39, 8 << 30, Access::Load);
    assert!(rt; told(end) == (3, 0x1040, 1, [false; 4]));
}

// Addresses of Sv39 repeat bit 38: 4000000000 is none, and FFFFFFC000000000 reads entry 256 of the root.
#[test]
fn addresses_of_sv39(rt: HostRuntime) {
    let unread = Everywhere {
        entry: Err(UNREADABLE),
    };
    let wrong = walk(&unread, 1, Shape::Sv39, 0x40_0000_0000, Access::Load);
    assert!(rt; told(wrong).0 == 2);
    let right = walk(&unread, 1, Shape::Sv39, 0xFFFF_FFC0_0000_0000, Access::Load);
    assert!(rt; told(right).1 == 0x1800);
}

#[test]
fn shapes_of_guests(rt: HostRuntime) {
    let leaf = Everywhere { entry: Ok(0xDF) };
    for (shape, level) in [(Shape::Sv39x4, 2), (Shape::Sv48x4, 3)] {
        assert!(rt; told(walk(&leaf, 1, shape, 0, Access::Store)).2 == level);
    }
}

// A hypervisor's tables: hgatp's root at 80004000, whose entry 0 leads by 80008000 to the lowest table at
// 80009000. Its entry 0 is the page 80001000, of code.
static TABLES: [(u64, u64); 3] = [
    (0x4000, 0x2000_2001),
    (0x8000, 0x2000_2401),
    (0x9000, 0x2000_045B),
];

const HGATP: u64 = 0x8000_1000_0008_0004;

// A guest's RAM of one block with these tables, and with more doublewords.
fn ram(alloc: Global, more: &[(u64, u64)]) -> Result<PhysMem, NoMemory> {
    let mut memory = memory(alloc, 1024)?;
    for &(at, word) in &TABLES {
        put(&mut memory, at, word);
    }
    for &(at, word) in more {
        put(&mut memory, at, word);
    }
    Ok(memory)
}

// Registers with hgatp, and these values.
fn with(values: &[(u16, u64)]) -> Csrs {
    let mut csrs = Csrs::at_reset();
    let _written = write(&mut csrs, Mode::HS, 0x680, HGATP);
    for &(number, value) in values {
        let _written = write(&mut csrs, Mode::HS, number, value);
    }
    csrs
}

// A fetch at 0 in VS.
fn fetched(memory: &mut PhysMem, part: &Part, csrs: &Csrs) -> Option<Result<u64, Trap>> {
    let size = memory.size();
    if !part.lies_in(size) {
        return None;
    }
    let ram = Ram::new(memory, part);
    Some(translate(&ram, csrs, Mode::VS, 0u64, Access::Fetch, false))
}

fn trap(cause: u64, tval: u64, tval2: u64, implicit: bool) -> Trap {
    Trap {
        cause,
        interrupt: false,
        tval,
        tval2,
        gva: true,
        implicit,
    }
}

// What htinst has after HS has taken a trap from VS.
fn htinst_after(trap: &Trap) -> Option<u64> {
    let mut csrs = Csrs::at_reset();
    let mut regs = Regs::starting_at(0);
    enter_hs(&mut csrs, &mut regs, Mode::VS, trap);
    read(&csrs, Mode::HS, 0x64A).ok()
}

// The entry of vsatp's table lies at 40000, which hgatp's has no leaf for: an implicit read's fault.
#[test]
fn a_fetch_whose_entry_has_no_place(rt: HostRuntime) {
    let part = part(&[0], 512, 520, 1, 16);
    let mut memory = ram(rt.alloc(), &[]).expect(&rt, "memory");
    let csrs = with(&[(0x280, 0x8000_0000_0000_0040)]);
    let refused = trap(20, 0, 0x1_0000, true);
    assert!(rt; fetched(&mut memory, &part, &csrs) == Some(Err(refused)));
    assert!(rt; htinst_after(&refused) == Some(0x3000));
    assert!(rt; fetched(&mut memory, &part, &with(&[])) == Some(Ok(0x8000_1000)));
}

// The root of vsatp's table is the page 0, which hgatp's table does not map: htinst becomes 0 there.
#[test]
fn a_fetch_whose_root_has_no_place(rt: HostRuntime) {
    let part = part(&[0], 512, 520, 1, 16);
    let mut memory = ram(rt.alloc(), &[(0x9000, 0)]).expect(&rt, "memory");
    let csrs = with(&[(0x280, 0x8000_0000_0000_0000)]);
    let refused = trap(20, 0, 0, true);
    assert!(rt; fetched(&mut memory, &part, &csrs) == Some(Err(refused)));
    assert!(rt; htinst_after(&refused) == Some(0));
}

// HLV.BU and HLVX.HU of x10 from the address in x11.
fn hlv_bu() -> Op
    ensures kind { IsHlvOrHsv result }
{
    Op::GuestLoad {
        width: Width::Byte,
        signed: false,
        rd: Reg::new(10),
        rs1: Reg::new(11),
    }
}

fn hlvx_hu() -> Op
    ensures kind { IsHlvOrHsv result }
{
    Op::GuestFetch {
        width: Width::Half,
        rd: Reg::new(10),
        rs1: Reg::new(11),
    }
}

// How an access at 1000 ends: with x10, or by its trap. None where the part does not lie in memory.
fn accessed(
    memory: &mut PhysMem,
    part: &Part,
    state: &mut Virtual,
    op: Op,
    console: &mut Console,
) -> Option<Result<u64, Trap>>
    requires { IsHlvOrHsv op }
{
    let size = memory.size();
    if !part.lies_in(size) || !fits(&op) {
        return None;
    }
    let mut ram = Ram::new(memory, part);
    match access(&mut ram, state, op, false, console) {
        Accessed::Done => Some(Ok(state.regs.x[10])),
        Accessed::Raise(trap) => Some(Err(trap)),
    }
}

// In a mode with these registers, where page 1 can only be executed, and has the bytes 41 and 0.
fn loaded(
    alloc: Global,
    mode: Mode,
    values: &[(u16, u64)],
    op: Op,
) -> Result<Option<Result<u64, Trap>>, NoMemory>
    requires { IsHlvOrHsv op }
{
    let part = part(&[0], 512, 520, 1, 16);
    let mut memory = ram(alloc, &[(0x9008, 0x2000_2859), (0xA000, 0x41)])?;
    let mut console = Console::new(alloc, 0, Vec::new(alloc))?;
    let mut state = Virtual::starting_at(mode, 0x8000_0000);
    state.csrs = with(values);
    state.regs.x[11] = 0x1000;
    Ok(accessed(&mut memory, &part, &mut state, op, &mut console))
}

// hstatus with SPVP, and MXR of vsstatus and of sstatus.
const AS_VS: (u16, u64) = (0x600, 0x100);

const VS_MXR: (u16, u64) = (0x200, 0x8_0000);

const HS_MXR: (u16, u64) = (0x100, 0x8_0000);

// A page that can only be executed is loaded from with sstatus.MXR alone.
#[test]
fn hlv_of_an_executable_page(rt: HostRuntime) {
    let refused = Some(Err(trap(21, 0x1000, 0x400, false)));
    assert!(rt; loaded(rt.alloc(), Mode::HS, &[AS_VS], hlv_bu()).expect(&rt, "memory") == refused);
    assert!(rt;
        loaded(rt.alloc(), Mode::HS, &[AS_VS, VS_MXR], hlv_bu()).expect(&rt, "memory") == refused
    );
    assert!(rt;
        loaded(rt.alloc(), Mode::HS, &[AS_VS, HS_MXR], hlv_bu()).expect(&rt, "memory")
            == Some(Ok(65))
    );
}

#[test]
fn hlvx_of_an_executable_page(rt: HostRuntime) {
    for values in [[AS_VS, AS_VS], [AS_VS, VS_MXR], [AS_VS, HS_MXR]] {
        assert!(rt;
            loaded(rt.alloc(), Mode::HS, &values, hlvx_hu()).expect(&rt, "memory") == Some(Ok(65))
        );
    }
}

// From U without HU it is illegal, with its word for stval: 0110000 00001 01011 100 01010 1110011.
#[test]
fn hlv_from_user_mode(rt: HostRuntime) {
    let refused = Trap {
        cause: 2,
        interrupt: false,
        tval: 0x6015_C573,
        tval2: 0,
        gva: false,
        implicit: false,
    };
    assert!(rt;
        loaded(rt.alloc(), Mode::U, &[AS_VS], hlv_bu()).expect(&rt, "memory") == Some(Err(refused))
    );
}

// CSRRW x10, sscratch, x11 in HS.
#[test]
fn an_instruction_on_a_register(rt: HostRuntime) {
    let op = Op::Csr {
        op: CsrOp::Write,
        source: CsrSource::Register(Reg::new(11)),
        rd: Reg::new(10),
        number: 0x140,
    };
    let mut state = Virtual::starting_at(Mode::HS, 0x8000_0000);
    state.regs.x[11] = 7;
    let held: bool = fits(&op);
    assert!(rt; held);
    let end: Accessed = hcsr_emulation::access(&mut state, op);
    assert!(rt; matches!(end, Accessed::Done));
    assert!(rt; state.csrs.hs.scratch == 7);
}
