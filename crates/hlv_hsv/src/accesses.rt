// HLV, HLVX and HSV (Privileged Architecture 20211203, 8.2.1, 8.3.1 and 8.6.1).

ghost use Rattle.std.specs.Prelude.{◌≡◌};
ghost use Rattle.arch_defs.specs.Consoles.{ConsoleState};
ghost use Rattle.arch_defs.specs.Memory.{Memory};
ghost use Rattle.arch_defs.specs.Traps.{exception, faults_of};
ghost use Rattle.machine_defs.specs.Core.{kind_of};
ghost use Rattle.machine_defs.specs.DeviceSteps.{device_completed};
ghost use Rattle.machine_defs.specs.HlvAccesses.{hlv_mode, hlv_outcome};
ghost use Rattle.hcsr_emulation.specs.Ends.{IfAccessRaised};
ghost use Rattle.hlv_hsv.specs.Ends.{EndsAs, IsAccessed, IsHlvOp, KeepsMemory, hlv_left, hlv_state, served_from};
ghost use Rattle.hlv_hsv.specs.Places.{hlv_place_in};

use arch_defs::{Csrs, Mode, Trap, Virtual};
use console_dev::Console;
use data_access::{Place, complete, kind_of, place_for, place_or_page};
use device_page::serve;
use hcsr_emulation::{Accessed, Emulated, emulate};
use op_defs::{DataAccess, Op};
use phys_mem::Mem;

// As whom the access is made.
fn hlv_mode(csrs: &Csrs) -> Mode
    ensures { result ≡ hlv_mode csrs.now }
{
    if csrs.hstatus.spvp {
        Mode::VS
    } else {
        Mode::VU
    }
}

/// Where in memory the access of an HLV, HLVX or HSV is made, by tables as memory has them. None where it has
/// no place there.
pub fn place<M: Mem>(mem: &M, csrs: &Csrs, wanted: &DataAccess) -> Option<u64>
    requires { M.is_backed mem.now }
    ensures { result ≡ hlv_place_in (M.memory mem.now) csrs.now wanted.now }
{
    let (at, width) = (wanted.address, wanted.width);
    let kind = kind_of(wanted.purpose);
    match place_for(mem, csrs, hlv_mode(csrs), at, width, kind) {
        Ok(place) => Some(place),
        Err(_) => None,
    }
}

/// Makes an HLV, HLVX or HSV, or tells its trap. Where the mode does not allow it, that is an illegal
/// instruction or a virtual one (8.6.1), with the word of the instruction. Else the access is made as VS
/// where hstatus.SPVP is set, else as VU, under vsatp, vsstatus and hgatp, by tables as memory has them
/// (8.2.1, 8.3.1, 8.5), in memory or, of a guest that has the device page, there; its trap is one of an
/// access with V = 1, with its `gva`. The caller takes the trap in the mode of the instruction.
pub fn access<M: Mem>(
    mem: &mut M,
    state: &mut Virtual,
    op: Op,
    device: bool,
    console: &mut Console,
) -> Accessed
    requires backed { M.is_backed mem.old }
    requires op { IsHlvOp op }
    ensures ends { IsAccessed op device (hlv_state state.old (M.memory mem.old) console.old)
        result (hlv_state state.new (M.memory mem.new) console.new) }
    ensures stays { IfAccessRaised result
        ((state.new ≡ state.old) × (console.new ≡ console.old) × (mem.new ≡ mem.old)) }
    ensures keeps { KeepsMemory M.Mem mem.old mem.new }
{
    match emulate(state, op) {
        Emulated::Accesses(wanted) => make(mem, state, wanted, device, console),
        Emulated::Raise(trap) => Accessed::Raise(trap),
        _ => unreachable!(),
    }
}

// Makes an access that the mode allows. An address that is not a multiple of the width traps before it is
// translated (own).
fn make<M: Mem>(
    mem: &mut M,
    state: &mut Virtual,
    wanted: DataAccess,
    device: bool,
    console: &mut Console,
) -> Accessed
    requires backed { M.is_backed mem.old }
    ensures ends { EndsAs (hlv_left wanted (hlv_state state.old (M.memory mem.old) console.old)
        (hlv_outcome device (M.memory mem.old) state.old wanted))
        result (hlv_state state.new (M.memory mem.new) console.new) }
    ensures stays { IfAccessRaised result
        ((state.new ≡ state.old) × (console.new ≡ console.old) × (mem.new ≡ mem.old)) }
    ensures keeps { KeepsMemory M.Mem mem.old mem.new }
{
    let mode = hlv_mode(&state.csrs);
    match place_or_page(mem, device, &state.csrs, mode, &wanted) {
        Ok(Place::InMemory(place)) => {
            complete(mem, state, wanted.width, wanted.purpose, place);
            Accessed::Done
        }
        Ok(Place::OnDevice(offset)) => serve_or_fault(state, console, mode, wanted, offset),
        Err(trap) => Accessed::Raise(trap),
    }
}

// Makes it on the device page. Where the page does not serve it, that is an access fault.
fn serve_or_fault(
    state: &mut Virtual,
    console: &mut Console,
    mode: Mode,
    wanted: DataAccess,
    offset: u64,
) -> Accessed
    ensures ends { (memory : Memory) → EndsAs
        (served_from (hlv_state state.old memory console.old)
        (exception mode (faults_of (kind_of wanted.purpose)).access wanted.address)
        (device_completed state.old console.old state.old.csrs.time offset wanted.width wanted.purpose))
        result (hlv_state state.new memory console.new) }
    ensures stays { IfAccessRaised result
        ((state.new ≡ state.old) × (console.new ≡ console.old)) }
{
    let clock = state.csrs.time;
    if serve(state, console, clock, offset, wanted.width, wanted.purpose) {
        Accessed::Done
    } else {
        let cause = kind_of(wanted.purpose).faults().access;
        Accessed::Raise(Trap::of_exception(mode, cause, wanted.address))
    }
}
