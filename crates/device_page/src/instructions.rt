// Instructions whose access is on the device page.

ghost use Rattle.std.specs.Prelude.{◌≡◌};
ghost use Rattle.op_defs.specs.declared.ops.Purpose.TheVariants.{Store};
ghost use Rattle.arch_defs.specs.Registers.{sets};
ghost use Rattle.arch_defs.specs.Widths.{extended};
ghost use Rattle.machine_defs.specs.DeviceSteps.{device_completed};
ghost use Rattle.device_page.specs.Ends.{IsServed};

use crate::accesses::access;
use arch_defs::{Reg, Virtual, Width, extend};
use console_dev::Console;
use op_defs::Purpose;

/// Makes an access of a width and a purpose to the page, at an offset, as the instruction of a state does. It
/// sets what that sets, and has pc go on. The answer is false, and nothing changes, exactly where the page
/// does not serve it: so for HLVX, LR, SC and atomic memory operations.
pub fn serve(
    state: &mut Virtual,
    console: &mut Console,
    clock: u64,
    offset: u64,
    width: Width,
    purpose: Purpose,
) -> bool
    ensures { IsServed (device_completed state.old console.old clock offset width purpose)
        state.old console.old result state.new console.new }
{
    match purpose {
        Purpose::Load { signed, rd } => {
            match access(offset, width.bytes(), None, console, clock) {
                Some(value) => {
                    set_loaded(state, width, signed, rd, value);
                    true
                }
                None => false,
            }
        }
        Purpose::Store { value } => store(state, console, clock, offset, width, value),
        Purpose::LoadCode { .. }
        | Purpose::Reserve { .. }
        | Purpose::StoreReserved { .. }
        | Purpose::Modify { .. } => false,
    }
}

// Sets what a load gives, and has pc go on.
fn set_loaded(state: &mut Virtual, width: Width, signed: bool, rd: Reg, value: u64)
    ensures { state.new ≡ sets state.old rd (extended width signed value) }
{
    state.set(rd, extend(width, signed, value));
}

// A store, whose clock does not count.
fn store(
    state: &mut Virtual,
    console: &mut Console,
    clock: u64,
    offset: u64,
    width: Width,
    value: u64,
) -> bool
    ensures { IsServed (device_completed state.old console.old clock offset width (Store value))
        state.old console.old result state.new console.new }
{
    match access(offset, width.bytes(), Some(value), console, clock) {
        Some(_) => {
            state.pass();
            true
        }
        None => false,
    }
}
