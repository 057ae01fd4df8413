// What an access to data is for: which access that is, and how the instruction is completed at its place.

ghost use Rattle.std.specs.Prelude.{◌≡◌, ◌⊎◌, ◌==◌, ◌&&◌};
ghost use Rattle.arch_defs.specs.Memory.{reading_of};
ghost use Rattle.arch_defs.specs.Widths.{bytes_in, extended};
ghost use Rattle.machine_defs.specs.Core.{completed, is_reserved, kind_of, stored_if, storing};
ghost use Rattle.arch_defs.specs.Registers.{passed, sets};
ghost use Rattle.data_access.specs.Places.{HoldsStored, IsPlaceFor};

use crate::places::{read_at, write_at};
use arch_defs::{Access, Reg, Virtual, Width, extend};
use int_ops::sized_amo;
use op_defs::Purpose;
use phys_mem::Mem;

/// What access to data an instruction makes for a purpose: LR is a load; SC, whatever is reserved, and an
/// atomic memory operation are stores (Unprivileged ISA 20191213, 8.2 and 8.4); HLVX needs X in place of R
/// (Privileged Architecture 20211203, 8.3.1).
pub fn kind_of(purpose: Purpose) -> Access
    ensures { result ≡ kind_of purpose }
{
    match purpose {
        Purpose::Load { .. } | Purpose::Reserve { .. } => Access::Load,
        Purpose::LoadCode { .. } => Access::ExecLoad,
        Purpose::Store { .. } | Purpose::StoreReserved { .. } | Purpose::Modify { .. } => {
            Access::Store
        }
    }
}

/// Completes an instruction at the place of its access: stores what it stores, sets what it sets, and has pc
/// go on. No other byte of memory changes.
pub fn complete<M: Mem>(
    mem: &mut M,
    state: &mut Virtual,
    width: Width,
    purpose: Purpose,
    place: u64,
)
    requires backed { M.is_backed mem.old }
    requires place { IsPlaceFor (M.memory mem.old) width place }
    ensures state { state.new ≡
        (completed (reading_of (M.memory mem.old)) state.old width purpose place).state }
    ensures memory { HoldsStored (M.memory mem.old)
        (completed (reading_of (M.memory mem.old)) state.old width purpose place).stored
        (M.memory mem.new) }
    ensures backed { M.is_backed mem.new }
    ensures keeps { (mem.new ≡ mem.old) ⊎ M.keeps mem.old mem.new }
{
    match purpose {
        Purpose::Load { signed, rd } => load(mem, state, width, signed, rd, place),
        Purpose::LoadCode { rd } => load(mem, state, width, false, rd, place),
        Purpose::Store { value } => store(mem, state, width, value, place),
        Purpose::Reserve { rd } => {
            load(mem, state, width, true, rd, place);
            state.reservation = Some((place, width.bytes()));
        }
        Purpose::StoreReserved { value, rd } => {
            store_reserved(mem, state, width, value, rd, place);
        }
        Purpose::Modify { op, operand, rd } => {
            let held = read_at(mem, place, width);
            write_at(mem, place, width, sized_amo(op, width, held, operand));
            state.set(rd, extend(width, true, held));
        }
    }
}

/// Completes a load at its place.
#[inline(always)]
pub fn load<M: Mem>(mem: &M, state: &mut Virtual, width: Width, signed: bool, rd: Reg, place: u64)
    requires backed { M.is_backed mem.now }
    requires place { IsPlaceFor (M.memory mem.now) width place }
    ensures { state.new ≡ sets state.old rd
        (extended width signed (reading_of (M.memory mem.now) place (bytes_in width))) }
{
    let held = read_at(mem, place, width);
    state.set(rd, extend(width, signed, held));
}

/// Completes a store at its place.
#[inline(always)]
pub fn store<M: Mem>(mem: &mut M, state: &mut Virtual, width: Width, value: u64, place: u64)
    requires backed { M.is_backed mem.old }
    requires place { IsPlaceFor (M.memory mem.old) width place }
    ensures state { state.new ≡ passed state.old }
    ensures memory { HoldsStored (M.memory mem.old) (storing place width value) (M.memory mem.new) }
    ensures backed { M.is_backed mem.new }
    ensures keeps { M.keeps mem.old mem.new }
{
    write_at(mem, place, width, value);
    state.pass();
}

// Whether two places are the same, each with how many bytes stand there.
fn is_same(at: u64, bytes: u8, place: u64, count: u8) -> bool
    ensures { result ≡ (at == place && bytes == count) }
{
    at == place && bytes == count
}

// Whether this place is reserved for this width.
fn is_reserved(reservation: Option<(u64, u8)>, place: u64, width: Width) -> bool
    ensures { result ≡ is_reserved reservation place width }
{
    match reservation {
        Some((at, bytes)) => is_same(at, bytes, place, width.bytes()),
        None => false,
    }
}

// SC, whether its place is reserved or not.
fn store_reserved<M: Mem>(
    mem: &mut M,
    state: &mut Virtual,
    width: Width,
    value: u64,
    rd: Reg,
    place: u64,
)
    requires backed { M.is_backed mem.old }
    requires place { IsPlaceFor (M.memory mem.old) width place }
    ensures state { state.new ≡ (stored_if (is_reserved state.old.reservation place width)
        state.old width value rd place).state }
    ensures memory { HoldsStored (M.memory mem.old)
        (stored_if (is_reserved state.old.reservation place width)
        state.old width value rd place).stored (M.memory mem.new) }
    ensures backed { M.is_backed mem.new }
    ensures keeps { (mem.new ≡ mem.old) ⊎ M.keeps mem.old mem.new }
{
    let reserved = is_reserved(state.reservation, place, width);
    state.reservation = None;
    if reserved {
        write_at(mem, place, width, value);
        state.set(rd, 0);
    } else {
        state.set(rd, 1);
    }
}
