// Where an access is made, and what is read and written there in memory.

ghost use Rattle.std.specs.Prelude.{◌≡◌, ◌%◌, ◌==◌, IfOk};
ghost use Rattle.arch_defs.specs.Memory.{reading_of};
ghost use Rattle.arch_defs.specs.Traps.{exception, faults_of};
ghost use Rattle.arch_defs.specs.Widths.{bytes_in};
ghost use Rattle.machine_defs.specs.Core.{kind_of, storing};
ghost use Rattle.phys_mem.specs.MemoryBytes.{IsWhole};
ghost use Rattle.data_access.specs.Places.{FitsIn, HoldsStored, IsPlaceFor, place_or_page, place_or_trap};

use crate::purposes::kind_of;
use arch_defs::{Access, Csrs, Mode, Trap, Width};
use op_defs::DataAccess;
use phys_mem::Mem;
use two_stage_walk::{Place, locate, translate};

/// Whether an address is a multiple of a width.
#[inline(always)]
pub fn is_aligned(address: u64, width: Width) -> bool
    ensures { result ≡ (address % bytes_in width == 0) }
{
    address % width.bytes() as u64 == 0
}

// The trap of an access at an address that is not a multiple of its width.
fn misaligned(mode: Mode, va: u64, access: Access) -> Trap
    ensures { result ≡ exception mode (faults_of access).misaligned va }
{
    Trap::of_exception(mode, access.faults().misaligned, va)
}

// Memory is of whole frames, as a read of any place shows.
fn shows_whole<M: Mem>(mem: &M)
    requires backed { M.is_backed mem.now }
    ensures { IsWhole (M.memory mem.now) }
{
    let _ = mem.get(0, 1);
}

/// Where in memory an access to a virtual address is made as a mode, by both stages as the registers and
/// memory are; or its trap, with all that its entry writes. An address that is not a multiple of the width
/// traps before it is translated (own).
#[tactic(auto, using(crate::proofs::Fitting::fits_at))]
pub fn place_for<M: Mem>(
    mem: &M,
    csrs: &Csrs,
    mode: Mode,
    va: u64,
    width: Width,
    access: Access,
) -> Result<u64, Trap>
    requires backed { M.is_backed mem.now }
    ensures answer { result ≡ place_or_trap (M.memory mem.now) csrs.now mode va width access }
    ensures place { IfOk result (λ place. IsPlaceFor (M.memory mem.now) width place) }
{
    if !is_aligned(va, width) {
        return Err(misaligned(mode, va, access));
    }
    shows_whole(mem);
    translate(mem, csrs, mode, va, access, false)
}

/// The same of a machine that has the device page or not, whose access may be on that page.
#[tactic(auto, using(crate::proofs::Fitting::fits_at))]
pub fn place_or_page<M: Mem>(
    mem: &M,
    device: bool,
    csrs: &Csrs,
    mode: Mode,
    wanted: &DataAccess,
) -> Result<Place, Trap>
    requires backed { M.is_backed mem.now }
    ensures answer { result ≡ place_or_page device (M.memory mem.now) csrs.now mode
        wanted.now.address wanted.now.width (kind_of wanted.now.purpose) }
    ensures place { IfOk result (λ place. FitsIn (M.memory mem.now) wanted.now.width place) }
{
    let va = wanted.address;
    let access = kind_of(wanted.purpose);
    if is_aligned(va, wanted.width) {
        shows_whole(mem);
        locate(mem, csrs, mode, va, access, device)
    } else {
        Err(misaligned(mode, va, access))
    }
}

/// The number at a place.
#[tactic(auto, using(crate::proofs::Fitting::number_there))]
pub fn read_at<M: Mem>(mem: &M, place: u64, width: Width) -> u64
    requires backed { M.is_backed mem.now }
    requires place { IsPlaceFor (M.memory mem.now) width place }
    ensures { result ≡ reading_of (M.memory mem.now) place (bytes_in width) }
{
    match mem.get(place, width.bytes()) {
        Some(held) => held,
        None => unreachable!(),
    }
}

/// Writes the low bytes of a value at a place.
#[tactic(auto, using(crate::proofs::Fitting::written_there, crate::proofs::Fitting::same_size))]
pub fn write_at<M: Mem>(mem: &mut M, place: u64, width: Width, value: u64)
    requires backed { M.is_backed mem.old }
    requires place { IsPlaceFor (M.memory mem.old) width place }
    ensures memory { HoldsStored (M.memory mem.old) (storing place width value) (M.memory mem.new) }
    ensures backed { M.is_backed mem.new }
    ensures keeps { M.keeps mem.old mem.new }
{
    let _ = mem.set(place, width.bytes(), value);
}
