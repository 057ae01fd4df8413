// Translation by both stages.

ghost use Rattle.std.specs.Prelude.{◌≡◌, IfOk};
ghost use Rattle.arch_defs.specs.SecondStage.{second_by_walk};
ghost use Rattle.machine_defs.specs.Answers.{answer_of, located_by_walk};
ghost use Rattle.machine_defs.specs.Core.{located_by};
ghost use Rattle.two_stage_walk.specs.Answers.{IsPlaceBy, LiesBy, placed};
ghost use Rattle.two_stage_walk.specs.Places.{KeepsOffset};
ghost use Rattle.two_stage_walk.specs.SecondAnswers.{place_or_fault};

use crate::second_answers::{SecondAnswer, second_answer};
use crate::traps::{guest_page_trap, is_implicit, missing_place_trap};
use crate::virtual_addresses::first_stage;
use arch_defs::{Access, Csrs, DEVICE_FRAME, FRAME_SIZE, Found, MissingPlace, Mode, Trap};
use phys_mem::Mem;

/// Where an access is made.
#[derive(Clone, Copy)]
pub enum Place {
    /// In memory, at this address.
    InMemory(u64),
    /// On the device page, at this offset.
    OnDevice(u64),
}

// Where an access is made of which the second stage makes this, or its trap.
#[inline(always)]
fn made_by(device: bool, missing: &MissingPlace, answer: SecondAnswer) -> Result<Place, Trap>
    ensures { result ≡ place_or_fault device missing.now answer }
{
    match answer {
        SecondAnswer::InMemory(place) => Ok(Place::InMemory(place)),
        SecondAnswer::OnDevice => {
            if device && !is_implicit(missing.kind) {
                Ok(Place::OnDevice(missing.address % FRAME_SIZE))
            } else {
                Err(missing.access_fault())
            }
        }
        SecondAnswer::GuestPageFault => Err(guest_page_trap(missing)),
        SecondAnswer::AccessFault => Err(missing.access_fault()),
    }
}

// Where an access is made, or its trap, by what the first stage made of its address.
#[tactic(auto, using(crate::proofs::SecondAnswers::made_alike))]
fn placed_by<M: Mem>(
    mem: &M,
    device: bool,
    csrs: &Csrs,
    mode: Mode,
    va: u64,
    access: Access,
    found: Found,
) -> Result<Place, Trap>
    requires backed { M.is_backed mem.now }
    requires offset { KeepsOffset va found }
    ensures answer { result ≡ placed device csrs.now (M.memory mem.now)
        (located_by (second_by_walk csrs.now mode (M.memory mem.now)) mode va access found) }
    ensures place { IfOk result (λ place. LiesBy device (M.memory mem.now) va place) }
{
    match found {
        Found::Passes(address) => {
            let missing = MissingPlace {
                address,
                kind: access,
                access,
                va,
                mode,
            };
            made_by(
                device,
                &missing,
                second_answer(mem, csrs, mode, address, access),
            )
        }
        Found::PageFaults => Err(Trap::of_exception(mode, access.faults().page, va)),
        Found::MissesEntry(place) => {
            let missing = MissingPlace {
                address: place,
                kind: Access::Implicit,
                access,
                va,
                mode,
            };
            Err(missing_place_trap(mem, csrs, &missing))
        }
    }
}

/// Where an access to a virtual address is made as a mode, by both stages as the registers and memory are, or
/// its trap. The machine has the device page or not. The trap is an access fault, a page fault or a
/// guest-page fault, with all that its entry writes.
pub fn locate<M: Mem>(
    mem: &M,
    csrs: &Csrs,
    mode: Mode,
    va: u64,
    access: Access,
    device: bool,
) -> Result<Place, Trap>
    requires backed { M.is_backed mem.now }
    ensures answer { result ≡ placed device csrs.now (M.memory mem.now)
        (located_by_walk csrs.now mode (M.memory mem.now) va access) }
    ensures place { IfOk result (λ place. LiesBy device (M.memory mem.now) va place) }
{
    let found = first_stage(mem, csrs, mode, va, access);
    placed_by(mem, device, csrs, mode, va, access, found)
}

/// The physical address of that place, or the trap, by what the first stage made of the virtual address.
pub fn translate_found<M: Mem>(
    mem: &M,
    csrs: &Csrs,
    mode: Mode,
    va: u64,
    access: Access,
    device: bool,
    found: Found,
) -> Result<u64, Trap>
    requires backed { M.is_backed mem.now }
    requires offset { KeepsOffset va found }
    ensures answer { result ≡ answer_of device csrs.now (M.memory mem.now)
        (located_by (second_by_walk csrs.now mode (M.memory mem.now)) mode va access found) }
    ensures place { IfOk result (λ place. IsPlaceBy device (M.memory mem.now) va place) }
{
    match placed_by(mem, device, csrs, mode, va, access, found) {
        Ok(Place::InMemory(place)) => Ok(place),
        Ok(Place::OnDevice(offset)) => Ok(DEVICE_FRAME * FRAME_SIZE + offset),
        Err(trap) => Err(trap),
    }
}

/// The same by both stages as the registers and memory are.
pub fn translate<M: Mem>(
    mem: &M,
    csrs: &Csrs,
    mode: Mode,
    va: u64,
    access: Access,
    device: bool,
) -> Result<u64, Trap>
    requires backed { M.is_backed mem.now }
    ensures answer { result ≡ answer_of device csrs.now (M.memory mem.now)
        (located_by_walk csrs.now mode (M.memory mem.now) va access) }
    ensures place { IfOk result (λ place. IsPlaceBy device (M.memory mem.now) va place) }
{
    let found = first_stage(mem, csrs, mode, va, access);
    translate_found(mem, csrs, mode, va, access, device, found)
}
