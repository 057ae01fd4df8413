// The trap of an access for which the second stage has no place.

ghost use Rattle.std.specs.Prelude.{◌≡◌};
ghost use Rattle.arch_defs.specs.SecondStage.{guest_page_trap, is_implicit, missing_place_trap};
ghost use Rattle.two_stage_walk.specs.SecondAnswers.{trap_of};

use crate::second_answers::{SecondAnswer, second_answer};
use arch_defs::{Access, Csrs, MissingPlace, Trap};
use phys_mem::Mem;

/// Whether an access is the implicit read of a first-stage entry.
pub fn is_implicit(kind: Access) -> bool
    ensures { result ≡ is_implicit kind }
{
    matches!(kind, Access::Implicit)
}

/// The trap of a guest-page fault of an access.
pub fn guest_page_trap(missing: &MissingPlace) -> Trap
    ensures { result ≡ guest_page_trap missing.now }
{
    let cause = missing.access.faults().guest_page;
    Trap {
        tval2: missing.address / 4,
        implicit: is_implicit(missing.kind),
        ..Trap::of_exception(missing.mode, cause, missing.va)
    }
}

// The trap of an access that has no place, by what the second stage makes of its address.
fn trap_of(missing: &MissingPlace, answer: SecondAnswer) -> Trap
    ensures { result ≡ trap_of missing.now answer }
{
    match answer {
        SecondAnswer::GuestPageFault => guest_page_trap(missing),
        SecondAnswer::InMemory(_) | SecondAnswer::OnDevice | SecondAnswer::AccessFault => {
            missing.access_fault()
        }
    }
}

/// The trap of an access for which the second stage has no place, as the registers and memory are, of a
/// machine without the device page.
#[cold]
#[tactic(auto, using(crate::proofs::SecondAnswers::trap_alike))]
pub fn missing_place_trap<M: Mem>(mem: &M, csrs: &Csrs, missing: &MissingPlace) -> Trap
    requires backed { M.is_backed mem.now }
    ensures { result ≡ missing_place_trap csrs.now (M.memory mem.now) missing.now }
{
    let answer = second_answer(mem, csrs, missing.mode, missing.address, missing.kind);
    trap_of(missing, answer)
}
