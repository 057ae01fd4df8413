// The place that the second stage gives an access.

ghost use Rattle.std.specs.Prelude.{◌≡◌, IfSome};
ghost use Rattle.arch_defs.specs.SecondStage.{second_by_walk};
ghost use Rattle.two_stage_walk.specs.Places.{IsPlaceOf};
ghost use Rattle.two_stage_walk.specs.SecondAnswers.{place_in_memory};

use crate::second_answers::{SecondAnswer, second_answer};
use arch_defs::{Access, Csrs, Mode};
use phys_mem::Mem;

// The place in memory, if the access is made there.
#[inline(always)]
fn place_of(answer: SecondAnswer) -> Option<u64>
    ensures { result ≡ place_in_memory answer }
{
    match answer {
        SecondAnswer::InMemory(place) => Some(place),
        SecondAnswer::OnDevice | SecondAnswer::GuestPageFault | SecondAnswer::AccessFault => None,
    }
}

/// The second stage as the registers and memory are: the place that it gives an access of a kind at a guest
/// physical address as a mode.
#[tactic(auto, using(crate::proofs::SecondAnswers::place_alike))]
pub fn second_place<M: Mem>(
    mem: &M,
    csrs: &Csrs,
    mode: Mode,
    address: u64,
    kind: Access,
) -> Option<u64>
    requires backed { M.is_backed mem.now }
    ensures place { result ≡ second_by_walk csrs.now mode (M.memory mem.now) address kind }
    ensures inside { IfSome result (λ place. IsPlaceOf (M.memory mem.now) address place) }
{
    place_of(second_answer(mem, csrs, mode, address, kind))
}
