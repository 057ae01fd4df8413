// What the accesses of a state go through, and how the first stage reads its entries by it.

ghost use Rattle.std.specs.Prelude.{◌≡◌, ◌%◌, All, IfSome};
ghost use Rattle.arch_defs.specs.declared.modes.Access.TheVariants.{Implicit};
ghost use Rattle.arch_defs.specs.CachedEntries.{second_by};
ghost use Rattle.arch_defs.specs.Memory.{reading_of};
ghost use Rattle.arch_defs.specs.Translation.{entry_words_through};
ghost use Rattle.two_stage_walk.specs.Places.{IsPlaceOf};
ghost use Rattle.cached_uses.specs.Serving.{IsFrontMmu, LeadsInto};

use crate::second_stage::{entry_at, leaf_of};
use arch_defs::{Access, DEVICE_FRAME, Entry, Trap, Virtual};
use phys_mem::Mem;
use stage_walk::{Fetch, permits_second};
use two_stage_walk::{unread, word_at};

/// The registers, the entries of the front space, and memory. An entry of a table is read at the place that
/// the front space has for it.
#[derive_where(Clone, Copy)]
pub struct FrontMmu<'a, M> {
    pub virt: &'a Virtual,
    pub entries: &'a [Entry],
    pub mem: &'a M,
}

// The place of an entry of a table, if the front space has one.
#[tactic(auto, unfolding(arch_defs::specs::CachedEntries::second_by))]
fn place_in<M: Mem>(mmu: &FrontMmu<'_, M>, address: u64) -> Option<u64>
    requires inside { All (LeadsInto (M.memory mmu.now.mem.now)) mmu.now.entries.now }
    ensures place { result ≡ second_by mmu.now.entries.now mmu.now.virt.now.csrs.hs.status.mxr
        address Implicit }
    ensures inside { IfSome result (λ place. IsPlaceOf (M.memory mmu.now.mem.now) place place) }
    ensures offset { IfSome result (λ place. place % 4096 ≡ address % 4096) }
{
    match entry_at(mmu.entries, address / 4096) {
        Some(entry) => {
            let mxr = mmu.virt.csrs.hs.status.mxr;
            if permits_second(mxr, Access::Implicit, &leaf_of(entry))
                && entry.frame != DEVICE_FRAME
            {
                Some(4096 * entry.frame + address % 4096)
            } else {
                None
            }
        }
        None => None,
    }
}

impl<M: Mem> Fetch for FrontMmu<'_, M> {
    ghost reading = { λ mmu. entry_words_through
        (second_by mmu.entries.now mmu.virt.now.csrs.hs.status.mxr) (reading_of (M.memory mmu.mem.now)) };

    ghost is_backed = { IsFrontMmu M.Mem };

    fn pte_at(&self, place: u64) -> Result<u64, Trap> {
        match place_in(self, place) {
            Some(at) => Ok(word_at(self.mem, at)),
            None => Err(unread(place)),
        }
    }
}
