// What the walk of hgatp's table gives to be cached.

ghost use Rattle.std.specs.Prelude.{◌≡◌};
ghost use Rattle.arch_defs.specs.Memory.{ram_memory};
ghost use Rattle.arch_defs.specs.WalkedEntries.{entry_by_end, entry_by_walk, entry_under};
ghost use Rattle.arch_defs.specs.Walk.{most_levels};
ghost use Rattle.stage_walk.specs.Ends.{LeafFits};

use crate::guest_addresses::second_walk;
use crate::virtual_addresses::leaf_address;
use arch_defs::{Access, Csrs, Entry, GuestRoot, LeafPte, SecondWalkEnd};
use phys_mem::Mem;

/// The cached translation of one page that the walk of hgatp's table in RAM gives for an access of a kind at
/// a guest physical address (Privileged Architecture 20211203, 8.2.10 and 8.5). None where no leaf permits
/// the access, or RAM does not have the leaf's frame, unless that is the device page's and the guest has it.
#[tactic(auto, unfolding(arch_defs::specs::WalkedEntries::entry_by_walk))]
pub fn entry_by_walk<M: Mem>(
    mem: &M,
    device: bool,
    csrs: &Csrs,
    address: u64,
    kind: Access,
) -> Option<Entry>
    requires backed { M.is_backed mem.now }
    requires ram { M.memory mem.now ≡ ram_memory (M.memory mem.now).bytes }
    ensures { result ≡ entry_by_walk device csrs.now (M.memory mem.now).bytes address kind }
{
    match csrs.hgatp {
        GuestRoot::Bare => None,
        GuestRoot::Table { mode, ppn, .. } => {
            let mxr = csrs.hs.status.mxr;
            match second_walk(mem, mxr, mode.shape(), ppn, address, kind) {
                SecondWalkEnd::Leaf(leaf) => Some(entry_under(&leaf, address)),
                SecondWalkEnd::Device(leaf) if device => Some(entry_under(&leaf, address)),
                SecondWalkEnd::Device(_)
                | SecondWalkEnd::GuestPageFault
                | SecondWalkEnd::AccessFault => None,
            }
        }
    }
}

// The entry of an address's page under a leaf.
fn entry_under(leaf: &LeafPte, address: u64) -> Entry
    requires fits { LeafFits most_levels leaf.now }
    ensures { result ≡ entry_under leaf.now address }
{
    Entry {
        page: address / 4096,
        frame: leaf_address(leaf, address) / 4096,
        r: leaf.r,
        w: leaf.w,
        x: leaf.x,
        level: leaf.level,
    }
}
