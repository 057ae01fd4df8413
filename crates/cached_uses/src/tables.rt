// What the tables give in the place of a cached translation.

ghost use Rattle.std.specs.Prelude.{◌≡◌, option_map};
ghost use Rattle.arch_defs.specs.declared.first.Tag.{Tag};
ghost use Rattle.arch_defs.specs.declared.roots.SupervisorRoot.{SupervisorRoot};
ghost use Rattle.arch_defs.specs.FirstEntries.{first_entry};
ghost use Rattle.arch_defs.specs.Memory.{ram_memory};
ghost use Rattle.arch_defs.specs.Walk.{most_levels};
ghost use Rattle.machine_defs.specs.Answers.{mmu_by_walk};
ghost use Rattle.machine_defs.specs.FirstLeaves.{entry_walked, tag_of};
ghost use Rattle.stage_walk.specs.Ends.{LeafFits};
ghost use Rattle.run_log.specs.Fills.{leaf_of_first, leaf_of_second};
ghost use Rattle.run_log.specs.Stale.{leaf_by_tables};

use arch_defs::{Access, Entry, LeafPte, Virtual};
use phys_mem::Mem;
use run_log::{Leaf, Use, leaf_of_second};
use two_stage_walk::{entry_by_walk, first_leaf, leaf_address};

// The leaf of an address's one page.
fn page_leaf(va: u64, leaf: &LeafPte) -> Leaf
    requires { LeafFits most_levels leaf.now }
    ensures { (tag : Tag) (atp : SupervisorRoot)
        → result ≡ leaf_of_first (first_entry tag atp va leaf.now) }
{
    Leaf {
        frame: leaf_address(leaf, va) / 4096,
        r: leaf.r,
        w: leaf.w,
        x: leaf.x,
        u: leaf.u,
        level: leaf.level,
    }
}

// By the walk of the first stage, whose entries are read where the walk of the second has them.
#[tactic(auto, unfolding(machine_defs::specs::FirstLeaves::entry_walked))]
fn first_by_tables<M: Mem>(virt: &Virtual, mem: &M, va: u64, access: Access) -> Option<Leaf>
    requires backed { M.is_backed mem.now }
    ensures { result ≡ option_map leaf_of_first (entry_walked (tag_of virt.now)
        (mmu_by_walk (M.memory mem.now) virt.now.csrs virt.now.mode) virt.now va access) }
{
    match first_leaf(mem, &virt.csrs, virt.mode, va, access) {
        Some(leaf) => Some(page_leaf(va, &leaf)),
        None => None,
    }
}

fn shown(entry: Option<Entry>) -> Option<Leaf>
    ensures { result ≡ option_map leaf_of_second entry }
{
    match entry {
        Some(entry) => Some(leaf_of_second(&entry)),
        None => None,
    }
}

/// What the tables give for the access of a use, by the walk of both stages as the registers and RAM are. The
/// guest has the device page or not.
pub fn leaf_by_tables<M: Mem>(device: bool, virt: &Virtual, mem: &M, used: &Use) -> Option<Leaf>
    requires backed { M.is_backed mem.now }
    requires ram { M.memory mem.now ≡ ram_memory (M.memory mem.now).bytes }
    ensures { result ≡ leaf_by_tables device virt.now (M.memory mem.now).bytes used.now }
{
    match used {
        Use::First(_, va, access) => first_by_tables(virt, mem, *va, *access),
        Use::Second(_, address, kind) => {
            shown(entry_by_walk(mem, device, &virt.csrs, *address, *kind))
        }
    }
}
