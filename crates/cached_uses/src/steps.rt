// The cached translations by which a step goes.

ghost use Rattle.std.specs.Prelude.{◌≡◌, ◌++◌, ◌≤◌, [], None};
ghost use Rattle.std.specs.List.{All};
ghost use Rattle.arrayvec.specs.ArrayVec.{array_vec_len};
ghost use Rattle.run_log.specs.Uses.{data_uses};
ghost use Rattle.cached_uses.specs.Serving.{IsFrontMmu, LeadsInto, mmu_of_front};
ghost use Rattle.cached_uses.specs.StepUses.{step_uses, uses_unless_due};

use crate::accesses::add_uses;
use crate::front_mmu::FrontMmu;
use arch_defs::{Access, Entry, Virtual, Width};
use arrayvec::ArrayVec;
use data_access::kind_of;
use op_defs::DataAccess;
use phys_mem::Mem;
use run_log::Use;
use trap_delegation::pending;

// Adds the uses of an access to data, if there is one.
#[tactic(auto, using(crate::proofs::Added::added_rules))]
fn add_data_uses<M: Mem>(
    uses: &mut ArrayVec<Use, 10>,
    mmu: &FrontMmu<'_, M>,
    wanted: Option<DataAccess>,
)
    requires mmu { IsFrontMmu M.Mem mmu.now }
    requires room { array_vec_len uses.old ≤ 5 }
    ensures { uses.new.items ≡ uses.old.items ++ data_uses mmu.now.virt.now mmu.now.entries.now
        (mmu_of_front M.Mem mmu.now) wanted }
{
    match wanted {
        Some(wanted) => {
            let kind = kind_of(wanted.purpose);
            add_uses(uses, mmu, wanted.address, wanted.width, kind);
        }
        None => {}
    }
}

// Adds those of the fetch to none, and then those of the access to data.
#[tactic(auto, using(crate::proofs::Added::added_rules))]
fn add_both<M: Mem>(uses: &mut ArrayVec<Use, 10>, mmu: &FrontMmu<'_, M>, wanted: Option<DataAccess>)
    requires mmu { IsFrontMmu M.Mem mmu.now }
    requires none { uses.old.items ≡ [] }
    ensures { uses.new.items ≡ uses_unless_due mmu.now.virt.now mmu.now.entries.now
        (M.memory mmu.now.mem.now) wanted None }
{
    add_uses(uses, mmu, mmu.virt.regs.pc, Width::Word, Access::Fetch);
    add_data_uses(uses, mmu, wanted);
}

/// Gives the cached translations by which a step goes in place of others, in the order in which it uses them:
/// for its fetch, and then for the access to data that its instruction wants. It uses none where an interrupt
/// is due.
pub fn step_uses<M: Mem>(
    uses: &mut ArrayVec<Use, 10>,
    virt: &Virtual,
    entries: &[Entry],
    mem: &M,
    wanted: Option<DataAccess>,
)
    requires backed { M.is_backed mem.now }
    requires inside { All (LeadsInto (M.memory mem.now)) entries.now }
    ensures { uses.new.items ≡ step_uses virt.now entries.now (M.memory mem.now) wanted }
{
    uses.clear();
    match pending(&virt.csrs, virt.mode) {
        Some(_) => {}
        None => add_both(uses, &FrontMmu { virt, entries, mem }, wanted),
    }
}
