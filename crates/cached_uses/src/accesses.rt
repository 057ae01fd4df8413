// The cached translations by which an access goes.

ghost use Rattle.std.specs.Prelude.{◌≡◌, ◌+◌, ◌<◌, ◌≤◌, ◌==◌, ◌%◌, [], ◌∷◌, None, true, length};
ghost use Rattle.std.specs.List.{flat_map};
ghost use Rattle.arrayvec.specs.ArrayVec.{array_vec_len};
ghost use Rattle.arch_defs.specs.declared.modes.Access.TheVariants.{Implicit};
ghost use Rattle.arch_defs.specs.FirstEntries.{HasGuestFrame, first_leaf};
ghost use Rattle.arch_defs.specs.Walk.{leaf_address};
ghost use Rattle.arch_defs.specs.Widths.{bytes_in};
ghost use Rattle.arch_defs.specs.WalkedEntries.{folds};
ghost use Rattle.run_log.specs.declared.uses.Use.TheVariants.{First};
ghost use Rattle.run_log.specs.Uses.{access_uses, passed_uses, second_uses, uses_if_known};
ghost use Rattle.cached_uses.specs.Serving.{AddsUses, IsFrontMmu, mmu_of_front, walked_uses};

use crate::first_stage::first_served;
use crate::front_mmu::FrontMmu;
use crate::second_stage::{add_second, folds};
use arch_defs::{Access, Entry, FirstEntry, Found, Shape, SupervisorRoot, Virtual, Width};
use arrayvec::ArrayVec;
use phys_mem::Mem;
use run_log::Use;
use stage_walk::{places_met, walk};
use two_stage_walk::{found_by, leaf_address, privilege_of, supervisor_of};

fn is_aligned(va: u64, width: Width) -> bool
    ensures { result ≡ (va % bytes_in width == 0) }
{
    va % width.bytes() as u64 == 0
}

// Adds the uses by the reads of the entries at these places.
#[tactic(auto, using(crate::proofs::Each::each_rules))]
fn add_reads(uses: &mut ArrayVec<Use, 10>, virt: &Virtual, entries: &[Entry], places: &[u64])
    requires room { array_vec_len uses.old + length places.now ≤ 10 }
    ensures { AddsUses (length places.now) uses.old uses.new
        (flat_map (λ place. second_uses virt.now entries.now place Implicit) places.now) }
{
    for i in 0..places.len() {
        add_second(uses, virt, entries, places[i], Access::Implicit);
    }
}

// Adds the use by what the first stage passes on.
#[tactic(auto, using(crate::proofs::Added::added_rules))]
fn add_passed(
    uses: &mut ArrayVec<Use, 10>,
    virt: &Virtual,
    entries: &[Entry],
    access: Access,
    found: Found,
)
    requires { array_vec_len uses.old < 10 }
    ensures { AddsUses 1 uses.old uses.new (passed_uses virt.now entries.now access found) }
{
    match found {
        Found::Passes(address) => add_second(uses, virt, entries, address, access),
        Found::PageFaults | Found::MissesEntry(_) => {}
    }
}

// Adds the uses by the walk of a table of the first stage, in a state that folds.
#[tactic(auto, using(crate::proofs::Added::added_rules))]
fn add_walked<M: Mem>(
    uses: &mut ArrayVec<Use, 10>,
    mmu: &FrontMmu<'_, M>,
    shape: Shape,
    ppn: u64,
    va: u64,
    access: Access,
)
    requires mmu { IsFrontMmu M.Mem mmu.now }
    requires room { array_vec_len uses.old ≤ 5 }
    ensures { AddsUses 5 uses.old uses.new (walked_uses mmu.now.virt.now mmu.now.entries.now
        (M.memory mmu.now.mem.now) shape ppn va access) }
{
    let (virt, entries) = (mmu.virt, mmu.entries);
    let root = ppn % 0x1000_0000_0000;
    let places = places_met(mmu, root, shape, va, access);
    add_reads(uses, virt, entries, places.as_slice());
    let end = walk(mmu, root, shape, va, access);
    let found = found_by(privilege_of(&virt.csrs, virt.mode), access, va, end);
    add_passed(uses, virt, entries, access, found);
}

// Adds the uses by an address of which the first-stage translation is not cached, in a state that folds.
#[tactic(auto, using(crate::proofs::Added::added_rules), unfolding(arch_defs::specs::Translation::first_stage))]
fn add_folded<M: Mem>(uses: &mut ArrayVec<Use, 10>, mmu: &FrontMmu<'_, M>, va: u64, access: Access)
    requires folds { folds mmu.now.virt.now ≡ true }
    requires mmu { IsFrontMmu M.Mem mmu.now }
    requires room { array_vec_len uses.old ≤ 5 }
    ensures { AddsUses 5 uses.old uses.new (uses_if_known mmu.now.virt.now mmu.now.entries.now
        (mmu_of_front M.Mem mmu.now) va access None) }
{
    match supervisor_of(&mmu.virt.csrs, mmu.virt.mode).atp {
        SupervisorRoot::Bare => add_second(uses, mmu.virt, mmu.entries, va, access),
        SupervisorRoot::Table { mode, ppn, .. } => {
            add_walked(uses, mmu, mode.shape(), ppn, va, access);
        }
    }
}

// The same in any state.
#[tactic(auto, using(crate::proofs::Added::added_rules))]
fn add_unknown<M: Mem>(uses: &mut ArrayVec<Use, 10>, mmu: &FrontMmu<'_, M>, va: u64, access: Access)
    requires mmu { IsFrontMmu M.Mem mmu.now }
    requires room { array_vec_len uses.old ≤ 5 }
    ensures { AddsUses 5 uses.old uses.new (uses_if_known mmu.now.virt.now mmu.now.entries.now
        (mmu_of_front M.Mem mmu.now) va access None) }
{
    if folds(mmu.virt) {
        add_folded(uses, mmu, va, access);
    }
}

// Adds the uses by an address of which it is cached.
#[tactic(auto, using(crate::proofs::Added::added_rules))]
fn add_known(
    uses: &mut ArrayVec<Use, 10>,
    virt: &Virtual,
    entries: &[Entry],
    entry: FirstEntry,
    va: u64,
    access: Access,
)
    requires fits { HasGuestFrame entry }
    requires room { array_vec_len uses.old ≤ 5 }
    ensures { AddsUses 5 uses.old uses.new (First entry va access
        ∷ second_uses virt.now entries.now (leaf_address (first_leaf entry) va) access) }
{
    uses.push(Use::First(entry, va, access));
    add_second(uses, virt, entries, leaf_address(&entry.leaf(), va), access);
}

/// Adds the cached translations by which an access goes, in the order in which it uses them: by what is known
/// of its address, or else by the walk of the first stage through the front space.
#[tactic(auto, using(crate::proofs::Added::access_rules))]
pub fn add_uses<M: Mem>(
    uses: &mut ArrayVec<Use, 10>,
    mmu: &FrontMmu<'_, M>,
    va: u64,
    width: Width,
    access: Access,
)
    requires mmu { IsFrontMmu M.Mem mmu.now }
    requires room { array_vec_len uses.old ≤ 5 }
    ensures { AddsUses 5 uses.old uses.new (access_uses mmu.now.virt.now mmu.now.entries.now
        (mmu_of_front M.Mem mmu.now) va width access) }
{
    if !is_aligned(va, width) {
        return;
    }
    match first_served(mmu.virt, va, access) {
        Some(entry) => add_known(uses, mmu.virt, mmu.entries, entry, va, access),
        None => add_unknown(uses, mmu, va, access),
    }
}
