// The names of all translations that a machine has cached.

ghost use Rattle.std.specs.Prelude.{◌≡◌, ◌<◌, ◌∷◌, [], ◌++◌, length, map, IfOk, OnOk};
ghost use Rattle.caching_steps.specs.Noting.{first_name};
ghost use Rattle.caching_steps.specs.Remembering.{cached_names, space_names};
ghost use Rattle.shadow_pool.specs.Slots.{space_at};

use arch_defs::FirstEntry;
use caching_steps::{CachedName, first_name, second_name};
use guest_save::Snapshot;
use no_memory::NoMemory;
use std::alloc::Global;

fn push(names: &mut Vec<CachedName>, name: CachedName) -> Result<(), NoMemory>
    ensures { OnOk result (names.new.items ≡ names.old.items ++ name ∷ []) }
{
    match names.push(name) {
        Ok(()) => Ok(()),
        Err(_) => Err(NoMemory),
    }
}

// Adds those of translations of the first stage.
#[tactic(auto, using(crate::proofs::CachedNames::each_rules))]
fn add_first(names: &mut Vec<CachedName>, entries: &[FirstEntry]) -> Result<(), NoMemory>
    ensures { OnOk result (names.new.items ≡ names.old.items ++ map first_name entries.now) }
{
    for i in 0..entries.len() {
        push(names, first_name(&entries[i]))?;
    }
    Ok(())
}

// Adds those of a space.
#[tactic(auto, using(crate::proofs::CachedNames::each_rules))]
fn add_space<S: Snapshot>(
    names: &mut Vec<CachedName>,
    machine: &S,
    space: u64,
) -> Result<(), NoMemory>
    requires { space < length (S.machine machine.now).spaces }
    ensures { OnOk result (names.new.items
        ≡ names.old.items ++ space_names (space_at (S.machine machine.now).spaces space)) }
{
    let hgatp = machine.key(space);
    for place in 0..machine.len(space) {
        push(names, second_name(hgatp, &machine.entry(space, place)))?;
    }
    Ok(())
}

/// Those of the first stage, and then those of each space. It may answer out of memory.
#[tactic(auto, using(crate::proofs::CachedNames::space_rules))]
pub fn cached_names<S: Snapshot>(alloc: Global, machine: &S) -> Result<Vec<CachedName>, NoMemory>
    ensures { IfOk result (λ names. names.items ≡ cached_names (S.machine machine.now)) }
{
    let mut names = Vec::new(alloc);
    add_first(&mut names, machine.first())?;
    for space in 0..machine.held() {
        add_space(&mut names, machine, space)?;
    }
    Ok(names)
}
