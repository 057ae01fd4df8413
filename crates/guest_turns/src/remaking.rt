// The spaces of a guest that goes on from a saved machine.

ghost use Rattle.std.specs.Prelude.{◌≡◌, ◌+◌, ◌<◌, [], drop, length};
ghost use Rattle.guest_save.specs.Headers.{blocks_of};
ghost use Rattle.shadow_pool.specs.Slots.{KeepsPool, TidyPool, spaces_of};
ghost use Rattle.guest_turns.specs.Remaking.{FitsPool, IsRemade};

use arch_defs::Key;
use guest_exit::Pool;
use guest_save::{Saved, Snapshot};
use phys_mem::PhysMem;

/// Makes the spaces of a saved machine in a pool that has none, the last one first.
pub fn remake(pool: &mut Pool, memory: &mut PhysMem, saved: &Saved)
    requires tidy { TidyPool pool.old memory.old }
    requires fits { FitsPool saved.now.machine pool.old }
    requires empty { spaces_of pool.old ≡ [] }
    ensures spaces { spaces_of pool.new ≡ saved.now.machine.spaces }
    ensures keeps { KeepsPool pool.old memory.old pool.new memory.new }
    ensures tidy { TidyPool pool.new memory.new }
{
    let mut i = saved.held();
    while i > 0 {
        i -= 1;
        remake_space(pool, memory, saved, i);
    }
}

// Makes a space where those behind it are there: it is entered, and then its entries are filled, the oldest
// one first.
fn remake_space(pool: &mut Pool, memory: &mut PhysMem, saved: &Saved, i: u64)
    requires tidy { TidyPool pool.old memory.old }
    requires fits { FitsPool saved.now.machine pool.old }
    requires space { i < length saved.now.machine.spaces }
    requires behind { spaces_of pool.old ≡ drop (i + 1) saved.now.machine.spaces }
    ensures remade { IsRemade pool.old memory.old (drop i saved.now.machine.spaces)
        pool.new memory.new }
{
    saved.can_be_saved();
    let key = Key::of(saved.key(i));
    pool.enter(memory, key);
    for j in 0..saved.len(i) {
        pool.fill(memory, key, saved.entry(i, j));
    }
}
