// The law of the host table's walk.

ghost use Rattle.host_tables.specs.Walks.{GivesRam, OutsideIsGuestPageFault, WalksToRam};

use arch_defs::Part;

/// The walk of the host table of a part gives, for each guest physical address and each kind of access,
/// in RAM a leaf of 2 MiB with all permissions that names the block, and elsewhere no leaf: whatever
/// reads the entries, as long as it gives those of memory.
pub fn walks_to_ram(part: &Part)
    ensures { WalksToRam part.now }
{
    part.host_table();
    part.blocks();
}

/// The second stage by the host table of a part, for memory of at most 512 MiB that holds the part, has each
/// guest physical address of RAM at its place in the blocks, and no other address anywhere: the walk of
/// another is a guest-page fault.
pub fn gives_ram(part: &Part)
    ensures places { GivesRam part.now }
    ensures misses { OutsideIsGuestPageFault part.now }
{
    part.names_each_once();
}
