// Laws of one instruction.

ghost use Rattle.instruction_laws.specs.HostPlaces.{OnlyRamChanges, PlacesAreRenamed, RamIsRenamed, RamIsStored};
ghost use Rattle.instruction_laws.specs.MissedPlaces.{MissedIsTold, MissedIsWanted, MissedOffset};
ghost use Rattle.instruction_laws.specs.Renaming.{CachedKeepsPage, CoreKeepsWithin, RenamedCore, RenamedLeaves};

/// One instruction is the same where memory's bytes stand at other places: under a second stage that gives
/// the renamed places, and a reading that gives the same bytes there, it stores to the renamed place,
/// reserves the renamed place, and ends alike. And where the second stage gives places of a set alone, it
/// stores and reserves nowhere else. What is known of virtual addresses is the same for both, and keeps their
/// offsets; so does what first-stage translations say. It finds the same first-stage translations.
pub fn renamed_places()
    ensures renames { RenamedCore }
    ensures keeps { CachedKeepsPage }
    ensures leaves { RenamedLeaves }
    ensures stays { CoreKeepsWithin }
{}

/// Where an instruction stops at an access that the second stage gives no place, its trap tells which it is:
/// what was wanted is what the word at pc wants, and the exact guest physical address is told by tval2 with
/// the offset of tval, or for the read of an entry by tval2 alone.
pub fn missed_places_are_told()
    ensures wanted { MissedIsWanted }
    ensures offset { MissedOffset }
    ensures told { MissedIsTold }
{}

/// A guest's RAM in its blocks of machine memory is the lone machine's, at other places: a second stage
/// that has each place that another gives in RAM at its place in machine memory, and no other address
/// anywhere, is the other with its places renamed, and machine memory has RAM's bytes there. So it is where
/// each guest physical address of RAM is at its place. What an instruction stores
/// in RAM is stored at the new place, and changes nothing else of machine memory.
pub fn ram_is_renamed()
    ensures places { PlacesAreRenamed }
    ensures renames { RamIsRenamed }
    ensures stores { RamIsStored }
    ensures only { OnlyRamChanges }
{}
