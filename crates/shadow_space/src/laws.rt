// Laws of folded tables.

ghost use Rattle.shadow_space.specs.Laws.{EntriesGiveRam, GivesEntries, HostFramesAreApart, MissesAreGuestPageFaults, RamIsApart, SpacesAreApart, SpacesLieWithin, TidyIsFolded, TidyLasts, UntouchedAreZeros};

use arch_defs::Part;

/// A space stays tidy in memory where the bytes of its own frames stay, whatever else changes.
pub fn tidy_lasts()
    ensures { TidyLasts }
{}

/// The table of a tidy space walks as its list says.
pub fn tidy_is_folded()
    ensures { TidyIsFolded }
{}

/// The second stage by the table of a tidy space, in memory that holds the guest's RAM, has each guest
/// physical address where the space's entries have it, at its place in machine memory. Any other access is
/// a guest-page fault. What the entries give is in the guest's RAM.
pub fn gives_entries()
    ensures places { GivesEntries }
    ensures faults { MissesAreGuestPageFaults }
    ensures ram { EntriesGiveRam }
{}

/// The frames that a part has for its spaces are frames of the part, apart from its RAM, from its host table
/// and from each other.
pub fn spaces_are_apart(part: &Part)
    ensures within { SpacesLieWithin part.now }
    ensures ram { RamIsApart part.now }
    ensures host { HostFramesAreApart part.now }
    ensures spaces { SpacesAreApart part.now }
{
    part.names_each_once();
}

/// Frames are zeros where nothing has changed them since all memory was.
pub fn untouched_are_zeros()
    ensures { UntouchedAreZeros }
{}
