// Laws of the table walk.

ghost use Rattle.stage_walk.specs.Laws.{WordsFit, WordsReadBack, WordsWithVAreNotZero, ZeroMapsNothing, PointersLeadBelow, LeavesGiveRights, PathsAlike, WalksAlike, PathIsLinked, LinkedIsPath, EndsByLevels, LiesInTable, PlacesAligned, EntriesValid, LeafAddress};

/// The word of an entry has 64 bits, and reads back as the entry. With V it is not 0.
pub fn words_read_back()
    ensures fit { WordsFit }
    ensures parts { WordsReadBack }
    ensures set { WordsWithVAreNotZero }
{}

/// To a walk the word 0 maps nothing, a pointer's leads to the table below, and a leaf's gives its frame
/// with its rights.
pub fn words_say()
    ensures nothing { ZeroMapsNothing }
    ensures below { PointersLeadBelow }
    ensures rights { LeavesGiveRights }
{}

/// A walk depends on the entries that it met alone: a reading that agrees on their places meets the
/// same ones, and ends alike.
pub fn walks_depend_on_entries_met()
    ensures paths { PathsAlike }
    ensures ends { WalksAlike }
{}

/// The entries met are the one list in which each stands at the place that the one before names, up to
/// the first that ends the walk; each lies in its table, at a multiple of 8.
pub fn entries_met_are_linked()
    ensures linked { PathIsLinked }
    ensures only { LinkedIsPath }
    ensures inside { LiesInTable }
    ensures aligned { PlacesAligned }
{}

/// The walk ends as a plain recursion by levels does.
pub fn walks_end_by_levels()
    ensures { EndsByLevels }
{}

/// Where a walk is not a page fault, all entries that it read are valid.
pub fn entries_are_valid()
    ensures { EntriesValid }
{}

/// The address under a leaf is the one that the standard's formula makes of its entry, at every level.
pub fn leaf_has_the_standard_address()
    ensures { LeafAddress }
{}
