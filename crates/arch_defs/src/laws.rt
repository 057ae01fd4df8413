// Laws of frames, and of a guest's RAM in machine memory.

ghost use Rattle.arch_defs.specs.MemoryLaws.{FramesApartStay, RamHasItsSize, PlacesAreInBlocks, PlacesAreApart, RamReads, RamWrites, RamStays};

/// Frames apart from those that changed are the same.
pub fn frames_apart_stay()
    ensures { FramesApartStay }
{}

/// A guest's RAM is its blocks of machine memory, in their order: what is read or written at an offset is
/// read or written at its place, and nothing else in memory has a part in it.
pub fn ram_is_its_blocks()
    ensures size { RamHasItsSize }
    ensures inside { PlacesAreInBlocks }
    ensures apart { PlacesAreApart }
    ensures reads { RamReads }
    ensures writes { RamWrites }
    ensures stays { RamStays }
{}
