// Laws of a guest's RAM, block by block.

ghost use Rattle.block_moves.specs.Laws.{BlockStays, RamMoves};

/// A guest's RAM is the same where one of its blocks is another one that has its bytes. A block has its bytes
/// as long as its frames do.
pub fn ram_moves()
    ensures moves { RamMoves }
    ensures stays { BlockStays }
{}
