// Laws of the definitions.

ghost use Rattle.rv64_asm.specs.Laws.{DecodedFits, DecodedStays, DecodesBack, SystemHasOneWord, SystemOpHasOneWord};

/// Decoding gives each op back whose fields fit: the instruction table has it at its word.
pub fn decodes_back()
    ensures { DecodesBack }
{}

/// Each op that a word is decoded to fits, and the word that it is encoded to is decoded to it again.
pub fn decoded_fits()
    ensures fits { DecodedFits }
    ensures stays { DecodedStays }
{}

/// The word of an op of opcode SYSTEM is the only one of 32 bits that is decoded to it: none of its bits is
/// ignored.
pub fn system_has_one_word()
    ensures { SystemHasOneWord }
{}

/// The same by the op: each word of 32 bits that is decoded to an op of opcode SYSTEM is the op's word.
pub fn system_op_has_one_word()
    ensures { SystemOpHasOneWord }
{}
