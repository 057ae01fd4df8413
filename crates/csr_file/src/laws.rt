// Laws of register access.

ghost use Rattle.csr_file.specs.Laws.{ReadsBack, SatpReadsBack, VsatpReadsBack, HgatpReadsBack, ReadsWhatWasWritten, LeavesOthers, IllegalAsInHs};

/// A read after a write gives what was there before with the writable bits replaced; satp, vsatp and hgatp by
/// their MODE.
pub fn reads_back()
    ensures plain { ReadsBack }
    ensures satp { SatpReadsBack }
    ensures vsatp { VsatpReadsBack }
    ensures hgatp { HgatpReadsBack }
{}

/// A write that is not refused changes the register that a read by the same mode and number then shows.
pub fn reads_what_was_written()
    ensures { ReadsWhatWasWritten }
{}

/// A write of a register leaves what the others show, but for its aliases.
pub fn leaves_others()
    ensures { LeavesOthers }
{}

/// With V = 1 an access is illegal exactly where it is in HS; each other refusal there is a virtual
/// instruction.
pub fn illegal_as_in_hs()
    ensures { IllegalAsInHs }
{}
