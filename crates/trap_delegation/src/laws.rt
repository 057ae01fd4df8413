// Laws of the definitions.

ghost use Rattle.trap_delegation.specs.Laws.{DueGoesToItsLevel, DueIsEnabled, DueIsPending, DueIsTaken, GoesToHs, HsEntryLeavesVs, HsGivesModeBack, HsGivesRegsBack, HsGivesSieBack, NoneIsMissed, NothingDue, SpvpStays, VsEntryLeavesHs, VsGivesModeBack, VsGivesRegsBack, VsGivesSieBack};

/// An SRET after a trap entry that nothing came between gives back the mode, the interrupt enable and the
/// registers with pc.
pub fn returns_restore()
    ensures hs_mode { HsGivesModeBack }
    ensures hs_enable { HsGivesSieBack }
    ensures hs_registers { HsGivesRegsBack }

    ensures vs_mode { VsGivesModeBack }
    ensures vs_enable { VsGivesSieBack }
    ensures vs_registers { VsGivesRegsBack }
{}

/// What trap entry leaves as it was: a delegated trap all registers but those of VS.
pub fn entries_leave()
    ensures of_vs { VsEntryLeavesHs }
    ensures of_hs { HsEntryLeavesVs }
    ensures privilege { SpvpStays }
{}

/// With V = 0 a trap goes to HS.
pub fn trap_targets()
    ensures { GoesToHs }
{}

/// The due interrupt is pending, enabled, and taken by the level that it belongs to, to which its trap goes;
/// where none is due, none is such. Nothing is due where nothing is enabled.
pub fn due_is_taken()
    ensures pending { DueIsPending }
    ensures enabled { DueIsEnabled }
    ensures taken { DueIsTaken }
    ensures target { DueGoesToItsLevel }
    ensures none { NoneIsMissed }
    ensures nothing { NothingDue }
{}
