// Laws of the definitions.

ghost use Rattle.world_switch.specs.Laws.{ExceptionsAlike, FencesAlike, FindsAlike, IllegalAlike, IllegalToWriteAlike, InterruptsAlike, IsVirtual, KnowsAlike, LoadAfterSave, NestedTrapsAlike, OwnMxr, ReadsAlike, ReturnsAlike, SaveAfterLoad, SavesBack, SavesOwn, TimeIsLeft, TranslatesAlike, WaitsAreLeft, WritesAlike};

/// The hart runs with V = 1: in VS for HS and VS, and in VU for U and VU. Saving what was loaded gives back
/// what the guest had, and loading what was saved gives back what the hart had.
pub fn load_and_save()
    ensures virtual_mode { IsVirtual }
    ensures save_after_load { SaveAfterLoad }
    ensures saves_own { SavesOwn }
    ensures saves_back { SavesBack }
    ensures load_after_save { LoadAfterSave }
{}

/// Each access that the hart makes is the guest's own: its translation, with what first-stage translations
/// say of it and what it finds of these, and its read or write of a register.
pub fn accesses_alike()
    ensures translations { TranslatesAlike }
    ensures known { KnowsAlike }
    ensures found { FindsAlike }
    ensures mxr { OwnMxr }
    ensures reads { ReadsAlike }
    ensures writes { WritesAlike }
    ensures illegal { IllegalAlike }
    ensures illegal_to_write { IllegalToWriteAlike }
{}

/// An SRET and an SFENCE.VMA that the hart makes are the guest's. A WFI and a read of time are left to the
/// host.
pub fn instructions_alike()
    ensures returns { ReturnsAlike }
    ensures fences { FencesAlike }
    ensures waits { WaitsAreLeft }
    ensures time { TimeIsLeft }
{}

/// Each trap that the hart delegates is one that the guest takes, at the level for which the hart's VS
/// stands: HS with V = 0, and VS with V = 1.
pub fn traps_alike()
    ensures exceptions { ExceptionsAlike }
    ensures interrupts { InterruptsAlike }
    ensures nested { NestedTrapsAlike }
{}
