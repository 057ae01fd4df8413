// Laws of what runs keep.

ghost use Rattle.run_laws.specs.FirstKeys.{RunKeepsFirst, RunKeepsFirstStorable, StartHasFirst};
ghost use Rattle.run_laws.specs.Keys.{RunKeepsKeys, RunKeepsTables, StartHasKeys};
ghost use Rattle.run_laws.specs.Reservations.{FillKeepsInRam, GivesRamAlone, RunKeepsInRam, StartIsInRam, TryKeepsInRam};
ghost use Rattle.run_laws.specs.StorableStates.{FillStaysStorable, RunKeepsStorable, StartIsStorable, TryKeepsStorable};
ghost use Rattle.run_laws.specs.UnreadInputs.{RunKeepsInputs, StartHasInputs};

/// A machine caches and reserves in its RAM alone: where RAM is of whole pages of 4,096 bytes, the frame of
/// each cached entry is in RAM or that of the device page, and what the machine has reserved, if anything, is
/// a place of RAM. Both are so after a fill, after a try, and after a run of any number of steps, and RAM has
/// as many bytes as before. Then its second stage gives places of RAM alone.
pub fn machines_stay_in_ram()
    ensures start { StartIsInRam }
    ensures gives { GivesRamAlone }
    ensures filled { FillKeepsInRam }
    ensures tried { TryKeepsInRam }
    ensures runs { RunKeepsInRam }
{}

/// A machine's registers hold what they can store: x0 is 0, pc a multiple of 4, each control and status
/// register as a write of what it shows would leave it, and what is reserved, if anything, is at a multiple
/// of its width of 4 or 8 bytes. So it is at the machine's start, after a fill, after a try, and after a run
/// of any number of steps.
pub fn machines_stay_storable()
    ensures start { StartIsStorable }
    ensures filled { FillStaysStorable }
    ensures tried { TryKeepsStorable }
    ensures runs { RunKeepsStorable }
{}

/// Each space is for a value of hgatp that can be stored and names a table, and its entries are such as a
/// table of this MODE can give: their pages have 29 bits or 38, and their levels are below 3 or 4. So it is
/// at a guest's start, and after a run of any number of steps.
pub fn spaces_stay_keyed()
    ensures start { StartHasKeys }
    ensures keys { RunKeepsKeys }
    ensures entries { RunKeepsTables }
{}

/// A machine has at most 32 first-stage translations, no two of the same page for the same accesses and the
/// same value of satp or vsatp; each is for such a value that names a table, and such as a table of this MODE
/// can give; and this value, and that of hgatp, can be stored. So it is at a guest's start, and after a run
/// of any number of steps.
pub fn first_stays_keyed()
    ensures start { StartHasFirst }
    ensures runs { RunKeepsFirst }
    ensures storable { RunKeepsFirstStorable }
{}

/// The inputs that are unread are such as a guest may be given: at most 65,536, their moments below 2^62 and
/// none less than the one before. So it is at a guest's start, whose inputs they are, and after a run of any
/// number of steps.
pub fn inputs_stay_in_order()
    ensures start { StartHasInputs }
    ensures runs { RunKeepsInputs }
{}
