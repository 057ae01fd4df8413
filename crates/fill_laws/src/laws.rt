// Laws of fills, of steps and of runs.

ghost use Rattle.fill_laws.specs.Budgets.{BudgetIsSmall, FillGoes, FillIsNoEvent, ReadyStepIsTry, ReadyStepsGo, TryGoes, TryIsEvent};
ghost use Rattle.fill_laws.specs.Keeping.{FillKeepsOrderly, RunKeepsOrderly, StartIsOrderly, TryKeepsOrderly};
ghost use Rattle.fill_laws.specs.Laws.{EventsCompose, FewFills, FillsAreDevices, FillsAreWalks, FillsCanBeMade, FillsGoOn, FillsServeTheDevice, FillsServeThePage, FillsSuffice, FillsSufficeForGuests, FlatIsRam, FlatMissesNothing, FoldsByFront, FrontGivesPlaces, InterruptedMissesNothing, MissingEntriesAreRead, MoreChangeNothing, OnlySpaces, PageHasOneEntry, RunsCompose, StepsEndByRule, StepsGoOn, StepsSettle, StopsAreFaults, TriesChangeSpaces, TriesEndByRule};

/// Runs compose: a run of `a` steps and then of `b` is a run of `a + b`, and so are its events.
pub fn runs_compose()
    ensures states { RunsCompose }
    ensures events { EventsCompose }
{}

/// A machine folds while V is 1 and hgatp names a table. Then its accesses have their places by the entries
/// of the front space, and else by RAM as it is.
pub fn folds_by_the_front_space()
    ensures folding { FoldsByFront }
    ensures places { FrontGivesPlaces }
    ensures flat { FlatIsRam }
{}

/// What a machine lacks, where it folds and no interrupt is due: what the walk of the guest's own table gives
/// for the access at which its next instruction stops under the entries of the front space, unless one of
/// them has this access on the device page. Else nothing. Where the instruction stops, nothing is missing,
/// and no entry has the access on the device page, this walk has a fault.
pub fn missing_entries_are_read()
    ensures read { MissingEntriesAreRead }
    ensures flat { FlatMissesNothing }
    ensures interrupted { InterruptedMissesNothing }
    ensures faults { StopsAreFaults }
{}

/// However small and however stale the front space is, a step needs few fills: after as many as the space
/// has room for and `needed` more, the next try lacks nothing, and more fills would change nothing. The only
/// condition is that a space has room for `needed` entries.
pub fn fills_suffice()
    ensures suffice { FillsSuffice }
    ensures guests { FillsSufficeForGuests }
    ensures stay { MoreChangeNothing }
    ensures steps { StepsSettle }
{}

/// A fill is not a step: it changes the spaces alone, and leaves the step that was to be made, with one fill
/// less to make.
pub fn fills_go_on()
    ensures only { OnlySpaces }
    ensures few { FewFills }
    ensures fills { FillsGoOn }
    ensures steps { StepsGoOn }
{}

/// A run of k steps is made by tries, each of which fills an entry or ends a step. A step takes at most
/// `most_tries` of them.
pub fn tries_are_few()
    ensures filled { FillGoes }
    ensures tried { TryGoes }
    ensures ready { ReadyStepIsTry }
    ensures steps { ReadyStepsGo }
    ensures budget { BudgetIsSmall }
    ensures no_event { FillIsNoEvent }
    ensures event { TryIsEvent }
{}

/// What is filled is what the walk of the guest's own table gives, a place in RAM or the device page, and a
/// step ends as if each access had been placed by a cached entry that permits it, and else by that walk.
pub fn steps_end_by_the_walk()
    ensures places { FillsAreWalks }
    ensures devices { FillsAreDevices }
    ensures same { PageHasOneEntry }
    ensures page { FillsServeThePage }
    ensures device_page { FillsServeTheDevice }
    ensures can { FillsCanBeMade }
    ensures tries { TriesEndByRule }
    ensures steps { StepsEndByRule }
{}

/// A try changes the spaces only by what it names as a fence, or by the entering of a space.
pub fn tries_change_spaces()
    ensures { TriesChangeSpaces }
{}

/// A machine is orderly if it has room for a space and for `needed` entries, and, while it folds, has the
/// space of hgatp in front. It is so at its start, if it has this room, after a fill, after a try, and after
/// a run of any number of steps.
pub fn machines_stay_orderly()
    ensures start { StartIsOrderly }
    ensures filled { FillKeepsOrderly }
    ensures tried { TryKeepsOrderly }
    ensures stays { RunKeepsOrderly }
{}
