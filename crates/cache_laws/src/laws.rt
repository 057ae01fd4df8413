// Laws of how long a cached translation is used.

ghost use Rattle.cache_laws.specs.Caching.{FencedByWalks, FoldingRunsAreActive, GuestsAreArchitectural, GuestsCacheFresh, GuestsFirstFresh, GuestsUseFresh, NothingIsKnown, RunsAreArchitectural, RunsCacheFresh, RunsFirstFresh, RunsUseFresh, UncachedByWalks};
ghost use Rattle.cache_laws.specs.ShortRuns.{FencedFaults, FencedFaultsFreely, FencedFirstFaults, MayDropStale, MayUseStale, OtherFencesKeepFirst, StaleFirstIsUsed, StaleIsUsed};

/// Every run of a lone machine is architectural: it is one that a machine may make which caches translations
/// of both stages freely, those of the second while it folds. Each run of such a machine is one of a machine
/// that caches them as often as the architecture lets it (Privileged Architecture 20211203, 4.2.1, 4.3.2,
/// 8.2.10 and 8.3.2). Even that machine makes a step as the walk of hgatp's table gives, on RAM as it is,
/// where it has cached nothing of the second stage, and so it does each access that a fence before the step
/// names. Where it has cached nothing of the first stage, it knows nothing of virtual addresses.
pub fn runs_are_architectural()
    ensures machines { RunsAreArchitectural }
    ensures guests { GuestsAreArchitectural }
    ensures wider { FoldingRunsAreActive }
    ensures uncached { UncachedByWalks }
    ensures unknown { NothingIsKnown }
    ensures fenced { FencedByWalks }
{}

/// Every run uses fresh translations alone: each entry that is cached at the last try of a step, and so each
/// that the step may use, is what the walk of the guest's own table gave for its page on RAM as it was after
/// some number of earlier steps of the run, under the same value of hgatp, and no step since then was an
/// HFENCE.GVMA that names it (Privileged Architecture 20211203, 8.3.2). So it is in the run of each orderly
/// machine that begins without spaces, and of each guest. Each first-stage translation that a step may use
/// was found by an earlier step, and no step from that one on was a fence that names it (4.2.1, 8.3.1 and
/// 8.3.2). So it is in the run of each machine that begins without any, and of each guest.
pub fn runs_are_fresh()
    ensures cached { RunsCacheFresh }
    ensures uses { RunsUseFresh }
    ensures guests_cached { GuestsCacheFresh }
    ensures guests_uses { GuestsUseFresh }
    ensures first { RunsFirstFresh }
    ensures guests_first { GuestsFirstFresh }
{}

/// Two runs of three steps, computed. A guest of the guest is entered while a stale translation of its first
/// page is cached. Without a fence the lone machine uses it, and a free machine may use or drop it. After an
/// HFENCE.GVMA neither uses it, however often the free machine caches. And runs of two steps: by a stale
/// first-stage translation of HS an instruction is executed, even after an HFENCE.VVMA or an HFENCE.GVMA, but
/// not after an SFENCE.VMA.
pub fn stale_until_the_fence()
    ensures used { StaleIsUsed }
    ensures faults { FencedFaults }
    ensures may_use { MayUseStale }
    ensures may_drop { MayDropStale }
    ensures faults_freely { FencedFaultsFreely }
    ensures first_used { StaleFirstIsUsed }
    ensures first_kept { OtherFencesKeepFirst }
    ensures first_faults { FencedFirstFaults }
{}
