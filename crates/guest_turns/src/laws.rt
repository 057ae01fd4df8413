// Laws of turns and of tries.

ghost use Rattle.guest_turns.specs.Calm.{ClearStepsAreCalm};
ghost use Rattle.guest_turns.specs.Tries.{FillsAreLast, FillsLeaveStep, LastTryIsStep};
ghost use Rattle.guest_turns.specs.TurnLists.{OrderHasNoEffect, RunsItsOwnTurns, RunsMakeAtMost, TurnsCountAlike, TurnsKeepCount};

/// After turns of guests in any order each lone machine has run for the sum of the steps of its own turns. So
/// the order of turns of different guests has no effect.
pub fn turns_are_apart()
    ensures own { RunsItsOwnTurns }
    ensures count { TurnsKeepCount }
    ensures order { OrderHasNoEffect }
{}

/// Whatever is counted of events, turns in any order count for as much as the lone machines' own runs. The
/// sum of pc and word of the plain steps is such a count. A run of `k` makes at most `k` steps.
pub fn turns_count_alike()
    ensures alike { TurnsCountAlike }
    ensures most { RunsMakeAtMost }
{}

/// A try that fills an entry, which is then the last of the front space, leaves the same step, and a try that
/// lacks none makes it.
pub fn tries_make_steps()
    ensures fills { FillsLeaveStep }
    ensures entry { FillsAreLast }
    ensures last { LastTryIsStep }
{}

/// Steps that are plain and fill nothing, and at which no bit of sip or hip is set, are calm together.
pub fn clear_steps_are_calm()
    ensures { ClearStepsAreCalm }
{}
