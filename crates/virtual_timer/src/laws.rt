// Laws of the definitions.

ghost use Rattle.virtual_timer.specs.Laws.{WakeMomentIsLeast, WakeMomentWakes, NothingWakesForGood};

/// The wake moment is the least of the moments below 2^62 at which an interrupt comes that `sie` enables, and
/// there is none exactly where there is no such moment.
pub fn wake_moment_is_least()
    ensures wakes { WakeMomentWakes }
    ensures least { WakeMomentIsLeast }
    ensures none { NothingWakesForGood }
{}
