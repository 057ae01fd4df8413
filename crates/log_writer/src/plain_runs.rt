// Plain steps that are made at once, where the log has nothing of them.

ghost use Rattle.std.specs.Prelude.{◌≡◌, ◌+◌, ◌^◌, ◌≤◌};
ghost use Rattle.log_writer.specs.PlainRuns.{HasPassedPlain, tells_plain_steps};

use log_lines::Kinds;
use step_logs::TryRunner;

// Whether a kind that is asked for tells of plain steps.
fn tells_plain_steps(kinds: &Kinds) -> bool
    ensures { result ≡ tells_plain_steps kinds.now }
{
    kinds.fills || kinds.stale || kinds.steps || kinds.counts
}

/// Makes plain steps, at most this many, where the log has nothing of them. Answers how many.
pub fn pass_plain<R: TryRunner>(runner: &mut R, kinds: &Kinds, most: u64) -> u64
    requires early { (R.machine runner.old).platform.steps + most ≤ 2 ^ 61 }
    ensures { HasPassedPlain kinds.now (R.machine runner.old) most result (R.machine runner.new) }
{
    if tells_plain_steps(kinds) {
        0
    } else {
        runner.run_plain(most)
    }
}
