// A run whose report is compared with a stored one.

ghost use Rattle.std.specs.Prelude.{◌≡◌, IfOk, IsErrOf};
ghost use Rattle.outside.specs.Faults.{Rose};
ghost use Rattle.replay.specs.Comparisons.{verdict_of};
ghost use Rattle.nesthv_top.specs.Plans.{AllRunAsWritten, report_of};
ghost use Rattle.nesthv_top.specs.Runnings.{AreCountsOf, HasRoomForRun};
ghost use Rattle.nesthv_top.specs.Seen.{plan_seen, IsJob};
ghost use Rattle.nesthv_top.specs.Texts.{verdict_line};
ghost use Rattle.nesthv_top.specs.Written.{Writes};

use crate::ends::{Job, RunEnd};
use crate::running::run;
use arrayvec::ArrayVec;
use guest_turns::Moves;
use itoa::Buffer;
use outside::Sink;
use replay::{Compare, Verdict};
use rv64_hart::Tally;
use std::alloc::Global;

/// Runs a job's guests, compares the report with the stored one, and puts the verdict alone.
pub fn replay<O: Sink>(
    alloc: Global,
    job: Job,
    stored: &[u8],
    out: &mut O,
    tally: &mut Tally,
    moves: &mut Moves,
) -> Result<Verdict, RunEnd>
    requires job { IsJob job }
    requires room { HasRoomForRun tally.old moves.old }

    ensures verdict { IfOk result (λ found. found ≡ verdict_of stored.now (report_of (plan_seen job))) }
    ensures out { Writes O.Sink result out.old out.new
        (verdict_line (verdict_of stored.now (report_of (plan_seen job)))) }
    ensures counts { AreCountsOf (plan_seen job) result tally.old tally.new moves.old moves.new }
    ensures machines { AllRunAsWritten (plan_seen job) }
{
    let mut compare = Compare::new(stored);
    run(alloc, job, &mut compare, tally, moves)?;
    let verdict = compare.verdict();
    out.put(verdict_line(verdict).as_slice())?;
    Ok(verdict)
}

// The line that says a verdict.
#[tactic(auto, unfolding(crate::specs::Texts::verdict_line))]
fn verdict_line(verdict: Verdict) -> ArrayVec<u8, 64>
    ensures { result.items ≡ verdict_line verdict }
{
    let mut line = ArrayVec::new();
    match verdict {
        Verdict::Same => line.try_extend_from_slice(b"same\n").unwrap(),
        Verdict::Differs(place) => {
            let mut digits = Buffer::new();
            line.try_extend_from_slice(b"differs at ").unwrap();
            line.try_extend_from_slice(digits.format(place).as_bytes())
                .unwrap();
            line.try_extend_from_slice(b"\n").unwrap();
        }
    }
    line
}
