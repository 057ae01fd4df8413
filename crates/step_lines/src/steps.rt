// Lines of steps.

ghost use Rattle.std.specs.Prelude.{◌≡◌};
ghost use Rattle.run_log.specs.Steps.{changed_from, first_written, second_written};
ghost use Rattle.step_lines.specs.StepLines.{step_line_of};

use arch_defs::Regs;
use log_lines::{Head, Line, MemoryValue, StepLine, Written};
use run_log::changed_from;

// The second register that has another value after a step, behind the first one.
#[tactic(auto, using(crate::proofs::Seconds::behind_first, crate::proofs::Seconds::none_behind))]
fn second_changed(before: &Regs, after: &Regs, first: &Option<Written>) -> Option<Written>
    requires { first.now ≡ first_written after.now (changed_from before.now after.now 0) }
    ensures { result ≡ second_written after.now (changed_from before.now after.now 0) }
{
    match first {
        Some(first) => changed_from(before, after, first.register.number() as u8 + 1),
        None => None,
    }
}

/// The line of a step, by its word, the registers before and after it, and what it read and wrote in RAM.
pub fn step_line(
    head: &Head,
    word: Option<u32>,
    before: &Regs,
    after: &Regs,
    read: Option<MemoryValue>,
    stored: Option<MemoryValue>,
) -> Line
    ensures { result ≡ step_line_of head.now word before.now after.now read stored }
{
    let written = changed_from(before, after, 0);
    let also = second_changed(before, after, &written);
    Line::Step(StepLine {
        head: *head,
        word,
        written,
        also,
        read,
        stored,
    })
}
