// The log of a run.

ghost use Rattle.std.specs.Prelude.{◌≡◌, ◌+◌, ◌^◌, ◌<◌, ◌≤◌, ℕ, true, is_ok, IfOk, IsErrOf, OnOk};
ghost use Rattle.std.specs.List.{list_any};
ghost use Rattle.std.specs.Option.{option_to_list};
ghost use Rattle.fill_laws.specs.Keeping.{IsOrderly};
ghost use Rattle.log_writer.specs.Logging.{HasLogged};
ghost use Rattle.machine_defs.specs.Machine.{Machine};
ghost use Rattle.machine_defs.specs.Runs.{is_instruction, run};
ghost use Rattle.outside.specs.Faults.{Rose};
ghost use Rattle.outside.specs.Pieces.{Puts};
ghost use Rattle.run_log.specs.Counts.{AreCounts};
ghost use Rattle.run_log.specs.Log.{AreCountsIf, lines_from, text_of_lines};
ghost use Rattle.run_log.specs.Seen.{seen};
ghost use Rattle.run_log.specs.Traps.{step_events};
ghost use Rattle.step_logs.specs.Befores.{before_of};

use crate::counts::Counts;
use crate::log_ends::LogEnd;
use crate::plain_runs::pass_plain;
use crate::stale_logs::StaleLog;
use crate::steps::log_step;
use log_lines::Kinds;
use machine_defs::{Event, Status};
use no_memory::NoMemory;
use outside::Sink;
use std::alloc::Global;
use step_logs::{Before, TryRunner};

// Whether an event is an instruction, and no interrupt taken.
fn is_instruction(event: &Event) -> bool
    ensures { result ≡ is_instruction event.now }
{
    match event {
        Event::Plain { .. } | Event::System => true,
        Event::Trap { interrupt, .. } => !*interrupt,
    }
}

// Whether a step was one, if it was made.
fn has_instruction(event: &Option<Event>) -> bool
    ensures { result ≡ list_any is_instruction (option_to_list event.now) }
{
    match event {
        Some(event) => is_instruction(event),
        None => false,
    }
}

// Counts the instruction of a step.
fn count_made(counts: &mut Counts, before: &Before, event: &Option<Event>) -> Result<(), NoMemory>
    ensures { OnOk result ((origin : Machine) (from steps : ℕ) → steps < 2 ^ 63
        → before.now ≡ before_of (from + steps) (run origin (from + steps))
        → step_events (seen origin (from + steps)) ≡ option_to_list event.now
        → AreCounts origin from steps counts.old → AreCounts origin from (steps + 1) counts.new) }
{
    if has_instruction(event) {
        counts.count(&before.key())?;
        Ok(())
    } else {
        Ok(())
    }
}

// Counts it where that is asked for.
fn count_step(
    counts: &mut Counts,
    asked: bool,
    before: &Before,
    event: &Option<Event>,
) -> Result<(), NoMemory>
    ensures { OnOk result ((origin : Machine) (from steps : ℕ) → steps < 2 ^ 63
        → before.now ≡ before_of (from + steps) (run origin (from + steps))
        → step_events (seen origin (from + steps)) ≡ option_to_list event.now
        → AreCountsIf asked origin from steps counts.old
        → AreCountsIf asked origin from (steps + 1) counts.new) }
{
    if asked {
        count_made(counts, before, event)?;
        Ok(())
    } else {
        Ok(())
    }
}

// Puts the lines of `steps` steps, from step `from` on, and counts their instructions.
fn log_steps<R: TryRunner, O: Sink>(
    alloc: Global,
    runner: &mut R,
    kinds: &Kinds,
    from: u64,
    steps: u64,
    out: &mut O,
) -> Result<Counts, LogEnd>
    requires early { (R.machine runner.old).platform.steps ≤ 2 ^ 60 + from }
    requires few { from + steps ≤ 2 ^ 54 }
    ensures counted { IfOk result (λ counts. (origin : Machine) → R.machine runner.old ≡ run origin from
        → AreCountsIf kinds.now.counts origin from steps counts) }
    ensures bytes { (origin : Machine) → R.machine runner.old ≡ run origin from
        → (kinds.now.stale ≡ true → IsOrderly origin)
        → Puts O.stands_for out.old out.new (is_ok result)
        (text_of_lines (lines_from kinds.now origin from steps)) }
    ensures cause { IsErrOf result LogEnd.WriteFault → Rose (O.faults out.old) (O.faults out.new) }
    ensures count { O.faults out.old ≤ O.faults out.new }
{
    let mut counts = Counts::new(alloc);
    let mut stale = StaleLog::new(alloc);
    let last = from + steps;
    let mut next = from;
    while next < last {
        let number = next + pass_plain(runner, kinds, last - next);
        if number == last {
            return Ok(counts);
        }
        if runner.status() != Status::Running {
            return Ok(counts);
        }
        let before = Before::of(runner, number);
        let event = log_step(runner, kinds, &before, &mut stale, out)?;
        count_step(&mut counts, kinds.counts, &before, &event)?;
        stale.renew_if(alloc, kinds.stale, runner)?;
        next = number + 1;
    }
    Ok(counts)
}

/// Puts the log of `steps` steps of a machine's run, from step `from` on.
///
/// # Errors
///
/// A fault of the sink, or want of memory for counts or for the steps that have cached what is
/// cached: a front of the log has been put then.
pub fn log_of<R: TryRunner, O: Sink>(
    alloc: Global,
    runner: &mut R,
    kinds: &Kinds,
    from: u64,
    steps: u64,
    out: &mut O,
) -> Result<(), LogEnd>
    requires early { (R.machine runner.old).platform.steps ≤ 2 ^ 60 }
    requires few { from + steps ≤ 2 ^ 54 }
    requires orderly { kinds.now.stale ≡ true → IsOrderly (R.machine runner.old) }
    ensures log { HasLogged O.Sink kinds.now (R.machine runner.old) from steps (is_ok result)
        out.old out.new }
    ensures cause { IsErrOf result LogEnd.WriteFault → Rose (O.faults out.old) (O.faults out.new) }
    ensures count { O.faults out.old ≤ O.faults out.new }
{
    runner.run(from);
    let counts = log_steps(alloc, runner, kinds, from, steps, out)?;
    counts.put(out)?;
    Ok(())
}
