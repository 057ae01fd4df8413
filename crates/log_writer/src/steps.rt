// One step of the log: it is made, and its lines are put.

ghost use Rattle.std.specs.Prelude.{◌≡◌, ◌+◌, ◌≤◌, ◌++◌, ℕ, [], ◌∷◌, true, is_ok, IfOk, IsErrOf, OnErr, OnOk};
ghost use Rattle.std.specs.Option.{option_to_list};
ghost use Rattle.caching_steps.specs.Noting.{second_name};
ghost use Rattle.caching_steps.specs.Remembering.{fill_notes, found_notes, notes_of};
ghost use Rattle.guest_settings.specs.declared.statuses.Status.TheVariants.{Running};
ghost use Rattle.log_writer.specs.StaleLogs.{HasShown, IsShownOf};
ghost use Rattle.log_writer.specs.Steps.{CanMakeStep, HasBeenMade, IsBeforeStep, IsTriedOnce, IsTriedStep, lines_from_first, second_lines};
ghost use Rattle.machine_defs.specs.Fills.{needed};
ghost use Rattle.machine_defs.specs.Machine.{Machine};
ghost use Rattle.outside.specs.Faults.{Rose};
ghost use Rattle.outside.specs.Pieces.{Puts};
ghost use Rattle.run_log.specs.Fills.{fill_line, next_filled, second_translation};
ghost use Rattle.run_log.specs.Log.{lines_of_step, text_of_lines};
ghost use Rattle.run_log.specs.Seen.{Seen, seen_from};
ghost use Rattle.run_log.specs.Traps.{step_events};
ghost use Rattle.step_logs.specs.Befores.{before_of};
ghost use Rattle.step_logs.specs.StaleUses.{ShowsUses, TellUses};
ghost use Rattle.step_logs.specs.StepTexts.{IsOfStep};

use crate::log_ends::LogEnd;
use crate::stale_logs::StaleLog;
use arch_defs::Entry;
use log_lines::{FillLine, Kinds, Line};
use machine_defs::Event;
use outside::{Sink, SinkFault};
use run_log::second_translation;
use step_logs::{Before, Tried, Try, TryRunner, put_first, put_from_steps, put_line};

// The line of a translation of the second stage that has been cached.
fn second_fill(before: &Before, entry: &Entry) -> Line
    ensures { (s : Seen) → before.now ≡ before_of s.number s.before
        → result ≡ fill_line s (second_translation s.before.platform.virt.csrs.hgatp entry.now) }
{
    Line::Fill(FillLine {
        head: before.head(),
        filled: second_translation(before.csrs.hgatp, entry),
    })
}

// Puts it, where fills are asked for.
fn put_second<O: Sink>(
    asked: bool,
    before: &Before,
    entry: &Entry,
    out: &mut O,
) -> Result<(), SinkFault>
    ensures bytes { (s : Seen) → before.now ≡ before_of s.number s.before
        → Puts O.stands_for out.old out.new (is_ok result)
        (text_of_lines (second_lines asked s (entry.now ∷ []))) }
    ensures cause { OnErr result (Rose (O.faults out.old) (O.faults out.new)) }
    ensures count { O.faults out.old ≤ O.faults out.new }
{
    if asked {
        put_line(out, &second_fill(before, entry))
    } else {
        Ok(())
    }
}

// The same, once it has been noted where stale uses are asked for.
#[tactic(auto, using(crate::proofs::Putting::none_front))]
fn log_fill<O: Sink>(
    kinds: &Kinds,
    before: &Before,
    entry: &Entry,
    stale: &mut StaleLog,
    out: &mut O,
) -> Result<(), LogEnd>
    ensures noted { OnOk result (kinds.now.stale ≡ true → stale.new.steps ≡ stale.old.steps
        ++ notes_of before.now.number (second_name before.now.csrs.hgatp entry.now ∷ [])) }
    ensures bytes { (s : Seen) → before.now ≡ before_of s.number s.before
        → Puts O.stands_for out.old out.new (is_ok result)
        (text_of_lines (second_lines kinds.now.fills s (entry.now ∷ []))) }
    ensures cause { IsErrOf result LogEnd.WriteFault → Rose (O.faults out.old) (O.faults out.new) }
    ensures count { O.faults out.old ≤ O.faults out.new }
{
    stale.note_second(kinds.stale, before, entry)?;
    put_second(kinds.fills, before, entry, out)?;
    Ok(())
}

// Makes one try, after a look at what it is about to do.
fn try_once<R: TryRunner>(
    runner: &mut R,
    kinds: &Kinds,
    stale: &mut StaleLog,
) -> Result<Tried, Entry>
    requires goes_on { CanMakeStep (R.machine runner.old) }
    ensures tried { IsTriedOnce kinds.now (R.machine runner.old) result (R.machine runner.new) }
    ensures most { (R.machine runner.new).platform.steps ≤ (R.machine runner.old).platform.steps + 1 }
    ensures room { needed ≤ (R.machine runner.old).entry_room }
    ensures shown { kinds.now.stale ≡ true → ShowsUses (R.machine runner.old) stale.new.shown }
    ensures steps { stale.new.steps ≡ stale.old.steps }
{
    let tried = Try::next(runner, kinds);
    stale.look(kinds.stale, runner);
    let event = runner.make_try()?;
    Ok(Tried { tried, event })
}

// Makes a step, and puts the lines of what it caches of the second stage. Shows the stale uses of its last
// try, where these are asked for.
fn make_step<R: TryRunner, O: Sink>(
    runner: &mut R,
    kinds: &Kinds,
    before: &Before,
    stale: &mut StaleLog,
    out: &mut O,
) -> Result<Tried, LogEnd>
    requires before { IsBeforeStep before.now (R.machine runner.old) }
    ensures step { IfOk result (λ made. IsTriedStep kinds.now
        (seen_from before.now.number (R.machine runner.old)) before.now made (R.machine runner.new)) }
    ensures shown { OnOk result (kinds.now.stale ≡ true
        → HasShown (seen_from before.now.number (R.machine runner.old)) stale.old stale.new) }
    ensures bytes { Puts O.stands_for out.old out.new (is_ok result) (text_of_lines
        (second_lines kinds.now.fills (seen_from before.now.number (R.machine runner.old))
        (next_filled (R.machine runner.old)))) }
    ensures cause { IsErrOf result LogEnd.WriteFault → Rose (O.faults out.old) (O.faults out.new) }
    ensures count { O.faults out.old ≤ O.faults out.new }
{
    loop {
        match try_once(runner, kinds, stale) {
            Ok(made) => return Ok(made),
            Err(entry) => log_fill(kinds, before, &entry, stale, out)?,
        }
    }
}

// Puts the other lines of a step that has been made, and notes what it has cached of the first stage.
fn put_step<R: TryRunner, O: Sink>(
    runner: &R,
    kinds: &Kinds,
    before: &Before,
    made: &Tried,
    stale: &mut StaleLog,
    out: &mut O,
) -> Result<(), LogEnd>
    ensures noted { OnOk result ((s : Seen) → kinds.now.stale ≡ true
        → IsShownOf s before.now stale.old.shown → s.before.platform.status ≡ Running
        → step_events s ≡ option_to_list made.now.event
        → stale.new.steps ≡ stale.old.steps ++ found_notes s.number s.before) }
    ensures bytes { (origin : Machine) (from : ℕ) (s : Seen)
        → IsOfStep kinds.now s before.now made.now (R.machine runner.now)
        → s.before.platform.status ≡ Running
        → (kinds.now.stale ≡ true → ShowsUses s.tried stale.old.shown)
        → (kinds.now.stale ≡ true → TellUses origin from s stale.old.steps)
        → Puts O.stands_for out.old out.new (is_ok result)
        (text_of_lines (lines_from_first kinds.now origin from s)) }
    ensures cause { IsErrOf result LogEnd.WriteFault → Rose (O.faults out.old) (O.faults out.new) }
    ensures count { O.faults out.old ≤ O.faults out.new }
{
    put_first(kinds.fills, before, made, out)?;
    stale.put_if(kinds.stale, before, &made.event, out)?;
    put_from_steps(runner, kinds, before, made, out)?;
    Ok(())
}

/// Makes the step of a machine that goes on, of which this is kept, and puts its lines. Answers what the step
/// was, unless it waits for good.
pub fn log_step<R: TryRunner, O: Sink>(
    runner: &mut R,
    kinds: &Kinds,
    before: &Before,
    stale: &mut StaleLog,
    out: &mut O,
) -> Result<Option<Event>, LogEnd>
    requires before { IsBeforeStep before.now (R.machine runner.old) }
    ensures made { IfOk result (λ event. HasBeenMade (seen_from before.now.number (R.machine runner.old))
        event (R.machine runner.new)) }
    ensures noted { OnOk result (kinds.now.stale ≡ true → stale.new.steps
        ≡ (stale.old.steps ++ fill_notes before.now.number (R.machine runner.old))
        ++ found_notes before.now.number (R.machine runner.old)) }
    ensures bytes { (origin : Machine) (from : ℕ)
        → (kinds.now.stale ≡ true → TellUses origin from (seen_from before.now.number (R.machine runner.old))
        (stale.old.steps ++ fill_notes before.now.number (R.machine runner.old)))
        → Puts O.stands_for out.old out.new (is_ok result) (text_of_lines
        (lines_of_step kinds.now origin from (seen_from before.now.number (R.machine runner.old)))) }
    ensures cause { IsErrOf result LogEnd.WriteFault → Rose (O.faults out.old) (O.faults out.new) }
    ensures count { O.faults out.old ≤ O.faults out.new }
{
    let made = make_step(runner, kinds, before, stale, out)?;
    put_step(runner, kinds, before, &made, stale, out)?;
    Ok(made.event)
}
