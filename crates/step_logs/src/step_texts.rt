// The lines of a step, from the last kinds to the first.

ghost use Rattle.std.specs.Prelude.{◌≡◌, ◌≤◌, map, drop, is_ok, OnErr};
ghost use Rattle.std.specs.Option.{option_to_list};
ghost use Rattle.log_lines.specs.declared.lines.Line.TheVariants as line;
ghost use Rattle.outside.specs.Faults.{Rose};
ghost use Rattle.outside.specs.Pieces.{Puts};
ghost use Rattle.machine_defs.specs.Freshness.{next_found};
ghost use Rattle.machine_defs.specs.Machine.{Machine};
ghost use Rattle.guest_settings.specs.declared.statuses.Status.TheVariants.{Running};
ghost use Rattle.run_log.specs.Calls.{call_lines, inputs_read};
ghost use Rattle.run_log.specs.Fences.{fence_lines};
ghost use Rattle.run_log.specs.Fills.{fill_line, first_translation};
ghost use Rattle.run_log.specs.Log.{if_asked, text_of_lines};
ghost use Rattle.run_log.specs.Seen.{Seen, head_of, step_outcome};
ghost use Rattle.run_log.specs.Steps.{access_made, memory_stored, step_lines, step_word};
ghost use Rattle.run_log.specs.Traps.{step_events, trap_lines, world_lines};
ghost use Rattle.log_lines.specs.declared.kinds.Kinds.{Kinds};
ghost use Rattle.step_logs.specs.Befores.{before_of};
ghost use Rattle.step_lines.specs.Acts.{act_in};
ghost use Rattle.step_logs.specs.StepTexts.{IsOfStep, HasReadOne, console_lines, found_lines, lines_from_calls, lines_from_fences, lines_from_steps, lines_from_traps};
ghost use Rattle.step_logs.specs.Tries.{If, IsData, IsHeldBeforeFence, IsTry};

use crate::befores::Before;
use crate::putting::{put_line, put_optional};
use crate::runners::TryRunner;
use crate::tries::{Try, held_by};
use arch_defs::{Csrs, FirstEntry, Mode, Virtual};
use log_lines::{FillLine, Head, Kinds, Line, MemoryValue};
use machine_defs::Event;
use outside::{Sink, SinkFault};
use run_log::first_translation;
use step_lines::{
    Act, byte_put, call_line, enter_line, fence_line, input_read, leave_line, step_line, trap_line,
};

/// What has become of a step: its last try, and what it was, unless it waits for good.
#[derive(Drop)]
pub struct Tried {
    pub tried: Try,
    pub event: Option<Event>,
}

// The line of a way into V = 1 or out of it.
fn world_line(before: &Before, virt: &Virtual) -> Option<Line>
    ensures { (s : Seen) → before.now ≡ before_of s.number s.before → virt.now ≡ s.after.platform.virt
        → option_to_list result ≡ world_lines s }
{
    match (before.mode.is_virtual(), virt.mode.is_virtual()) {
        (false, true) => Some(enter_line(
            &Head {
                step: before.number,
                mode: virt.mode,
                pc: virt.regs.pc,
            },
            &virt.csrs,
        )),
        (true, false) => Some(leave_line(&before.head(), &before.csrs, &virt.csrs)),
        (false, false) | (true, true) => None,
    }
}

fn put_worlds<R: TryRunner, O: Sink>(
    runner: &R,
    asked: bool,
    before: &Before,
    out: &mut O,
) -> Result<(), SinkFault>
    ensures bytes { (s : Seen) → before.now ≡ before_of s.number s.before
        → R.machine runner.now ≡ s.after
        → Puts O.stands_for out.old out.new (is_ok result)
        (text_of_lines (if_asked asked (world_lines s))) }
    ensures cause { OnErr result (Rose (O.faults out.old) (O.faults out.new)) }
    ensures count { O.faults out.old ≤ O.faults out.new }
{
    if asked {
        put_optional(out, &world_line(before, runner.state()))
    } else {
        Ok(())
    }
}

// The line of a trap.
fn trap_line_of(before: &Before, event: &Option<Event>, csrs: &Csrs) -> Option<Line>
    ensures { (s : Seen) → before.now ≡ before_of s.number s.before
        → step_events s ≡ option_to_list event.now
        → csrs.now ≡ s.after.platform.virt.csrs → option_to_list result ≡ trap_lines s }
{
    match event {
        Some(event) => trap_line(&before.head(), event, csrs),
        None => None,
    }
}

fn put_traps<R: TryRunner, O: Sink>(
    runner: &R,
    asked: bool,
    before: &Before,
    event: &Option<Event>,
    out: &mut O,
) -> Result<(), SinkFault>
    ensures bytes { (s : Seen) → before.now ≡ before_of s.number s.before
        → step_events s ≡ option_to_list event.now
        → R.machine runner.now ≡ s.after → Puts O.stands_for out.old out.new (is_ok result)
        (text_of_lines (if_asked asked (trap_lines s))) }
    ensures cause { OnErr result (Rose (O.faults out.old) (O.faults out.new)) }
    ensures count { O.faults out.old ≤ O.faults out.new }
{
    if asked {
        put_optional(out, &trap_line_of(before, event, &runner.state().csrs))
    } else {
        Ok(())
    }
}

// Puts the lines of traps and of worlds.
#[tactic(auto, using(crate::proofs::Texts::lines_rules))]
fn put_from_traps<R: TryRunner, O: Sink>(
    runner: &R,
    kinds: &Kinds,
    before: &Before,
    event: &Option<Event>,
    out: &mut O,
) -> Result<(), SinkFault>
    ensures bytes { (s : Seen) → before.now ≡ before_of s.number s.before
        → step_events s ≡ option_to_list event.now
        → R.machine runner.now ≡ s.after → Puts O.stands_for out.old out.new (is_ok result)
        (text_of_lines (lines_from_traps kinds.now s)) }
    ensures cause { OnErr result (Rose (O.faults out.old) (O.faults out.new)) }
    ensures count { O.faults out.old ≤ O.faults out.new }
{
    put_traps(runner, kinds.traps, before, event, out)?;
    put_worlds(runner, kinds.worlds, before, out)
}

// The line of a fence. What is cached after it is counted only then.
fn fence_line_after<R: TryRunner>(runner: &R, before: &Before, tried: &Try) -> Option<Line>
    ensures { (s : Seen) → before.now ≡ before_of s.number s.before
        → tried.now.act ≡ act_in (step_outcome s.tried)
        → IsHeldBeforeFence tried.now.act s.tried tried.now.held
        → R.machine runner.now ≡ s.after → option_to_list result ≡ fence_lines s }
{
    match tried.act {
        Act::Fences(..) => { fence_line(&before.head(), &tried.act, tried.held, held_by(runner)) }
        Act::Calls => None,
        Act::Waits => None,
        Act::Accesses(_) => None,
        Act::Other => None,
    }
}

// Puts the line of a fence.
#[tactic(auto, using(crate::proofs::Asked::fences_need))]
fn put_fences<R: TryRunner, O: Sink>(
    runner: &R,
    asked: bool,
    before: &Before,
    tried: &Try,
    out: &mut O,
) -> Result<(), SinkFault>
    ensures bytes { (kinds : Kinds) (s : Seen) → before.now ≡ before_of s.number s.before
        → IsTry kinds s.tried tried.now → kinds.fences ≡ asked → R.machine runner.now ≡ s.after
        → Puts O.stands_for out.old out.new (is_ok result)
        (text_of_lines (if_asked asked (fence_lines s))) }
    ensures cause { OnErr result (Rose (O.faults out.old) (O.faults out.new)) }
    ensures count { O.faults out.old ≤ O.faults out.new }
{
    if asked {
        put_optional(out, &fence_line_after(runner, before, tried))
    } else {
        Ok(())
    }
}

// Puts the lines from fences on.
#[tactic(auto, using(crate::proofs::Texts::lines_rules))]
fn put_from_fences<R: TryRunner, O: Sink>(
    runner: &R,
    kinds: &Kinds,
    before: &Before,
    made: &Tried,
    out: &mut O,
) -> Result<(), SinkFault>
    ensures bytes { (s : Seen) → IsOfStep kinds.now s before.now made.now (R.machine runner.now)
        → Puts O.stands_for out.old out.new (is_ok result)
        (text_of_lines (lines_from_fences kinds.now s)) }
    ensures cause { OnErr result (Rose (O.faults out.old) (O.faults out.new)) }
    ensures count { O.faults out.old ≤ O.faults out.new }
{
    put_fences(runner, kinds.fences, before, &made.tried, out)?;
    put_from_traps(runner, kinds, before, &made.event, out)
}

// Puts the lines of the bytes that have been put on the console.
fn put_bytes<O: Sink>(head: &Head, bytes: &[u8], out: &mut O) -> Result<(), SinkFault>
    ensures bytes { Puts O.stands_for out.old out.new (is_ok result)
        (text_of_lines (map (λ byte. line.Put head.now byte) bytes.now)) }
    ensures cause { OnErr result (Rose (O.faults out.old) (O.faults out.new)) }
    ensures count { O.faults out.old ≤ O.faults out.new }
{
    for i in 0..bytes.len() {
        put_line(out, &byte_put(head, bytes[i]))?;
    }
    Ok(())
}

// Puts the line of the input that has been read, if one has.
fn put_input<R: TryRunner, O: Sink>(
    runner: &R,
    before: &Before,
    out: &mut O,
) -> Result<(), SinkFault>
    ensures bytes { (s : Seen) → before.now ≡ before_of s.number s.before → HasReadOne s
        → R.machine runner.now ≡ s.after
        → Puts O.stands_for out.old out.new (is_ok result)
        (text_of_lines (map (λ input. line.Got (head_of s) input.1) (inputs_read s.before s.after))) }
    ensures cause { OnErr result (Rose (O.faults out.old) (O.faults out.new)) }
    ensures count { O.faults out.old ≤ O.faults out.new }
{
    if runner.inputs().len() < before.unread {
        match before.input {
            Some(input) => put_line(out, &input_read(&before.head(), input)),
            None => Ok(()),
        }
    } else {
        Ok(())
    }
}

// The bytes behind the first `many`.
fn behind(bytes: &[u8], many: usize) -> &[u8]
    ensures { result.now ≡ drop many bytes.now }
{
    if many < bytes.len() {
        &bytes[many..]
    } else {
        &[]
    }
}

// Puts the lines of the bytes of the console.
#[tactic(auto, using(crate::proofs::Texts::lines_rules))]
fn put_console<R: TryRunner, O: Sink>(
    runner: &R,
    before: &Before,
    out: &mut O,
) -> Result<(), SinkFault>
    ensures bytes { (s : Seen) → before.now ≡ before_of s.number s.before → HasReadOne s
        → R.machine runner.now ≡ s.after
        → Puts O.stands_for out.old out.new (is_ok result)
        (text_of_lines (console_lines s)) }
    ensures cause { OnErr result (Rose (O.faults out.old) (O.faults out.new)) }
    ensures count { O.faults out.old ≤ O.faults out.new }
{
    put_bytes(&before.head(), behind(runner.console(), before.bytes), out)?;
    put_input(runner, before, out)
}

// Puts the line of a call or a wait, and those of the bytes of the console.
#[tactic(auto, using(crate::proofs::Texts::lines_rules), unfolding(run_log::specs::Calls::call_lines))]
fn put_calls<R: TryRunner, O: Sink>(
    runner: &R,
    before: &Before,
    act: &Act,
    out: &mut O,
) -> Result<(), SinkFault>
    ensures bytes { (s : Seen) → before.now ≡ before_of s.number s.before
        → act.now ≡ act_in (step_outcome s.tried) → HasReadOne s → R.machine runner.now ≡ s.after
        → Puts O.stands_for out.old out.new (is_ok result)
        (text_of_lines (call_lines s)) }
    ensures cause { OnErr result (Rose (O.faults out.old) (O.faults out.new)) }
    ensures count { O.faults out.old ≤ O.faults out.new }
{
    let head = before.head();
    let after = &runner.state().regs;
    let line = call_line(
        &head,
        act,
        &before.regs,
        after,
        runner.status(),
        runner.time(),
    );
    put_optional(out, &line)?;
    put_console(runner, before, out)
}

fn put_calls_if<R: TryRunner, O: Sink>(
    runner: &R,
    asked: bool,
    before: &Before,
    act: &Act,
    out: &mut O,
) -> Result<(), SinkFault>
    ensures bytes { (s : Seen) → before.now ≡ before_of s.number s.before
        → If asked (act.now ≡ act_in (step_outcome s.tried)) → HasReadOne s
        → R.machine runner.now ≡ s.after
        → Puts O.stands_for out.old out.new (is_ok result)
        (text_of_lines (if_asked asked (call_lines s))) }
    ensures cause { OnErr result (Rose (O.faults out.old) (O.faults out.new)) }
    ensures count { O.faults out.old ≤ O.faults out.new }
{
    if asked {
        put_calls(runner, before, act, out)
    } else {
        Ok(())
    }
}

// Puts the lines from calls on.
#[tactic(auto, using(crate::proofs::Texts::lines_rules))]
fn put_from_calls<R: TryRunner, O: Sink>(
    runner: &R,
    kinds: &Kinds,
    before: &Before,
    made: &Tried,
    out: &mut O,
) -> Result<(), SinkFault>
    ensures bytes { (s : Seen) → IsOfStep kinds.now s before.now made.now (R.machine runner.now)
        → Puts O.stands_for out.old out.new (is_ok result)
        (text_of_lines (lines_from_calls kinds.now s)) }
    ensures cause { OnErr result (Rose (O.faults out.old) (O.faults out.new)) }
    ensures count { O.faults out.old ≤ O.faults out.new }
{
    put_calls_if(runner, kinds.calls, before, &made.tried.act, out)?;
    put_from_fences(runner, kinds, before, made, out)
}

// What the access of a try has stored.
fn stored_by<R: TryRunner>(runner: &R, tried: &Try) -> Option<MemoryValue>
    ensures { (s : Seen) → IsData s.tried tried.now.own → R.machine runner.now ≡ s.after
        → result ≡ memory_stored s.tried s.after.ram (access_made s.tried) }
{
    match &tried.own.made {
        Some(made) => {
            if tried.own.writes {
                Some(runner.value(made))
            } else {
                None
            }
        }
        None => None,
    }
}

// The line of a step that was made.
fn step_line_of<R: TryRunner>(runner: &R, before: &Before, made: &Tried) -> Option<Line>
    ensures { (s : Seen) → before.now ≡ before_of s.number s.before
        → made.now.tried.word ≡ step_word s.tried → IsData s.tried made.now.tried.own
        → step_events s ≡ option_to_list made.now.event → R.machine runner.now ≡ s.after
        → option_to_list result ≡ step_lines s }
{
    match made.event {
        Some(_) => Some(step_line(
            &before.head(),
            made.tried.word,
            &before.regs,
            &runner.state().regs,
            made.tried.own.read,
            stored_by(runner, &made.tried),
        )),
        None => None,
    }
}

fn put_steps<R: TryRunner, O: Sink>(
    runner: &R,
    asked: bool,
    before: &Before,
    made: &Tried,
    out: &mut O,
) -> Result<(), SinkFault>
    ensures bytes { (kinds : Kinds) (s : Seen) → IsOfStep kinds s before.now made.now (R.machine runner.now)
        → kinds.steps ≡ asked → Puts O.stands_for out.old out.new (is_ok result)
        (text_of_lines (if_asked asked (step_lines s))) }
    ensures cause { OnErr result (Rose (O.faults out.old) (O.faults out.new)) }
    ensures count { O.faults out.old ≤ O.faults out.new }
{
    if asked {
        put_optional(out, &step_line_of(runner, before, made))
    } else {
        Ok(())
    }
}

/// Puts the lines of a step from that of the step itself on.
#[tactic(auto, using(crate::proofs::Texts::lines_rules))]
pub fn put_from_steps<R: TryRunner, O: Sink>(
    runner: &R,
    kinds: &Kinds,
    before: &Before,
    made: &Tried,
    out: &mut O,
) -> Result<(), SinkFault>
    ensures bytes { (s : Seen) → IsOfStep kinds.now s before.now made.now (R.machine runner.now)
        → Puts O.stands_for out.old out.new (is_ok result)
        (text_of_lines (lines_from_steps kinds.now s)) }
    ensures cause { OnErr result (Rose (O.faults out.old) (O.faults out.new)) }
    ensures count { O.faults out.old ≤ O.faults out.new }
{
    put_steps(runner, kinds.steps, before, made, out)?;
    put_from_calls(runner, kinds, before, made, out)
}

// The line of a translation of the first stage that has been cached.
fn first_fill(head: Head, entry: &Option<FirstEntry>) -> Option<Line>
    ensures { (s : Seen) → head ≡ head_of s → option_to_list result
        ≡ map (λ e. fill_line s (first_translation e)) (option_to_list entry.now) }
{
    match entry {
        Some(entry) => Some(Line::Fill(FillLine {
            head,
            filled: first_translation(entry),
        })),
        None => None,
    }
}

// Puts the lines of those that a try has found.
#[tactic(auto, using(crate::proofs::Texts::lines_rules))]
fn put_found<O: Sink>(before: &Before, tried: &Try, out: &mut O) -> Result<(), SinkFault>
    ensures bytes { (s : Seen) → before.now ≡ before_of s.number s.before
        → Puts O.stands_for out.old out.new (is_ok result)
        (text_of_lines (found_lines s tried.now.found)) }
    ensures cause { OnErr result (Rose (O.faults out.old) (O.faults out.new)) }
    ensures count { O.faults out.old ≤ O.faults out.new }
{
    put_optional(out, &first_fill(before.head(), &tried.found.at_pc))?;
    put_optional(out, &first_fill(before.head(), &tried.found.of_data))
}

/// Puts the lines of what the step itself has cached: of the first stage, unless it waits for good.
pub fn put_first<O: Sink>(
    asked: bool,
    before: &Before,
    made: &Tried,
    out: &mut O,
) -> Result<(), SinkFault>
    ensures bytes { (kinds : Kinds) (s : Seen) (m : Machine) → IsOfStep kinds s before.now made.now m
        → kinds.fills ≡ asked → s.before.platform.status ≡ Running
        → Puts O.stands_for out.old out.new (is_ok result)
        (text_of_lines (if_asked asked
        (map (λ e. fill_line s (first_translation e)) (next_found s.before)))) }
    ensures cause { OnErr result (Rose (O.faults out.old) (O.faults out.new)) }
    ensures count { O.faults out.old ≤ O.faults out.new }
{
    match made.event {
        Some(_) => {
            if asked {
                put_found(before, &made.tried, out)
            } else {
                Ok(())
            }
        }
        None => Ok(()),
    }
}
