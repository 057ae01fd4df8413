// The stale uses of a step.

ghost use Rattle.std.specs.Prelude.{◌≡◌, ◌+◌, ◌<◌, ◌≤◌, ◌++◌, ℕ, [], map, length, is_ok, IfOk, OnErr, OnOk};
ghost use Rattle.std.specs.Option.{option_to_list};
ghost use Rattle.arrayvec.specs.ArrayVec.{array_vec_len};
ghost use Rattle.guest_settings.specs.declared.statuses.Status.TheVariants.{Running};
ghost use Rattle.machine_defs.specs.Fills.{ready};
ghost use Rattle.machine_defs.specs.FirstLeaves.{entries_of};
ghost use Rattle.machine_defs.specs.Machine.{Machine};
ghost use Rattle.outside.specs.Faults.{Rose};
ghost use Rattle.outside.specs.Pieces.{Puts};
ghost use Rattle.run_log.specs.Log.{text_of_lines};
ghost use Rattle.run_log.specs.Seen.{Seen};
ghost use Rattle.run_log.specs.Stale.{stale_lines};
ghost use Rattle.run_log.specs.Traps.{step_events};
ghost use Rattle.run_log.specs.Uses.{uses};
ghost use Rattle.rv64_hart.specs.Leaves.{leaves_list};
ghost use Rattle.caching_steps.specs.Noting.{first_name};
ghost use Rattle.caching_steps.specs.Remembering.{TellsAlike, cached_names, found_notes, notes_of};
ghost use Rattle.step_logs.specs.Befores.{before_of};
ghost use Rattle.step_logs.specs.StaleUses.{ShowsUses, TellUses, line_of_stale, stale_if, stale_uses};

use crate::befores::Before;
use crate::putting::put_line;
use crate::runners::TryRunner;
use arch_defs::FirstEntry;
use arrayvec::ArrayVec;
use caching_steps::{CachingSteps, used_name};
use log_lines::{Leaf, Line, StaleLine};
use machine_defs::Event;
use no_memory::NoMemory;
use outside::{Sink, SinkFault};
use run_log::{Use, is_stale, translation_of};
use rv64_hart::Leaves;
use std::alloc::Global;

/// A use that is stale, and what the tables give for its access.
#[derive(Clone, Copy, Default)]
pub struct StaleUse {
    pub used: Use,
    pub walked: Option<Leaf>,
}

/// The stale uses of a try, in the order in which it uses them, what it finds of the first stage, and all its
/// uses.
#[derive(Drop)]
pub struct StaleUses {
    pub uses: ArrayVec<StaleUse, 10>,
    pub found: Leaves,
    pub all: ArrayVec<Use, 10>,
}

// Adds a use of a machine's next try, if it is stale.
fn add_if_stale<R: TryRunner>(stale: &mut ArrayVec<StaleUse, 10>, runner: &mut R, used: &Use)
    requires { array_vec_len stale.old < 10 }
    ensures items { stale.new.items ≡ stale.old.items ++ stale_if (R.machine runner.old) used.now }
    ensures few { array_vec_len stale.new ≤ array_vec_len stale.old + 1 }
    ensures stays { R.machine runner.new ≡ R.machine runner.old }
{
    let walked = runner.leaf_now(used);
    if is_stale(used, &walked) {
        stale.push(StaleUse {
            used: *used,
            walked,
        });
    }
}

// Shows those of these uses, which are those of a machine's next try, in place of others.
#[tactic(auto, using(crate::proofs::StaleLines::each_rules), unfolding(crate::specs::StaleUses::stale_uses))]
fn show_stale<R: TryRunner>(stale: &mut ArrayVec<StaleUse, 10>, runner: &mut R, all: &[Use])
    requires uses { all.now ≡ uses (R.machine runner.old) }
    requires few { length all.now ≤ 10 }
    ensures items { stale.new.items ≡ stale_uses (R.machine runner.old) }
    ensures stays { R.machine runner.new ≡ R.machine runner.old }
{
    stale.clear();
    for i in 0..all.len() {
        add_if_stale(stale, runner, &all[i]);
    }
}

impl StaleUses {
    /// Of no try yet.
    pub fn none() -> StaleUses
        ensures { result.uses.items ≡ [] }
    {
        StaleUses {
            uses: ArrayVec::new(),
            found: Leaves::none(),
            all: ArrayVec::new(),
        }
    }

    /// Shows those of the next try of a machine that is run in place of others. The machine stays.
    pub fn look<R: TryRunner>(&mut self, runner: &mut R)
        ensures shown { ShowsUses (R.machine runner.old) self.new }
        ensures stays { R.machine runner.new ≡ R.machine runner.old }
    {
        self.found = runner.uses(&mut self.all);
        show_stale(&mut self.uses, runner, self.all.as_slice());
    }

    /// Notes what the step has cached of the first stage, unless it waits for good.
    pub fn note_found(
        &self,
        before: &Before,
        event: &Option<Event>,
        steps: &mut CachingSteps,
    ) -> Result<(), NoMemory>
        ensures { OnOk result ((s : Seen) → before.now ≡ before_of s.number s.before
            → s.tried ≡ ready s.before → ShowsUses s.tried self.now
            → s.before.platform.status ≡ Running → step_events s ≡ option_to_list event.now
            → steps.new ≡ steps.old ++ found_notes s.number s.before) }
    {
        match event {
            Some(_) => {
                note_leaves(steps, &self.found, before.number)?;
                Ok(())
            }
            None => Ok(()),
        }
    }

    /// Puts their lines, by the steps that have cached each translation.
    pub fn put<O: Sink>(
        &self,
        before: &Before,
        steps: &CachingSteps,
        out: &mut O,
    ) -> Result<(), SinkFault>
        ensures bytes { (origin : Machine) (from : ℕ) (s : Seen)
            → before.now ≡ before_of s.number s.before → s.tried ≡ ready s.before
            → ShowsUses s.tried self.now → TellUses origin from s steps.now
            → Puts O.stands_for out.old out.new (is_ok result) (text_of_lines (stale_lines origin from s)) }
        ensures cause { OnErr result (Rose (O.faults out.old) (O.faults out.new)) }
        ensures count { O.faults out.old ≤ O.faults out.new }
    {
        put_each(before, steps, self.uses.as_slice(), out)
    }
}

// Notes each translation of these.
fn note_leaves(steps: &mut CachingSteps, found: &Leaves, step: u64) -> Result<(), NoMemory>
    ensures { OnOk result (steps.new
        ≡ steps.old ++ notes_of step (map first_name (leaves_list found.now))) }
{
    note_first(steps, &found.at_pc, step)?;
    note_first(steps, &found.of_data, step)
}

fn note_first(
    steps: &mut CachingSteps,
    entry: &Option<FirstEntry>,
    step: u64,
) -> Result<(), NoMemory>
    ensures { OnOk result (steps.new ≡ steps.old ++ notes_of step (map first_name (entries_of entry.now))) }
{
    match entry {
        Some(entry) => steps.note_first(entry, step),
        None => Ok(()),
    }
}

// The line of one.
fn line_of_stale(before: &Before, steps: &CachingSteps, stale: &StaleUse) -> Line
    ensures { result ≡ line_of_stale before.now steps.now stale.now }
{
    let hgatp = before.csrs.hgatp;
    Line::Stale(StaleLine {
        head: before.head(),
        used: translation_of(hgatp, &stale.used),
        walked: stale.walked,
        since: steps.step(&used_name(hgatp, &stale.used)),
    })
}

fn put_each<O: Sink>(
    before: &Before,
    steps: &CachingSteps,
    stale: &[StaleUse],
    out: &mut O,
) -> Result<(), SinkFault>
    ensures bytes { Puts O.stands_for out.old out.new (is_ok result)
        (text_of_lines (map (line_of_stale before.now steps.now) stale.now)) }
    ensures cause { OnErr result (Rose (O.faults out.old) (O.faults out.new)) }
    ensures count { O.faults out.old ≤ O.faults out.new }
{
    for i in 0..stale.len() {
        put_line(out, &line_of_stale(before, steps, &stale[i]))?;
    }
    Ok(())
}

/// Steps that tell the same of all that a machine has cached, as many notes at most as there is of that.
pub fn renewed<R: TryRunner>(
    alloc: Global,
    runner: &R,
    steps: &CachingSteps,
) -> Result<CachingSteps, NoMemory>
    ensures alike { IfOk result (λ c. TellsAlike (R.machine runner.now) steps.now c) }
    ensures few { IfOk result (λ c. length c ≤ length (cached_names (R.machine runner.now))) }
{
    let names = runner.names(alloc)?;
    match steps.renewed(alloc, names.as_slice()) {
        Ok(left) => Ok(left),
        Err(end) => Err(end),
    }
}
