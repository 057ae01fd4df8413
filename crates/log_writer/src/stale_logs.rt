// What the log's kind `stale` keeps of a run.

ghost use Rattle.std.specs.Prelude.{◌≡◌, ◌≤◌, ◌++◌, ℕ, [], ◌∷◌, true, is_ok, IsErrOf, OnErr, OnOk};
ghost use Rattle.std.specs.Option.{option_to_list};
ghost use Rattle.caching_steps.specs.Noting.{second_name};
ghost use Rattle.caching_steps.specs.Remembering.{Remembers, found_notes, notes_of};
ghost use Rattle.guest_settings.specs.declared.statuses.Status.TheVariants.{Running};
ghost use Rattle.log_writer.specs.StaleLogs.{IsShownOf};
ghost use Rattle.machine_defs.specs.Machine.{Machine};
ghost use Rattle.machine_defs.specs.Runs.{run};
ghost use Rattle.outside.specs.Faults.{Rose};
ghost use Rattle.outside.specs.Pieces.{Puts};
ghost use Rattle.run_log.specs.Log.{if_asked, text_of_lines};
ghost use Rattle.run_log.specs.Seen.{Seen};
ghost use Rattle.run_log.specs.Stale.{stale_lines};
ghost use Rattle.run_log.specs.Traps.{step_events};
ghost use Rattle.step_logs.specs.StaleUses.{ShowsUses, TellUses};

use crate::log_ends::LogEnd;
use arch_defs::Entry;
use machine_defs::Event;
use no_memory::NoMemory;
use outside::Sink;
use std::alloc::Global;
use step_logs::{Before, CachingSteps, StaleUses, TryRunner, renewed};

// As many notes as this are not renewed.
const FEWEST: usize = 64;

/// The steps that have cached each translation, as notes, and the stale uses of the last try.
#[derive(Drop)]
pub struct StaleLog {
    pub steps: CachingSteps,
    pub shown: StaleUses,
    // They are renewed when there are more than this: twice as many as were needed last, and some.
    pub most: usize,
}

impl StaleLog {
    /// That of a log before its first step.
    pub fn new(alloc: Global) -> StaleLog
        ensures { result.steps ≡ [] }
    {
        StaleLog {
            steps: CachingSteps::new(alloc),
            shown: StaleUses::none(),
            most: FEWEST,
        }
    }

    /// Looks at the next try of a machine, where that is asked for. Nothing changes.
    pub fn look<R: TryRunner>(&mut self, asked: bool, runner: &mut R)
        ensures shown { asked ≡ true → ShowsUses (R.machine runner.old) self.new.shown }
        ensures steps { self.new.steps ≡ self.old.steps }
        ensures stays { R.machine runner.new ≡ R.machine runner.old }
    {
        if asked {
            self.shown.look(runner);
        }
    }

    /// Notes, where that is asked for, that a step has cached a translation of the second stage.
    pub fn note_second(
        &mut self,
        asked: bool,
        before: &Before,
        entry: &Entry,
    ) -> Result<(), NoMemory>
        ensures { OnOk result (asked ≡ true → self.new.steps ≡ self.old.steps
            ++ notes_of before.now.number (second_name before.now.csrs.hgatp entry.now ∷ [])) }
    {
        if asked {
            self.steps
                .note_second(before.csrs.hgatp, entry, before.number)?;
        }
        Ok(())
    }

    // Puts the lines of the stale uses of a step's last try, and then notes what the step has cached of the
    // first stage.
    #[tactic(auto, using(crate::proofs::Putting::whole_front))]
    fn put<O: Sink>(
        &mut self,
        before: &Before,
        event: &Option<Event>,
        out: &mut O,
    ) -> Result<(), LogEnd>
        ensures bytes { (origin : Machine) (from : ℕ) (s : Seen) → IsShownOf s before.now self.old.shown
            → TellUses origin from s self.old.steps
            → Puts O.stands_for out.old out.new (is_ok result) (text_of_lines (stale_lines origin from s)) }
        ensures noted { OnOk result ((s : Seen) → IsShownOf s before.now self.old.shown
            → s.before.platform.status ≡ Running → step_events s ≡ option_to_list event.now
            → self.new.steps ≡ self.old.steps ++ found_notes s.number s.before) }
        ensures cause { IsErrOf result LogEnd.WriteFault → Rose (O.faults out.old) (O.faults out.new) }
        ensures count { O.faults out.old ≤ O.faults out.new }
    {
        self.shown.put(before, &self.steps, out)?;
        self.shown.note_found(before, event, &mut self.steps)?;
        Ok(())
    }

    /// The same where that is asked for.
    pub fn put_if<O: Sink>(
        &mut self,
        asked: bool,
        before: &Before,
        event: &Option<Event>,
        out: &mut O,
    ) -> Result<(), LogEnd>
        ensures bytes { (origin : Machine) (from : ℕ) (s : Seen)
            → (asked ≡ true → IsShownOf s before.now self.old.shown)
            → (asked ≡ true → TellUses origin from s self.old.steps)
            → Puts O.stands_for out.old out.new (is_ok result)
            (text_of_lines (if_asked asked (stale_lines origin from s))) }
        ensures noted { OnOk result ((s : Seen) → asked ≡ true → IsShownOf s before.now self.old.shown
            → s.before.platform.status ≡ Running → step_events s ≡ option_to_list event.now
            → self.new.steps ≡ self.old.steps ++ found_notes s.number s.before) }
        ensures cause { IsErrOf result LogEnd.WriteFault → Rose (O.faults out.old) (O.faults out.new) }
        ensures count { O.faults out.old ≤ O.faults out.new }
    {
        if asked {
            self.put(before, event, out)
        } else {
            Ok(())
        }
    }

    // Leaves one note for each translation that is cached.
    fn renew<R: TryRunner>(&mut self, alloc: Global, runner: &R) -> Result<(), NoMemory>
        ensures { OnOk result ((origin : Machine) (from n : ℕ) → R.machine runner.now ≡ run origin n
            → Remembers origin from n self.old.steps → Remembers origin from n self.new.steps) }
    {
        let steps = renewed(alloc, runner, &self.steps)?;
        self.most = steps.len().saturating_mul(2).saturating_add(FEWEST);
        self.steps = steps;
        Ok(())
    }

    /// Renews the notes of a machine that has been run, where they are many.
    pub fn renew_if<R: TryRunner>(
        &mut self,
        alloc: Global,
        asked: bool,
        runner: &R,
    ) -> Result<(), NoMemory>
        ensures { OnOk result ((origin : Machine) (from n : ℕ) → R.machine runner.now ≡ run origin n
            → Remembers origin from n self.old.steps → Remembers origin from n self.new.steps) }
    {
        if asked && self.steps.len() > self.most {
            self.renew(alloc, runner)
        } else {
            Ok(())
        }
    }
}
