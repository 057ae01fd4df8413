// How often instructions were executed.

ghost use Rattle.std.specs.Prelude.{◌≡◌, ◌+◌, ◌^◌, ◌<◌, ◌≤◌, ℕ, [], true, is_ok, map, OnErr, OnOk};
ghost use Rattle.std.specs.List.{list_any};
ghost use Rattle.log_lines.specs.CountKeys.{mode_rank};
ghost use Rattle.log_lines.specs.declared.lines.Line.TheVariants as line;
ghost use Rattle.log_writer.specs.Counting.{count_at, count_place};
ghost use Rattle.machine_defs.specs.Machine.{Machine};
ghost use Rattle.machine_defs.specs.Runs.{is_instruction};
ghost use Rattle.outside.specs.Faults.{Rose};
ghost use Rattle.outside.specs.Pieces.{Puts};
ghost use Rattle.run_log.specs.Counts.{AreCounts, count_key};
ghost use Rattle.run_log.specs.Log.{text_of_lines};
ghost use Rattle.run_log.specs.Seen.{seen};
ghost use Rattle.run_log.specs.Traps.{step_events};

use arch_defs::Mode;
use log_lines::{CountKey, CountLine, Line};
use no_memory::NoMemory;
use outside::{Sink, SinkFault};
use std::alloc::Global;
use std::collections::BTreeMap;
use std::marker::Model;
use step_logs::put_line;

/// The numbers of a key, which are in the order of lines of counts.
#[derive(Clone, Copy, PartialEq, Eq, PartialOrd, Ord)]
struct Place {
    mode: u64,
    hgatp: Option<u64>,
    pc: u64,
}

fn mode_rank(mode: Mode) -> u64
    ensures { result ≡ mode_rank mode }
{
    match mode {
        Mode::HS => 0,
        Mode::U => 1,
        Mode::VS => 2,
        Mode::VU => 3,
    }
}

fn count_place(key: &CountKey) -> Place
    ensures { result ≡ count_place key.now }
{
    Place {
        mode: mode_rank(key.mode),
        hgatp: key.hgatp,
        pc: key.pc,
    }
}

/// How often an instruction was executed at each place.
#[derive(Drop)]
pub struct Counts {
    lines: BTreeMap<Place, CountLine>,
}

impl Model for Counts {
    ghost use Rattle.std.specs.Prelude.{◌≡◌, List};
    ghost use Rattle.std.specs.BTreeMap.{values};
    ghost use Rattle.log_lines.specs.declared.lines.CountLine.{CountLine};
    ghost use Rattle.log_writer.specs.Counting.{with_places};

    ghost Value = { List CountLine };

    ghost view = { λ c. values c.lines };

    ghost invariant = { λ c. c.lines.entries ≡ with_places (values c.lines) };
}

impl Counts {
    /// Of no step.
    pub fn new(alloc: Global) -> Counts
        ensures { result ≡ [] }
    {
        Counts {
            lines: BTreeMap::new(alloc),
        }
    }

    // How often at a place so far.
    fn so_far(&self, place: &Place) -> u64
        ensures { result ≡ count_at self.now place.now }
    {
        match self.lines.get(place) {
            Some(line) => line.count,
            None => 0,
        }
    }

    /// And once more, at the step of this key.
    pub fn count(&mut self, key: &CountKey) -> Result<(), NoMemory>
        ensures { OnOk result ((origin : Machine) (from steps : ℕ) → steps < 2 ^ 63
            → key.now ≡ count_key (seen origin (from + steps))
            → list_any is_instruction (step_events (seen origin (from + steps))) ≡ true
            → AreCounts origin from steps self.old → AreCounts origin from (steps + 1) self.new) }
    {
        let place = count_place(key);
        let line = CountLine {
            key: *key,
            count: self.so_far(&place).saturating_add(1),
        };
        self.lines.insert(place, line)?;
        Ok(())
    }

    /// Puts their lines in order.
    pub fn put<O: Sink>(&self, out: &mut O) -> Result<(), SinkFault>
        ensures bytes { Puts O.stands_for out.old out.new (is_ok result)
            (text_of_lines (map line.Count self.now)) }
        ensures cause { OnErr result (Rose (O.faults out.old) (O.faults out.new)) }
        ensures count { O.faults out.old ≤ O.faults out.new }
    {
        for line in self.lines.values() {
            put_line(out, &Line::Count(*line))?;
        }
        Ok(())
    }
}
