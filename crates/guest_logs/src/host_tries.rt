// One guest on the hart, whose run is made try by try.

ghost use Rattle.std.specs.Prelude.{◌≡◌, ◌∷◌, [], ◌+◌, ◌^◌, ◌<◌, ◌≤◌, ◌++◌, IfOk, List, length, option_map, slice_index};
ghost use Rattle.arch_defs.specs.declared.cached.Entry.{Entry};
ghost use Rattle.arch_defs.specs.Memory.{load, ram_memory};
ghost use Rattle.arch_defs.specs.Spaces.{front};
ghost use Rattle.guest_logs.specs.HostTries.{IsAlone, IsAnswerTo, access_seen, hlv_wanted};
ghost use Rattle.guest_turns.specs.Hosted.{machine_at};
ghost use Rattle.guest_turns.specs.Sources.{machine_of_source, IsBootableSource};
ghost use Rattle.machine_defs.specs.HlvAccesses.{hlv_place};
ghost use Rattle.machine_defs.specs.Runs.{run};
ghost use Rattle.run_log.specs.Steps.{access_made_if};
ghost use Rattle.step_lines.specs.MadeAccesses.{made_seen};

use crate::cached_names::cached_names;
use crate::uses::{LeafNow, NextUses};
use arch_defs::{Entry, Virtual};
use arrayvec::ArrayVec;
use cached_uses::steps_use;
use caching_steps::CachedName;
use debug_runs::booted;
use guest_save::Snapshot;
use guest_turns::{Host, Made, Source, tries_make_steps, turns_count_alike};
use log_lines::Leaf;
use log_writer::{Act, MadeAccess, MemoryValue, TryRunner};
use machine_defs::{Event, Status};
use no_memory::NoMemory;
use op_defs::DataAccess;
use phys_mem::{BLOCK_SIZE, RAM_BASE};
use run_log::Use;
use rv64_hart::{Leaves, Tally};
use std::alloc::Global;
use std::marker::Model;

// A new tally has room for a turn of this many steps.
const MOST_OF_TURN: u64 = 1 << 52;

/// A host of one guest, which contracts see as the guest's lone machine.
#[derive(Drop)]
pub struct HostTries {
    host: Host,
}

impl Model for HostTries {
    ghost use Rattle.guest_logs.specs.HostTries.{IsAlone};
    ghost use Rattle.guest_turns.specs.Hosted.{machine_at};
    ghost use Rattle.machine_defs.specs.Machine.{Machine};

    ghost Value = { Machine };

    ghost view = { λ run. machine_at run.host.machines 0 };

    ghost invariant = { λ run. IsAlone run.host };
}

impl HostTries {
    /// The guest of a source, alone.
    pub fn new(alloc: Global, source: Source) -> Result<HostTries, NoMemory>
        requires { IsBootableSource source }
        ensures { IfOk result (λ run. run ≡ machine_of_source source) }
    {
        Ok(HostTries {
            host: booted(alloc, source)?,
        })
    }

    // Makes a turn of few steps.
    fn turn(&mut self, k: u64)
        requires early { self.old.platform.steps + k ≤ 2 ^ 61 }
        requires few { k ≤ 2 ^ 52 }
        ensures machine { self.new ≡ run self.old k }
        ensures most { self.new.platform.steps ≤ self.old.platform.steps + k }
    {
        turns_count_alike();
        self.host.rooms_are_small();
        self.host.turn(0, k, &mut Tally::new());
    }

    // The byte at an offset into RAM, and 0 behind its end.
    #[tactic(auto, using(debug_runs::proofs::OneGuest::bytes_of_ram))]
    fn byte(&self, offset: u64) -> u8
        ensures { result ≡ slice_index self.now.ram offset }
    {
        let view = self.host.view(0);
        view.has_whole_blocks();
        if offset / BLOCK_SIZE < view.header().blocks {
            view.byte(offset)
        } else {
            0
        }
    }

    // The number in the bytes from an offset on.
    #[tactic(auto, using(crate::proofs::Numbers::numbers))]
    fn number(&self, offset: u64, width: u8) -> u64
        requires width { width ≤ 8 }
        requires offset { offset + 8 < 2 ^ 64 }
        ensures { result ≡ load self.now.ram offset width }
    {
        let mut value = 0;
        let mut at = width as u64;
        while at > 0 {
            at -= 1;
            value = value * 256 + self.byte(offset + at) as u64;
        }
        value
    }

    // The access of an HLV, HLVX or HSV.
    #[tactic(auto, using(crate::proofs::Accesses::hlv_there, crate::proofs::Accesses::hlv_nowhere))]
    fn hlv_access(&mut self, wanted: &DataAccess) -> Option<MadeAccess>
        ensures access { option_map made_seen result ≡ access_made_if wanted.now
            (hlv_place (ram_memory self.old.ram) self.old.platform.virt.csrs wanted.now) }
        ensures stays { self.new ≡ self.old }
    {
        match self.host.hlv_place(0, wanted) {
            Some(place) => Some(MadeAccess {
                access: *wanted,
                place,
            }),
            None => None,
        }
    }
}

// The access that an HLV, HLVX or HSV makes.
fn hlv_wanted(act: &Act) -> Option<DataAccess>
    ensures { result ≡ hlv_wanted act.now }
{
    match act {
        Act::Accesses(wanted) => Some(*wanted),
        Act::Calls | Act::Waits | Act::Fences(..) | Act::Other => None,
    }
}

// An access with its place, as the log has it.
fn made_of(found: Option<(DataAccess, u64)>) -> Option<MadeAccess>
    ensures { option_map made_seen result ≡ option_map access_seen found }
{
    match found {
        Some((access, place)) => Some(MadeAccess { access, place }),
        None => None,
    }
}

// The last entry of the front space of a guest alone.
fn last_entry(host: &Host) -> Entry
    requires alone { IsAlone host.now }
    requires some { 0 < length (front (machine_at host.now.machines 0).spaces) }
    ensures { (others : List Entry) (e : Entry)
        → front (machine_at host.now.machines 0).spaces ≡ others ++ e ∷ [] → result ≡ e }
{
    let view = host.view(0);
    view.entry(0, view.len(0) - 1)
}

// What a try of a guest alone has made, as the log asks for it.
fn answered(host: &Host, made: Made) -> Result<Option<Event>, Entry>
    requires alone { IsAlone host.now }
    requires some { made ≡ Made.Filled → 0 < length (front (machine_at host.now.machines 0).spaces) }
    ensures { IsAnswerTo made (front (machine_at host.now.machines 0).spaces) result }
{
    match made {
        Made::Stepped(event) => Ok(Some(event)),
        Made::Waits => Ok(None),
        Made::Filled => Err(last_entry(host)),
    }
}

impl TryRunner for HostTries {
    ghost machine = { λ run. run };

    #[tactic(auto, using(crate::proofs::Runs::runs))]
    fn run(&mut self, k: u64) {
        let mut left = k;
        while left > 0 {
            let now = left.min(MOST_OF_TURN);
            self.turn(now);
            left -= now;
        }
    }

    fn run_plain(&mut self, k: u64) -> u64 {
        self.host.run_plain(0, k, &mut Tally::new())
    }

    fn status(&self) -> Status {
        self.host.status(0)
    }

    fn state(&self) -> &Virtual {
        self.host.state(0)
    }

    #[tactic(auto, using(crate::proofs::Clocks::time_is_set))]
    fn time(&self) -> u64 {
        self.host.lines_are_set(0);
        self.host.state(0).csrs.time
    }

    fn console(&self) -> &[u8] {
        self.host.console(0)
    }

    fn inputs(&self) -> &[(u64, u8)] {
        self.host.inputs(0)
    }

    fn second_count(&self) -> u64 {
        self.host.view(0).second_count()
    }

    fn value(&self, made: &MadeAccess) -> MemoryValue {
        let width = made.access.width.bytes();
        let offset = made.place.saturating_sub(RAM_BASE);
        MemoryValue {
            place: made.place,
            width,
            value: self.number(offset, width),
        }
    }

    #[tactic(auto, using(crate::proofs::Words::next_word_is))]
    fn word(&mut self) -> Option<u32> {
        self.host.word_next(0)
    }

    fn found(&mut self) -> Leaves {
        self.host.found_next(0)
    }

    fn uses(&mut self, used: &mut ArrayVec<Use, 10>) -> Leaves {
        steps_use();
        let next = self.host.step_next(0);
        let wanted = next.wanted;
        self.host.ask(0, &NextUses { wanted }, used);
        next.found
    }

    fn leaf_now(&mut self, used: &Use) -> Option<Leaf> {
        let mut leaf = None;
        self.host.ask(0, &LeafNow { used }, &mut leaf);
        leaf
    }

    fn names(&self, alloc: Global) -> Result<Vec<CachedName>, NoMemory> {
        cached_names(alloc, &self.host.view(0))
    }

    fn access(&mut self, act: &Act) -> Option<MadeAccess> {
        match hlv_wanted(act) {
            Some(wanted) => self.hlv_access(&wanted),
            None => made_of(self.host.access_next(0)),
        }
    }

    fn make_try(&mut self) -> Result<Option<Event>, Entry> {
        tries_make_steps();
        turns_count_alike();
        let made = self.host.make_try(0, &mut Tally::new());
        answered(&self.host, made)
    }
}
