// Where a run is to stop.

ghost use Rattle.std.specs.Prelude.{◌≡◌, ◌∷◌, [], ◌++◌, ◌==◌, ◌||◌, not, OnErr, OnOk};
ghost use Rattle.std.specs.List.{list_any};
ghost use Rattle.run_positions.specs.Stops.{has_changed, goes_on, stops_at, is_end};

use crate::runners::Runner;
use machine_defs::Status;
use no_memory::NoMemory;
use std::alloc::Global;
use std::marker::Model;

/// Addresses of instructions, and bytes of RAM, each by its offset and the value from which it is to differ.
#[derive(Drop)]
pub struct Stops {
    pcs: Vec<u64>,
    bytes: Vec<(u64, u8)>,
}

impl Model for Stops {
    ghost use Rattle.run_positions.specs.Stops.{StopSet};

    ghost Value = { StopSet };

    ghost view = { λ s. record { pcs = s.pcs.items; bytes = s.bytes.items } };
}

impl Stops {
    /// No stop.
    pub fn new(alloc: Global) -> Stops
        ensures { result ≡ record { pcs = []; bytes = [] } }
    {
        Stops {
            pcs: Vec::new(alloc),
            bytes: Vec::new(alloc),
        }
    }

    /// Stops at an address too.
    pub fn stop_at(&mut self, pc: u64) -> Result<(), NoMemory>
        ensures ok { OnOk result (self.new ≡ record self.old { pcs = self.old.pcs ++ pc ∷ [] }) }
        ensures err { OnErr result (self.new ≡ self.old) }
    {
        self.pcs.push(pc)?;
        Ok(())
    }

    /// Stops too where a byte of RAM is another than this.
    pub fn stop_unless(&mut self, offset: u64, value: u8) -> Result<(), NoMemory>
        ensures ok { OnOk result
            (self.new ≡ record self.old { bytes = self.old.bytes ++ (offset, value) ∷ [] }) }
        ensures err { OnErr result (self.new ≡ self.old) }
    {
        self.bytes.push((offset, value))?;
        Ok(())
    }

    /// Whether a stop holds of the machine that is run.
    pub fn hold<R: Runner>(&self, runner: &R) -> bool
        ensures { result ≡ stops_at self.now (R.machine runner.now) }
    {
        has_pc(self.pcs.as_slice(), runner.state().regs.pc)
            || has_change(self.bytes.as_slice(), runner)
    }

    /// Whether one holds, or the machine does not go on.
    pub fn end<R: Runner>(&self, runner: &R) -> bool
        ensures { result ≡ is_end self.now (R.machine runner.now) }
    {
        is_end(self.hold(runner), goes_on(runner.status()))
    }
}

// Whether a run ends where a stop holds or not, and the machine goes on or not.
fn is_end(is_stop: bool, goes_on: bool) -> bool
    ensures { result ≡ (is_stop || not goes_on) }
{
    is_stop || !goes_on
}

// Whether a machine of this status goes on.
pub(crate) fn goes_on(status: Status) -> bool
    ensures { result ≡ goes_on status }
{
    match status {
        Status::Running => true,
        Status::Waiting | Status::Stopped => false,
    }
}

// Whether an address is among these.
fn has_pc(pcs: &[u64], pc: u64) -> bool
    ensures { result ≡ list_any (λ at. at == pc) pcs.now }
{
    pcs.contains(&pc)
}

// Whether a byte differs from the value that it is watched for.
fn is_other(byte: u8, value: u8) -> bool
    ensures { result ≡ not (byte == value) }
{
    byte != value
}

// Whether one of these bytes differs.
fn has_change<R: Runner>(bytes: &[(u64, u8)], runner: &R) -> bool
    ensures { result ≡ list_any (has_changed (R.machine runner.now)) bytes.now }
{
    for i in 0..bytes.len() {
        let (offset, value) = bytes[i];
        if is_other(runner.byte(offset), value) {
            return true;
        }
    }
    false
}
