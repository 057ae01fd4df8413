// Where a run is to stop.

ghost use Rattle.std.specs.Prelude.{◌≡◌, ◌++◌, [], IfOk, OnOk, drop, map};
ghost use Rattle.std.specs.List.{filter};
ghost use Rattle.gdb_stub.specs.Answers.{set_text};
ghost use Rattle.gdb_stub.specs.Looking.{most_shown};
ghost use Rattle.gdb_stub.specs.Sessions.{changed_in, is_same, pcs_without, recording_of, seen_in, machine_shown, session_state, offsets_for, stops_by, watched_at, watched_without, with_stop, without_stop, ShowsPosition, KeepsSession};

use crate::looking::{MOST, offsets_in};
use crate::sessions::{Session, Watched};
use gdb_commands::{Place, StopKind};
use no_memory::NoMemory;
use run_positions::{Runner, Stops};
use std::alloc::Global;

// Addresses without one of them.
fn pcs_without(alloc: Global, address: u64, pcs: &[u64]) -> Result<Vec<u64>, NoMemory>
    ensures { IfOk result (λ rest. rest.items ≡ pcs_without address pcs.now) }
{
    let mut rest = Vec::new(alloc);
    for i in 0..pcs.len() {
        if pcs[i] != address {
            rest.push(pcs[i])?;
        }
    }
    Ok(rest)
}

// Whether two stops are for the same bytes.
fn is_same(a: &Place, b: &Place) -> bool
    ensures { result ≡ is_same a.now b.now }
{
    a.address == b.address && a.length == b.length
}

// Watched bytes without those of a stop.
fn watched_without(
    alloc: Global,
    place: &Place,
    watched: &[Watched],
) -> Result<Vec<Watched>, NoMemory>
    ensures { IfOk result (λ rest. rest.items ≡ watched_without place.now watched.now) }
{
    let mut rest = Vec::new(alloc);
    for i in 0..watched.len() {
        if !is_same(&watched[i].place, place) {
            rest.push(watched[i])?;
        }
    }
    Ok(rest)
}

// Watches bytes at offsets for a stop too.
fn watch(watched: &mut Vec<Watched>, place: Place, offsets: &[u64]) -> Result<(), NoMemory>
    ensures { OnOk result (watched.new.items ≡ watched.old.items ++ watched_at place offsets.now) }
{
    for i in 0..offsets.len() {
        let offset = offsets[i];
        watched.push(Watched { place, offset })?;
    }
    Ok(())
}

/// Watched bytes with what they are.
pub(crate) fn seen_in<R: Runner>(
    alloc: Global,
    watched: &[Watched],
    runner: &R,
) -> Result<Vec<(Watched, u8)>, NoMemory>
    ensures { IfOk result (λ seen. seen.items ≡ seen_in (R.machine runner.now) watched.now) }
{
    let mut seen = Vec::new(alloc);
    for i in 0..watched.len() {
        seen.push((watched[i], runner.byte(watched[i].offset)))?;
    }
    Ok(seen)
}

// The stops at addresses.
fn stops_at(alloc: Global, pcs: &[u64]) -> Result<Stops, NoMemory>
    ensures { IfOk result (λ stops. stops ≡ record { pcs = pcs.now; bytes = [] }) }
{
    let mut stops = Stops::new(alloc);
    for i in 0..pcs.len() {
        stops.stop_at(pcs[i])?;
    }
    Ok(stops)
}

/// The stops at addresses, and where watched bytes are others than they were.
pub(crate) fn stops_by(
    alloc: Global,
    pcs: &[u64],
    seen: &[(Watched, u8)],
) -> Result<Stops, NoMemory>
    ensures { IfOk result (λ stops. stops ≡ stops_by pcs.now seen.now) }
{
    let mut stops = stops_at(alloc, pcs)?;
    for i in 0..seen.len() {
        stops.stop_unless(seen[i].0.offset, seen[i].1)?;
    }
    Ok(stops)
}

/// The first watched byte that is another than it was, by the address of its stop.
#[tactic(auto, using(crate::proofs::Seen::changes))]
pub(crate) fn changed_in<R: Runner>(seen: &[(Watched, u8)], runner: &R) -> Option<u64>
    ensures { result ≡ changed_in (R.machine runner.now) seen.now }
{
    for i in 0..seen.len() {
        if runner.byte(seen[i].0.offset) != seen[i].1 {
            return Some(seen[i].0.place.address);
        }
    }
    None
}

// The answer where a stop is set at bytes with these offsets.
fn set_text(kind: StopKind, offsets: &[u64]) -> &'static [u8]
    ensures { result.now ≡ set_text kind offsets.now }
{
    match kind {
        StopKind::Instruction => b"OK",
        StopKind::Written => { if offsets.is_empty() { b"E01" } else { b"OK" } }
        StopKind::Other => b"",
    }
}

#[tactic(auto, using(crate::proofs::Keeping::sessions))]
impl<R: Runner + Drop> Session<R> {
    // Stops at an address too.
    fn stop_at(&mut self, alloc: Global, address: u64) -> Result<(), NoMemory>
        requires held { ShowsPosition R.Runner self.old }
        ensures keeps { KeepsSession R.Runner self.old self.new }
        ensures state { OnOk result (session_state self.new
            ≡ with_stop (recording_of R.Runner self.old) (session_state self.old) StopKind.Instruction
            (record { address = address; length = 0 })) }
    {
        let mut pcs = pcs_without(alloc, address, self.pcs.as_slice())?;
        pcs.push(address)?;
        self.pcs = pcs;
        Ok(())
    }

    // Watches bytes at these offsets.
    fn watch(&mut self, alloc: Global, place: Place, offsets: &[u64]) -> Result<(), NoMemory>
        requires held { ShowsPosition R.Runner self.old }
        ensures keeps { KeepsSession R.Runner self.old self.new }
        ensures state { OnOk result (session_state self.new ≡ record (session_state self.old)
            { watched = watched_without place self.old.watched.items ++ watched_at place offsets.now }) }
    {
        let mut watched = watched_without(alloc, &place, self.watched.as_slice())?;
        watch(&mut watched, place, offsets)?;
        self.watched = watched;
        Ok(())
    }

    /// Sets a stop, and answers so.
    pub(crate) fn set(
        &mut self,
        alloc: Global,
        kind: StopKind,
        place: Place,
    ) -> Result<Vec<u8>, NoMemory>
        requires held { ShowsPosition R.Runner self.old }
        ensures keeps { KeepsSession R.Runner self.old self.new }
        ensures state { OnOk result (session_state self.new
            ≡ with_stop (recording_of R.Runner self.old) (session_state self.old) kind place) }
        ensures text { IfOk result (λ text. text.items ≡ set_text kind
            (offsets_for (machine_shown (recording_of R.Runner self.old) (session_state self.old)) place)) }
    {
        let offsets = offsets_in(
            alloc,
            &mut self.positions,
            place.address,
            place.length.min(MOST),
        )?;
        match kind {
            StopKind::Instruction => self.stop_at(alloc, place.address)?,
            StopKind::Written => self.watch(alloc, place, offsets.as_slice())?,
            StopKind::Other => {}
        }
        let text = Vec::from_slice(alloc, set_text(kind, offsets.as_slice()))?;
        Ok(text)
    }

    /// Clears a stop.
    pub(crate) fn clear(
        &mut self,
        alloc: Global,
        kind: StopKind,
        place: Place,
    ) -> Result<(), NoMemory>
        requires held { ShowsPosition R.Runner self.old }
        ensures keeps { KeepsSession R.Runner self.old self.new }
        ensures state { OnOk result
            (session_state self.new ≡ without_stop (session_state self.old) kind place) }
    {
        match kind {
            StopKind::Instruction => {
                self.pcs = pcs_without(alloc, place.address, self.pcs.as_slice())?;
            }
            StopKind::Written => {
                self.watched = watched_without(alloc, &place, self.watched.as_slice())?;
            }
            StopKind::Other => {}
        }
        Ok(())
    }
}
