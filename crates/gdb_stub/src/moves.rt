// Moves of a run, as gdb asks for them.

ghost use Rattle.std.specs.Prelude.{◌≡◌, ◌+◌, ◌-◌, ◌^◌, ◌≤◌, IfOk, OnOk};
ghost use Rattle.gdb_stub.specs.Answers.{move_end_text, has_pc, is_at_begin, is_over, move_text, stop_or_end, watch_or_end, watch_text};
ghost use Rattle.gdb_stub.specs.Sessions.{one_step_short, clamped, come_to, after_move, place_for, place_with, position_reached, recording_of, seen_in, machine_shown, session_state, stops_by, stops_in, ShowsPosition, KeepsSession};
ghost use Rattle.run_positions.specs.Stops.{goes_on};

use crate::register_texts::number_text;
use crate::sessions::{Move, Session, Watched};
use crate::stop_sets::{changed_in, seen_in, stops_by};
use gdb_commands::Request;
use machine_defs::Status;
use no_memory::NoMemory;
use run_positions::{LAST, Runner};
use std::alloc::Global;

// A position up to the last one.
fn clamped(last: u64, n: u64) -> u64
    ensures value { result ≡ clamped last n }
    ensures few { result ≤ last }
{
    if n <= last { n } else { last }
}

// The position after what stands behind `monitor`.
fn place_for(request: Request, last: u64, n: u64) -> u64
    requires few { n ≤ 2 ^ 52 }
    requires last { last ≤ 2 ^ 52 }
    ensures value { result ≡ place_for request last n }
    ensures few { result ≤ 2 ^ 52 }
{
    match request {
        Request::Step(k) => clamped(last, n.saturating_add(k)),
        Request::GoTo(k) => clamped(last, k),
        Request::Walk(_) | Request::Fences | Request::Unknown => n,
    }
}

// Whether a machine of this status goes on.
fn goes_on(status: Status) -> bool
    ensures { result ≡ goes_on status }
{
    match status {
        Status::Running => true,
        Status::Waiting | Status::Stopped => false,
    }
}

// The position before one. The start has none before it, and stays.
fn previous(n: u64) -> u64
    ensures { result ≡ n - 1 }
{
    n.saturating_sub(1)
}

// The position before the step that a move would make last.
fn before(way: Move, n: u64) -> u64
    requires { n ≤ 2 ^ 52 }
    ensures value { result ≡ one_step_short way n }
    ensures few { result ≤ 2 ^ 52 }
{
    match way {
        Move::Step | Move::Continue => previous(n),
        Move::StepBack | Move::ContinueBack => clamped(LAST, n + 1),
    }
}

// Why a run has stopped: at its end in this direction, or not.
fn stop_or_end(alloc: Global, over: bool, end: &[u8]) -> Result<Vec<u8>, NoMemory>
    ensures { IfOk result (λ text. text.items ≡ stop_or_end over end.now) }
{
    let text = Vec::from_slice(alloc, if over { end } else { b"T05" })?;
    Ok(text)
}

// It has stopped by a write to bytes that are watched from this address on.
fn watch_text(alloc: Global, address: u64) -> Result<Vec<u8>, NoMemory>
    ensures { IfOk result (λ text. text.items ≡ watch_text address) }
{
    let number = number_text(alloc, address)?;
    let mut text = Vec::from_slice(alloc, b"T05watch:")?;
    text.extend_from_slice(number.as_slice())?;
    text.push(b';')?;
    Ok(text)
}

#[tactic(auto, using(crate::proofs::Keeping::sessions))]
impl<R: Runner + Drop> Session<R> {
    // Shows the run at a position.
    fn go_to(&mut self, alloc: Global, n: u64) -> Result<(), NoMemory>
        requires held { ShowsPosition R.Runner self.old }
        requires few { n ≤ 2 ^ 52 }
        ensures keeps { KeepsSession R.Runner self.old self.new }
        ensures state { OnOk result (session_state self.new ≡ record (session_state self.old) { place = n }) }
    {
        self.positions.go_to(alloc, n)
    }

    // The position after a step, which is made where the machine goes on.
    fn next(&self) -> u64
        requires held { ShowsPosition R.Runner self.now }
        ensures value { result
            ≡ position_reached (recording_of R.Runner self.now) (session_state self.now) Move.Step }
        ensures few { result ≤ 2 ^ 52 }
    {
        let place = self.positions.place();
        if goes_on(self.positions.runner().status()) {
            clamped(self.last, place + 1)
        } else {
            place
        }
    }

    // Goes on to a stop, where the machine goes on.
    fn go_on(&mut self, alloc: Global, seen: &[(Watched, u8)]) -> Result<(), NoMemory>
        requires held { ShowsPosition R.Runner self.old }
        requires seen { seen.now ≡ seen_in
            (machine_shown (recording_of R.Runner self.old) (session_state self.old)) self.old.watched.items }
        ensures keeps { KeepsSession R.Runner self.old self.new }
        ensures state { OnOk result (session_state self.new
            ≡ come_to (recording_of R.Runner self.old) (session_state self.old) Move.Continue) }
    {
        if goes_on(self.positions.runner().status()) {
            let stops = stops_by(alloc, self.pcs.as_slice(), seen)?;
            self.positions.on_to_stop(&stops, self.last);
        }
        Ok(())
    }

    // Goes back to a stop, or to the start.
    fn go_back(&mut self, alloc: Global, seen: &[(Watched, u8)]) -> Result<(), NoMemory>
        requires held { ShowsPosition R.Runner self.old }
        requires seen { seen.now ≡ seen_in
            (machine_shown (recording_of R.Runner self.old) (session_state self.old)) self.old.watched.items }
        ensures keeps { KeepsSession R.Runner self.old self.new }
        ensures state { OnOk result (session_state self.new
            ≡ come_to (recording_of R.Runner self.old) (session_state self.old) Move.ContinueBack) }
    {
        let stops = stops_by(alloc, self.pcs.as_slice(), seen)?;
        self.positions.back_to_stop(alloc, &stops)
    }

    // Makes a move, from where watched bytes are these.
    fn go(&mut self, alloc: Global, way: Move, seen: &[(Watched, u8)]) -> Result<(), NoMemory>
        requires held { ShowsPosition R.Runner self.old }
        requires seen { seen.now ≡ seen_in
            (machine_shown (recording_of R.Runner self.old) (session_state self.old)) self.old.watched.items }
        ensures keeps { KeepsSession R.Runner self.old self.new }
        ensures state { OnOk result (session_state self.new
            ≡ come_to (recording_of R.Runner self.old) (session_state self.old) way) }
    {
        match way {
            Move::Step => {
                let place = self.next();
                self.go_to(alloc, place)
            }
            Move::Continue => self.go_on(alloc, seen),
            Move::StepBack => {
                let place = previous(self.positions.place());
                self.go_to(alloc, place)
            }
            Move::ContinueBack => self.go_back(alloc, seen),
        }
    }

    // Whether the run is to stop at the address of its next instruction.
    fn is_at_pc(&self) -> bool
        requires held { ShowsPosition R.Runner self.now }
        ensures { result ≡ has_pc self.now.pcs.items
            (machine_shown (recording_of R.Runner self.now) (session_state self.now)) }
    {
        self.pcs.contains(&self.positions.runner().state().regs.pc)
    }

    // Whether the position is the end of a run that stops at no address there.
    fn is_over(&self) -> bool
        requires held { ShowsPosition R.Runner self.now }
        ensures { result ≡ is_over (recording_of R.Runner self.now) self.now.pcs.items
            self.now.positions.place }
    {
        if self.is_at_pc() {
            return false;
        }
        !goes_on(self.positions.runner().status()) || self.positions.place() == self.last
    }

    // And whether it is the start of one.
    fn is_at_begin(&self) -> bool
        requires held { ShowsPosition R.Runner self.now }
        ensures { result ≡ is_at_begin (recording_of R.Runner self.now) self.now.pcs.items
            self.now.positions.place }
    {
        if self.is_at_pc() {
            return false;
        }
        self.positions.place() == 0
    }

    // Why the run has stopped where a move from a position has come to, if not by a write.
    fn end_by(&self, alloc: Global, way: Move, from: u64) -> Result<Vec<u8>, NoMemory>
        requires held { ShowsPosition R.Runner self.now }
        ensures { IfOk result (λ text. text.items ≡ move_end_text (recording_of R.Runner self.now)
            self.now.pcs.items from self.now.positions.place way) }
    {
        let stays = self.positions.place() == from;
        match way {
            Move::Step => stop_or_end(alloc, stays, b"T05replaylog:end;"),
            Move::Continue => stop_or_end(alloc, self.is_over(), b"T05replaylog:end;"),
            Move::StepBack => stop_or_end(alloc, stays, b"T05replaylog:begin;"),
            Move::ContinueBack => stop_or_end(alloc, self.is_at_begin(), b"T05replaylog:begin;"),
        }
    }

    // Stays before the step that has changed a watched byte, if one has, and answers why the run has stopped.
    fn settle(
        &mut self,
        alloc: Global,
        way: Move,
        from: u64,
        changed: Option<u64>,
    ) -> Result<Vec<u8>, NoMemory>
        requires held { ShowsPosition R.Runner self.old }
        ensures keeps { KeepsSession R.Runner self.old self.new }
        ensures state { OnOk result (session_state self.new ≡ record (session_state self.old)
            { place = place_with changed way self.old.positions.place }) }
        ensures text { IfOk result (λ text. text.items ≡ watch_or_end changed (move_end_text
            (recording_of R.Runner self.old) self.old.pcs.items from self.old.positions.place way)) }
    {
        match changed {
            Some(address) => {
                let place = before(way, self.positions.place());
                self.go_to(alloc, place)?;
                watch_text(alloc, address)
            }
            None => self.end_by(alloc, way, from),
        }
    }

    /// Makes a move, and answers why the run has stopped. Where there is no memory for it, the position is
    /// any.
    pub(crate) fn travel(&mut self, alloc: Global, way: Move) -> Result<Vec<u8>, NoMemory>
        requires held { ShowsPosition R.Runner self.old }
        ensures keeps { KeepsSession R.Runner self.old self.new }
        ensures state { OnOk result (session_state self.new
            ≡ after_move (recording_of R.Runner self.old) (session_state self.old) way) }
        ensures text { IfOk result (λ text. text.items
            ≡ move_text (recording_of R.Runner self.old) (session_state self.old) way) }
    {
        let seen = seen_in(alloc, self.watched.as_slice(), self.positions.runner())?;
        let from = self.positions.place();
        self.go(alloc, way, seen.as_slice())?;
        let changed = changed_in(seen.as_slice(), self.positions.runner());
        self.settle(alloc, way, from, changed)
    }

    /// Goes where what stands behind `monitor` says.
    pub(crate) fn ask(&mut self, alloc: Global, request: Request) -> Result<(), NoMemory>
        requires held { ShowsPosition R.Runner self.old }
        ensures keeps { KeepsSession R.Runner self.old self.new }
        ensures state { OnOk result (session_state self.new ≡ record (session_state self.old)
            { place = place_for request self.old.last self.old.positions.place }) }
    {
        let place = place_for(request, self.last, self.positions.place());
        self.go_to(alloc, place)
    }
}
