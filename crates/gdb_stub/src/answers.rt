// The answer to a command.

ghost use Rattle.std.specs.Prelude.{◌≡◌, ◌++◌, ◌≤◌, IfOk, OnOk, codes, decimal, drop, length, take};
ghost use Rattle.gdb_packets.specs.Digits.{hex};
ghost use Rattle.gdb_commands.specs.declared.commands.Command.TheVariants as command;
ghost use Rattle.run_positions.specs.Looks.{offset_of};
ghost use Rattle.run_positions.specs.Positions.{shown_of};
ghost use Rattle.gdb_stub.specs.Answers.{answer_to, clear_text, fixed_text, line_at, part_mark, description_part, look_text, position_line, walk_line};
ghost use Rattle.gdb_stub.specs.Sessions.{recording_of, machine_shown, state_after, session_state, ShowsPosition, KeepsSession};

use crate::looking::memory;
use crate::register_texts::{error, number_text, register, registers};
use crate::sessions::{Move, Session};
use arch_defs::RAM_BASE;
use gdb_commands::{Command, Place, Request, StopKind};
use gdb_packets::hex_of;
use itoa::Buffer;
use no_memory::NoMemory;
use run_positions::Runner;
use std::alloc::Global;

// A text of these bytes.
fn text_of(alloc: Global, bytes: &[u8]) -> Result<Vec<u8>, NoMemory>
    ensures { IfOk result (λ text. text.items ≡ bytes.now) }
{
    let text = Vec::from_slice(alloc, bytes)?;
    Ok(text)
}

// The bytes from a place on.
fn behind(bytes: &[u8], n: u64) -> &[u8]
    ensures { result.now ≡ drop n bytes.now }
{
    if n < bytes.len() as u64 {
        &bytes[n as usize..]
    } else {
        &bytes[bytes.len()..]
    }
}

// At most that many first bytes.
fn front(bytes: &[u8], n: u64) -> &[u8]
    ensures { result.now ≡ take n bytes.now }
{
    if n < bytes.len() as u64 {
        &bytes[..n as usize]
    } else {
        bytes
    }
}

// What stands before a part of that many bytes, of as many as are left.
fn part_mark(part: usize, left: usize) -> &'static [u8]
    ensures { result.now ≡ part_mark part left }
{
    if part < left { b"m" } else { b"l" }
}

// A part of the description.
fn part_of(alloc: Global, description: &[u8], place: Place) -> Result<Vec<u8>, NoMemory>
    ensures { IfOk result (λ text. text.items ≡ description_part description.now place) }
{
    let rest = behind(description, place.address);
    let part = front(rest, place.length);
    let mut text = text_of(alloc, part_mark(part.len(), rest.len()))?;
    text.extend_from_slice(part)?;
    Ok(text)
}

fn clear_text(kind: StopKind) -> &'static [u8]
    ensures { result.now ≡ clear_text kind }
{
    match kind {
        StopKind::Instruction | StopKind::Written => b"OK",
        StopKind::Other => b"",
    }
}

fn position_line(alloc: Global, n: u64) -> Result<Vec<u8>, NoMemory>
    ensures { IfOk result (λ text. text.items ≡ position_line n) }
{
    let mut digits = Buffer::new();
    let mut text = text_of(alloc, b"position ")?;
    text.extend_from_slice(digits.format(n).as_bytes())?;
    text.push(b'\n')?;
    Ok(text)
}

fn walk_line(alloc: Global, offset: Option<u64>) -> Result<Vec<u8>, NoMemory>
    ensures { IfOk result (λ text. text.items ≡ walk_line offset) }
{
    match offset {
        Some(offset) => {
            let number = number_text(alloc, offset.wrapping_add(RAM_BASE))?;
            let mut text = text_of(alloc, b"the tables have it at 0x")?;
            text.extend_from_slice(number.as_slice())?;
            text.push(b'\n')?;
            Ok(text)
        }
        None => text_of(alloc, b"a load has no place in RAM\n"),
    }
}

#[tactic(auto, using(crate::proofs::Keeping::sessions), unfolding(crate::specs::Answers::answer_to, crate::specs::Sessions::state_after))]
impl<R: Runner + Drop> Session<R> {
    // The line that tells what stands behind `monitor`, which has moved the run.
    fn line(&mut self, alloc: Global, request: Request) -> Result<Vec<u8>, NoMemory>
        requires held { ShowsPosition R.Runner self.old }
        ensures keeps { KeepsSession R.Runner self.old self.new }
        ensures state { session_state self.new ≡ session_state self.old }
        ensures text { IfOk result (λ text.
            text.items ≡ line_at (recording_of R.Runner self.old) (session_state self.old) request) }
    {
        match request {
            Request::Step(_) | Request::GoTo(_) => position_line(alloc, self.positions.place()),
            Request::Walk(address) => walk_line(alloc, self.positions.offset(address)),
            Request::Fences => text_of(alloc, b"fences are told by nesthv-look\n"),
            Request::Unknown => text_of(
                alloc,
                b"monitor: step N | goto N | walk 0xADDRESS | fences\n",
            ),
        }
    }

    // Goes where what stands behind `monitor` says, and tells it.
    fn monitor(&mut self, alloc: Global, request: Request) -> Result<Vec<u8>, NoMemory>
        requires held { ShowsPosition R.Runner self.old }
        ensures keeps { KeepsSession R.Runner self.old self.new }
        ensures state { OnOk result (session_state self.new ≡ state_after (recording_of R.Runner self.old)
            (session_state self.old) (command.Monitor request)) }
        ensures text { IfOk result (λ text. text.items
            ≡ answer_to (recording_of R.Runner self.old) (session_state self.old) (command.Monitor request)) }
    {
        self.ask(alloc, request)?;
        let line = self.line(alloc, request)?;
        hex_of(alloc, line.as_slice())
    }

    // Memory from an address on.
    fn memory(&mut self, alloc: Global, place: Place) -> Result<Vec<u8>, NoMemory>
        requires held { ShowsPosition R.Runner self.old }
        ensures keeps { KeepsSession R.Runner self.old self.new }
        ensures state { session_state self.new ≡ session_state self.old }
        ensures text { IfOk result (λ text. text.items
            ≡ answer_to (recording_of R.Runner self.old) (session_state self.old) (command.Memory place)) }
    {
        memory(alloc, &mut self.positions, place.address, place.length)
    }

    // What registers have, and a part of the description.
    fn looked(&self, alloc: Global, command: Command) -> Result<Vec<u8>, NoMemory>
        requires held { ShowsPosition R.Runner self.now }
        ensures { IfOk result (λ text. text.items
            ≡ look_text (recording_of R.Runner self.now) (session_state self.now) command) }
    {
        let state = self.positions.runner().state();
        match command {
            Command::Registers => registers(alloc, state),
            Command::Register(n) => register(alloc, state, n),
            Command::Description(place) => part_of(alloc, self.description.as_slice(), place),
            Command::Memory(_)
            | Command::Step
            | Command::Continue
            | Command::StepBack
            | Command::ContinueBack
            | Command::Set(_, _)
            | Command::Clear(_, _)
            | Command::Monitor(_)
            | Command::Reason
            | Command::Write
            | Command::Supported
            | Command::Actions
            | Command::Attached
            | Command::Thread
            | Command::Detach
            | Command::Kill
            | Command::Bad
            | Command::Unknown => text_of(alloc, fixed_text(command)),
        }
    }

    /// Does what a command asks for, and answers it. Where there is no memory for it, the position is any.
    pub(crate) fn answer(&mut self, alloc: Global, command: Command) -> Result<Vec<u8>, NoMemory>
        requires held { ShowsPosition R.Runner self.old }
        ensures keeps { KeepsSession R.Runner self.old self.new }
        ensures state { OnOk result (session_state self.new
            ≡ state_after (recording_of R.Runner self.old) (session_state self.old) command) }
        ensures text { IfOk result (λ text. text.items
            ≡ answer_to (recording_of R.Runner self.old) (session_state self.old) command) }
    {
        match command {
            Command::Step => self.travel(alloc, Move::Step),
            Command::Continue => self.travel(alloc, Move::Continue),
            Command::StepBack => self.travel(alloc, Move::StepBack),
            Command::ContinueBack => self.travel(alloc, Move::ContinueBack),
            Command::Set(kind, place) => self.set(alloc, kind, place),
            Command::Clear(kind, place) => {
                self.clear(alloc, kind, place)?;
                text_of(alloc, clear_text(kind))
            }
            Command::Monitor(request) => self.monitor(alloc, request),
            Command::Memory(place) => self.memory(alloc, place),
            Command::Registers
            | Command::Register(_)
            | Command::Description(_)
            | Command::Reason
            | Command::Write
            | Command::Supported
            | Command::Actions
            | Command::Attached
            | Command::Thread
            | Command::Detach
            | Command::Kill
            | Command::Bad
            | Command::Unknown => self.looked(alloc, command),
        }
    }
}

// The answer to a command that is the same for all runs.
fn fixed_text(command: Command) -> &'static [u8]
    ensures { result.now ≡ fixed_text command }
{
    match command {
        Command::Reason => b"T05",
        Command::Write => b"E.runs are exact, so nothing can be written",
        Command::Supported => {
            b"PacketSize=1000;qXfer:features:read+;ReverseStep+;ReverseContinue+;vContSupported+"
        }
        // gdb uses no vCont unless `C` and `S` are named too; both are answered as unknown.
        Command::Actions => b"vCont;c;C;s;S",
        Command::Attached => b"1",
        Command::Thread | Command::Detach => b"OK",
        Command::Bad => b"E01",
        Command::Registers
        | Command::Register(_)
        | Command::Memory(_)
        | Command::Step
        | Command::Continue
        | Command::StepBack
        | Command::ContinueBack
        | Command::Set(_, _)
        | Command::Clear(_, _)
        | Command::Description(_)
        | Command::Monitor(_)
        | Command::Kill
        | Command::Unknown => b"",
    }
}
