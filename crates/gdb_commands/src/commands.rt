// The commands of packets.

ghost use Rattle.std.specs.Prelude.{◌≡◌, ◌≤◌, ◌<◌, drop, length, take, IfOk, IsTrue, slice_index};
ghost use Rattle.gdb_packets.specs.Digits.{unhex};
ghost use Rattle.gdb_commands.specs.Commands.{action_in, backwards_in, begins, comma_place, command_in, description_by, goes_by, memory_by, monitor_by, register_by, steps_by, walks_by, stop_kind, lettered, numbers_at, numbers_in, query_in, request_in, stop_by, stop_in};

use crate::numbers::{decimal_in, hex_in};
use gdb_packets::unhex;
use no_memory::NoMemory;
use std::alloc::Global;

/// An address and a length; of a description, an offset and a length.
#[derive(Clone, Copy)]
pub struct Place {
    pub address: u64,
    pub length: u64,
}

/// Where a stop holds: before an instruction, or where a write changes memory; no other is known.
#[derive(Clone, Copy)]
pub enum StopKind {
    Instruction,
    Written,
    Other,
}

/// What stands behind `monitor`.
#[derive(Clone, Copy)]
pub enum Request {
    /// Makes that many steps.
    Step(u64),
    /// Shows the machine after that many steps of its run.
    GoTo(u64),
    /// Tells where the tables have an address for a load.
    Walk(u64),
    /// Which fences are missing. The answer names the tool that tells.
    Fences,
    Unknown,
}

/// What gdb asks for.
#[derive(Clone, Copy)]
pub enum Command {
    /// Why it has stopped.
    Reason,
    Registers,
    Register(u64),
    Memory(Place),
    /// To write registers or memory.
    Write,
    Step,
    Continue,
    StepBack,
    ContinueBack,
    Set(StopKind, Place),
    Clear(StopKind, Place),
    /// What the stub can do.
    Supported,
    /// Which steps and runs it can make.
    Actions,
    /// Whether it was there before gdb came.
    Attached,
    /// A part of the target description.
    Description(Place),
    Monitor(Request),
    Thread,
    Detach,
    Kill,
    /// One that is known, in a form that is not.
    Bad,
    Unknown,
}

// The byte between two numbers.
const COMMA: u8 = b',';

// Whether bytes begin with a text.
fn begins(bytes: &[u8], text: &[u8]) -> bool
    ensures value { result ≡ begins bytes.now text.now }
    ensures bound { IsTrue result → length text.now ≤ length bytes.now }
{
    bytes.starts_with(text)
}

// All bytes but that many.
fn behind(bytes: &[u8], n: usize) -> &[u8]
    requires { n ≤ length bytes.now }
    ensures { result.now ≡ drop n bytes.now }
{
    &bytes[n..]
}

// The given number of bytes.
fn front(bytes: &[u8], n: usize) -> &[u8]
    requires { n ≤ length bytes.now }
    ensures { result.now ≡ take n bytes.now }
{
    &bytes[..n]
}

// How many bytes stand before the first comma.
#[tactic(auto, using(crate::proofs::Beginnings::comma_within))]
fn comma_place(bytes: &[u8]) -> usize
    ensures value { result ≡ comma_place bytes.now }
    ensures within { result ≤ length bytes.now }
{
    let mut place = 0;
    while place < bytes.len() {
        if bytes[place] == COMMA {
            return place;
        }
        place += 1;
    }
    place
}

// The two numbers, of which the first is of that many bytes.
fn numbers_at(n: usize, bytes: &[u8]) -> Option<Place>
    requires { n ≤ length bytes.now }
    ensures { result ≡ numbers_at n bytes.now }
{
    if n >= bytes.len() {
        return None;
    }
    match (hex_in(front(bytes, n)), hex_in(behind(bytes, n + 1))) {
        (Some(address), Some(length)) => Some(Place { address, length }),
        _ => None,
    }
}

// Two numbers with a comma between them.
#[tactic(auto, unfolding(crate::specs::Commands::numbers_in))]
fn numbers_in(bytes: &[u8]) -> Option<Place>
    ensures { result ≡ numbers_in bytes.now }
{
    numbers_at(comma_place(bytes), bytes)
}

fn stop_kind(byte: u8) -> StopKind
    ensures { result ≡ stop_kind byte }
{
    match byte {
        b'0' | b'1' => StopKind::Instruction,
        b'2' => StopKind::Written,
        _ => StopKind::Other,
    }
}

// A stop that is set, or cleared.
fn stop_by(sets: bool, kind: StopKind, place: Option<Place>) -> Command
    ensures { result ≡ stop_by sets kind place }
{
    match place {
        Some(place) => {
            if sets {
                Command::Set(kind, place)
            } else {
                Command::Clear(kind, place)
            }
        }
        None => Command::Bad,
    }
}

fn stop_in(sets: bool, rest: &[u8]) -> Command
    ensures { result ≡ stop_in sets rest.now }
{
    if rest.len() > 1 && rest[1] == COMMA {
        return stop_by(sets, stop_kind(rest[0]), numbers_in(behind(rest, 2)));
    }
    Command::Bad
}

fn backwards_in(rest: &[u8]) -> Command
    ensures { result ≡ backwards_in rest.now }
{
    if begins(rest, b"s") {
        return Command::StepBack;
    }
    if begins(rest, b"c") {
        return Command::ContinueBack;
    }
    Command::Unknown
}

// The words behind `monitor`.
#[tactic(auto, unfolding(crate::specs::Commands::request_in))]
fn request_in(text: &[u8]) -> Request
    ensures { result ≡ request_in text.now }
{
    if begins(text, b"step ") {
        return steps_by(decimal_in(behind(text, 5)));
    }
    if begins(text, b"goto ") {
        return goes_by(decimal_in(behind(text, 5)));
    }
    if begins(text, b"walk 0x") {
        return walks_by(hex_in(behind(text, 7)));
    }
    if begins(text, b"fences") {
        return Request::Fences;
    }
    Request::Unknown
}

fn steps_by(n: Option<u64>) -> Request
    ensures { result ≡ steps_by n }
{
    match n {
        Some(n) => Request::Step(n),
        None => Request::Unknown,
    }
}

fn goes_by(n: Option<u64>) -> Request
    ensures { result ≡ goes_by n }
{
    match n {
        Some(n) => Request::GoTo(n),
        None => Request::Unknown,
    }
}

fn walks_by(n: Option<u64>) -> Request
    ensures { result ≡ walks_by n }
{
    match n {
        Some(n) => Request::Walk(n),
        None => Request::Unknown,
    }
}

fn register_by(n: Option<u64>) -> Command
    ensures { result ≡ register_by n }
{
    match n {
        Some(n) => Command::Register(n),
        None => Command::Bad,
    }
}

fn memory_by(place: Option<Place>) -> Command
    ensures { result ≡ memory_by place }
{
    match place {
        Some(place) => Command::Memory(place),
        None => Command::Bad,
    }
}

fn description_by(place: Option<Place>) -> Command
    ensures { result ≡ description_by place }
{
    match place {
        Some(place) => Command::Description(place),
        None => Command::Bad,
    }
}

// What the digits behind `monitor` ask for.
fn monitor_in(alloc: Global, digits: &[u8]) -> Result<Command, NoMemory>
    ensures { IfOk result (λ command. command ≡ monitor_by (unhex digits.now)) }
{
    match unhex(alloc, digits)? {
        Some(text) => Ok(Command::Monitor(request_in(text.as_slice()))),
        None => Ok(Command::Bad),
    }
}

// Steps and runs as gdb asks for them where a stub tells that it can make them.
#[tactic(auto, unfolding(crate::specs::Commands::action_in))]
fn action_in(rest: &[u8]) -> Command
    ensures { result ≡ action_in rest.now }
{
    if begins(rest, b"Cont?") {
        return Command::Actions;
    }
    if begins(rest, b"Cont;s") {
        return Command::Step;
    }
    if begins(rest, b"Cont;c") {
        return Command::Continue;
    }
    Command::Unknown
}

// A query.
#[tactic(auto, unfolding(crate::specs::Commands::query_in))]
fn query_in(alloc: Global, rest: &[u8]) -> Result<Command, NoMemory>
    ensures { IfOk result (λ command. command ≡ query_in rest.now) }
{
    if begins(rest, b"Supported") {
        return Ok(Command::Supported);
    }
    if begins(rest, b"Attached") {
        return Ok(Command::Attached);
    }
    if begins(rest, b"Xfer:features:read:target.xml:") {
        return Ok(description_by(numbers_in(behind(rest, 30))));
    }
    if begins(rest, b"Rcmd,") {
        return monitor_in(alloc, behind(rest, 5));
    }
    Ok(Command::Unknown)
}

// A command by its first letter.
#[tactic(auto, unfolding(crate::specs::Commands::lettered))]
fn lettered(alloc: Global, letter: u8, rest: &[u8]) -> Result<Command, NoMemory>
    ensures { IfOk result (λ command. command ≡ lettered letter rest.now) }
{
    if letter == b'q' {
        return query_in(alloc, rest);
    }
    Ok(match letter {
        b'?' => Command::Reason,
        b'g' => Command::Registers,
        b'p' => register_by(hex_in(rest)),
        b'm' => memory_by(numbers_in(rest)),
        b'G' | b'P' | b'M' | b'X' => Command::Write,
        b's' => Command::Step,
        b'c' => Command::Continue,
        b'b' => backwards_in(rest),
        b'Z' => stop_in(true, rest),
        b'z' => stop_in(false, rest),
        b'v' => action_in(rest),
        b'H' => Command::Thread,
        b'D' => Command::Detach,
        b'k' => Command::Kill,
        _ => Command::Unknown,
    })
}

/// The command of a packet's payload. It may answer out of memory.
#[tactic(auto, using(crate::proofs::Beginnings::commands))]
pub fn command_of(alloc: Global, payload: &[u8]) -> Result<Command, NoMemory>
    ensures { IfOk result (λ command. command ≡ command_in payload.now) }
{
    if payload.is_empty() {
        return Ok(Command::Unknown);
    }
    let command = lettered(alloc, payload[0], behind(payload, 1))?;
    Ok(command)
}
