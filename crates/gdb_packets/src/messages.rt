// What a stream of bytes begins with.

ghost use Rattle.std.specs.Prelude.{◌≡◌, ◌==◌, ◌+◌, ◌^◌, ◌<◌, ◌≤◌, drop, length, IfOk};
ghost use Rattle.gdb_packets.specs.Frames.{body_length, checksum, is_sum, message_in, packet_at, packet_in, single};
ghost use Rattle.gdb_packets.specs.Digits.{pair_value};
ghost use Rattle.gdb_packets.specs.Streams.{IsBeginning};

use crate::digits::pair_value;
use crate::escapes::{checksum, unescaped};
use no_memory::NoMemory;
use std::alloc::Global;
use std::marker::Model;

// The byte behind the data of a packet.
const CLOSING: u8 = b'#';

/// The data of a packet, its escapes taken off.
#[derive(Drop)]
pub struct Payload {
    bytes: Vec<u8>,
}

impl Model for Payload {
    ghost use Rattle.std.specs.Prelude.{ℕ, List};

    ghost Value = { List ℕ };

    ghost view = { λ p. p.bytes.items };
}

impl Payload {
    // These bytes.
    fn of(bytes: Vec<u8>) -> Payload
        ensures { result ≡ bytes.items }
    {
        Payload { bytes }
    }

    /// The bytes, lent.
    pub fn as_slice(&self) -> &[u8]
        ensures { result.now ≡ self.now }
    {
        self.bytes.as_slice()
    }
}

/// What gdb or a stub says: a packet, or one whose sum is wrong, or that ends in an escape; that a packet
/// has come, or is to be sent again; that the run is to be interrupted; or a byte that is none of these.
#[derive(Drop)]
pub enum Message {
    Packet(Payload),
    BadSum,
    BadEscape,
    Ack,
    Nack,
    Interrupt,
    Stray,
}

/// A message, and of how many bytes it was.
#[derive(Drop)]
pub struct Received {
    pub message: Message,
    pub length: usize,
}

// The message of a byte that opens no packet.
fn single(byte: u8) -> Message
    ensures { result ≡ single byte }
{
    match byte {
        b'+' => Message::Ack,
        b'-' => Message::Nack,
        3 => Message::Interrupt,
        _ => Message::Stray,
    }
}

/// What bytes begin with: a message that has come whole, or none yet, and of how many bytes behind the first
/// it is known that none is a closing.
#[derive(Drop)]
pub(crate) enum Beginning {
    Whole(Received),
    Cut(usize),
}

// How many bytes stand before the closing of a packet, none of which is among that many of the first.
#[tactic(auto, using(crate::proofs::Searches::searches))]
fn body_length(rest: &[u8], searched: usize) -> usize
    requires { searched ≤ body_length rest.now }
    ensures value { result ≡ body_length rest.now }
    ensures within { result ≤ length rest.now }
{
    let mut place = searched;
    while place < rest.len() {
        if rest[place] == CLOSING {
            return place;
        }
        place += 1;
    }
    place
}

// Whether the sum that a packet gives is that of its data.
fn is_same(given: u8, sum: u8) -> bool
    ensures { result ≡ (given == sum) }
{
    given == sum
}

// Whether two digits give this sum.
fn is_sum(high: u8, low: u8, sum: u8) -> bool
    ensures { result ≡ is_sum (pair_value high low) sum }
{
    match pair_value(high, low) {
        Some(given) => is_same(given, sum),
        None => false,
    }
}

// The packet whose data are that many of these bytes.
fn packet_at(alloc: Global, n: usize, rest: &[u8]) -> Result<Message, NoMemory>
    requires { n + 2 < length rest.now }
    ensures { IfOk result (λ message. message ≡ packet_at n rest.now) }
{
    let body = &rest[..n];
    if !is_sum(rest[n + 1], rest[n + 2], checksum(body)) {
        return Ok(Message::BadSum);
    }
    match unescaped(alloc, body)? {
        Some(bytes) => Ok(Message::Packet(Payload::of(bytes))),
        None => Ok(Message::BadEscape),
    }
}

// What the bytes of a packet behind its opening begin with, where that many of them were searched.
#[tactic(auto, unfolding(crate::specs::Frames::packet_in))]
fn packet_in(alloc: Global, rest: &[u8], searched: usize) -> Result<Beginning, NoMemory>
    requires few { length rest.now < 2 ^ 62 }
    requires searched { searched ≤ body_length rest.now }
    ensures { IfOk result (IsBeginning rest.now (packet_in rest.now)) }
{
    let n = body_length(rest, searched);
    if rest.len() <= n + 2 {
        return Ok(Beginning::Cut(n));
    }
    let message = packet_at(alloc, n, rest)?;
    Ok(Beginning::Whole(Received {
        message,
        length: n + 4,
    }))
}

// All bytes but the first.
fn behind_first(bytes: &[u8]) -> &[u8]
    requires { 1 ≤ length bytes.now }
    ensures { result.now ≡ drop 1 bytes.now }
{
    &bytes[1..]
}

/// What bytes begin with, where that many of them behind the first were searched. It may answer out of
/// memory.
#[tactic(auto, using(crate::proofs::Beginnings::messages))]
pub(crate) fn begin_with(
    alloc: Global,
    bytes: &[u8],
    searched: usize,
) -> Result<Beginning, NoMemory>
    requires few { length bytes.now < 2 ^ 62 }
    requires searched { searched ≤ body_length (drop 1 bytes.now) }
    ensures { IfOk result (IsBeginning (drop 1 bytes.now) (message_in bytes.now)) }
{
    if bytes.is_empty() {
        return Ok(Beginning::Cut(0));
    }
    if bytes[0] == b'$' {
        return packet_in(alloc, behind_first(bytes), searched);
    }
    Ok(Beginning::Whole(Received {
        message: single(bytes[0]),
        length: 1,
    }))
}
