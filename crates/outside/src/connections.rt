// What a program talks on.

ghost use Rattle.std.specs.Prelude.{◌≡◌, ℕ, ◌≤◌, List, length, Option, is_ok, IfOk, OnErr};
ghost use Rattle.outside.specs.Connections.{Comes, GivesPiece, Sends};
ghost use Rattle.outside.specs.declared.connections.Transfer.{Transfer};
ghost use Rattle.outside.specs.Faults.{CountsFaults};

use crate::sinks::SinkFault;
use std::marker::Model;
use thiserror::Error;

/// Nothing could be read.
#[derive(Clone, Copy, Debug, PartialEq, Eq, Error)]
pub enum ReceiveFault {
    #[error("the bytes could not be read")]
    Failed,
}

/// Bytes that came or were sent at once.
#[derive(Drop)]
pub struct Piece {
    bytes: Vec<u8>,
}

impl Model for Piece {
    ghost use Rattle.std.specs.Prelude.{ℕ, List};

    ghost Value = { List ℕ };

    ghost view = { λ p. p.bytes.items };
}

/// What was transferred on a connection: a piece that came, or one that was sent.
#[derive(Drop)]
pub enum Transfer {
    Came(Piece),
    Sent(Piece),
}

/// A connection to another program: a stream of bytes that come, and one of bytes that are sent.
pub trait Connection {
    // The bytes that are still to come; nothing where it tells nothing of them.
    ghost coming: { Self → Option (List ℕ) };

    // The lists of transfers that it may have made, oldest first; no list where it tells nothing of them.
    ghost made: { Self → List Transfer → Type 0 };

    ghost read_faults: { Self → ℕ };

    ghost write_faults: { Self → ℕ };

    /// Reads a piece into the room, and answers its length, which is 0 only at the end of what comes. A read
    /// that fails takes nothing.
    fn receive(&mut self, room: &mut [u8]) -> Result<usize, ReceiveFault>
        requires { 1 ≤ length room.old }
        ensures came { IfOk result (GivesPiece (coming self.old) (coming self.new) room.new) }
        ensures kept { OnErr result (coming self.new ≡ coming self.old) }
        ensures made { Comes made self.old self.new result room.new }
        ensures faults { CountsFaults result (read_faults self.old) (read_faults self.new) }
        ensures apart { write_faults self.new ≡ write_faults self.old };

    /// Sends the piece, or a front of it where it answers a fault.
    fn send(&mut self, piece: &[u8]) -> Result<(), SinkFault>
        ensures made { Sends made self.old self.new (is_ok result) piece.now }
        ensures kept { coming self.new ≡ coming self.old }
        ensures faults { CountsFaults result (write_faults self.old) (write_faults self.new) }
        ensures apart { read_faults self.new ≡ read_faults self.old };
}
