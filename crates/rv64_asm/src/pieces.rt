// Bytes that are placed in an image.

ghost use Rattle.std.specs.Prelude.{◌≡◌, ◌+◌, ◌^◌, ◌≤◌, length, IfOk};
ghost use Rattle.arch_defs.specs.Memory.{pasted};
ghost use Rattle.rv64_asm.specs.Plans.{covering, last_end, own, piece_end, LaidOver};

use no_memory::NoMemory;
use std::alloc::Global;
use std::marker::Model;

/// Bytes, and the place that they begin at.
#[derive(Drop)]
pub struct Piece {
    at: u64,
    bytes: Vec<u8>,
}

impl Model for Piece {
    ghost use Rattle.std.specs.Prelude.{◌+◌, ◌^◌, ◌≤◌, vec_len};
    ghost use Rattle.rv64_asm.specs.Plans;

    ghost Value = { Plans.Piece };

    ghost view = { λ p. record { at = p.at; bytes = p.bytes.items } };

    ghost invariant = { λ p. p.at + vec_len p.bytes ≤ 2 ^ 26 };
}

impl Piece {
    pub fn new(alloc: Global, at: u64, bytes: &[u8]) -> Result<Piece, NoMemory>
        requires { at + length bytes.now ≤ 2 ^ 26 }
        ensures { IfOk result (λ p. p ≡ record { at = at; bytes = bytes.now }) }
    {
        let bytes = Vec::from_slice(alloc, bytes)?;
        Ok(Piece { at, bytes })
    }

    /// Where its last byte ends, or 0.
    fn end(&self) -> u64
        ensures value { result ≡ piece_end self.now }
        ensures small { result ≤ 2 ^ 26 }
    {
        if self.bytes.is_empty() {
            0
        } else {
            self.at + self.bytes.len() as u64
        }
    }

    /// Lays it over bytes.
    fn lay(&self, bytes: &mut [u8])
        requires { piece_end self.now ≤ length bytes.old }
        ensures bytes { LaidOver (own self.now) bytes.old bytes.new }
        ensures size { length bytes.new ≡ length bytes.old }
    {
        if !self.bytes.is_empty() {
            paste(bytes, self.at as usize, self.bytes.as_slice());
        }
    }
}

// Lays a piece over the bytes from a place on.
fn paste(bytes: &mut [u8], at: usize, piece: &[u8])
    requires { at + length piece.now ≤ length bytes.old }
    ensures { bytes.new ≡ pasted bytes.old at piece.now }
{
    bytes[at..at + piece.len()].copy_from_slice(piece);
}

/// Where the last byte of all ends, or 0.
#[tactic(auto, using(crate::proofs::Loops::ending))]
pub fn last_end(pieces: &[Piece]) -> u64
    ensures value { result ≡ last_end pieces.now }
    ensures small { result ≤ 2 ^ 26 }
{
    let mut last = 0;
    for placed in pieces {
        last = placed.end().max(last);
    }
    last
}

/// Lays all over bytes, the oldest first.
pub fn lay_all(bytes: &mut [u8], pieces: &[Piece])
    requires { last_end pieces.now ≤ length bytes.old }
    ensures bytes { LaidOver (covering pieces.now) bytes.old bytes.new }
    ensures size { length bytes.new ≡ length bytes.old }
{
    for piece in pieces {
        piece.lay(bytes);
    }
}
