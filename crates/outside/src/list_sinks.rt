// A sink that keeps its bytes, and fails where it is told to.

ghost use Rattle.std.specs.Prelude.{◌≡◌, ◌≤◌, ◌∷◌, [], ◌++◌, is_ok, min, OnOk, OnErr, IfOk};
ghost use Rattle.outside.specs.Pieces.{Appends, Puts};

use crate::sinks::{Sink, SinkFault};
use no_memory::NoMemory;
use std::alloc::Global;
use std::marker::Model;

// A put that is to fail: its number, and how many bytes it still takes.
#[derive(Clone, Copy)]
struct Failure {
    call: u64,
    takes: usize,
}

impl Model for Failure {
    ghost use Rattle.std.specs.Prelude.{ℕ};

    ghost Value = { ℕ × ℕ };

    ghost view = { λ f. (f.call, f.takes) };

    ghost inverse = { λ f. record { call = f.0; takes = f.1 } };
}

/// A sink that keeps its bytes, in memory that it takes when it is made.
#[derive(Drop)]
pub struct ListSink {
    bytes: Vec<u8>,
    room: usize,
    failing: Vec<Failure>,
    puts: u64,
    faults: u64,
}

impl Model for ListSink {
    ghost use Rattle.std.specs.Prelude.{◌≤◌, vec_len, vec_capacity};
    ghost use Rattle.outside.specs.ListSinks.{SinkState};

    ghost Value = { SinkState };

    ghost view = { λ s. record {
      bytes = s.bytes.items;
      room = s.room;
      failing = s.failing.items;
      puts = s.puts;
      faults = s.faults;
    } };

    ghost invariant = { λ s. (vec_len s.bytes ≤ s.room) × (s.room ≤ vec_capacity s.bytes) };
}

impl ListSink {
    ghost use Rattle.outside.specs.ListSinks.{empty_sink, failure_of};

    /// An empty sink with room for this many bytes.
    pub fn new(alloc: Global, room: usize) -> Result<ListSink, NoMemory>
        ensures { IfOk result (λ s. s ≡ empty_sink room) }
    {
        Ok(ListSink {
            bytes: Vec::with_capacity(alloc, room)?,
            room,
            failing: Vec::new(alloc),
            puts: 0,
            faults: 0,
        })
    }

    /// Lets the put with this number fail once it has taken that many bytes. The first put has number 1.
    pub fn fail_at(&mut self, call: u64, takes: usize) -> Result<(), NoMemory>
        ensures ok { OnOk result
            (self.new ≡ record self.old { failing = self.old.failing ++ (call, takes) ∷ [] }) }
        ensures err { OnErr result (self.new ≡ self.old) }
    {
        self.failing.push(Failure { call, takes })?;
        Ok(())
    }

    /// The bytes taken so far.
    pub fn bytes(&self) -> &[u8]
        ensures { result.now ≡ self.now.bytes }
    {
        self.bytes.as_slice()
    }

    /// The count of its faults.
    pub fn faults(&self) -> u64
        ensures { result ≡ self.now.faults }
    {
        self.faults
    }

    fn failure(&self) -> Option<usize>
        ensures { result ≡ failure_of self.now }
    {
        let call = self.puts.saturating_add(1);
        self.failing
            .iter()
            .find(|f| f.call == call)
            .map(|f| f.takes)
    }
}

// How many bytes of a piece of this length a put takes, where it is to fail once it has taken `takes`.
fn taken_of(takes: usize, length: usize, left: usize) -> usize
    ensures { result ≡ min (min takes length) left }
{
    takes.min(length).min(left)
}

impl Sink for ListSink {
    ghost use Rattle.outside.specs.ListSinks.{after_put, is_taken, IsWrittenBy};

    ghost stands_for = { λ s bytes. s.bytes ≡ bytes };

    ghost took = { IsWrittenBy };

    ghost faults = { λ s. s.faults };

    #[tactic(auto, using(crate::proofs::Pieces::made_of_more))]
    fn put(&mut self, piece: &[u8]) -> Result<(), SinkFault>
        ensures bytes { Puts (λ s bytes. s.bytes ≡ bytes) self.old self.new (is_ok result) piece.now }
        ensures piece { OnOk result (Appends IsWrittenBy self.old self.new (piece.now ∷ [])) }
        ensures count { self.old.faults ≤ self.new.faults }
        ensures answer { is_ok result ≡ is_taken self.old piece.now }
        ensures leaves { self.new ≡ after_put self.old piece.now }
    {
        let left = self.room - self.bytes.len();
        let failure = self.failure();
        let taken = taken_of(failure.unwrap_or(piece.len()), piece.len(), left);
        self.bytes.extend_from_slice(&piece[..taken]).unwrap();
        self.puts = self.puts.saturating_add(1);
        if failure.is_none() && piece.len() <= left {
            Ok(())
        } else {
            self.faults = self.faults.saturating_add(1);
            Err(SinkFault::Failed)
        }
    }
}
