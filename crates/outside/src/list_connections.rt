// A connection in memory, whose reads come in pieces and fail where they are told to.

ghost use Rattle.std.specs.Prelude.{◌≡◌, ◌≤◌, ◌∷◌, [], ◌++◌, length, nat_eq, take, Some, OnOk, OnErr, IfOk, is_ok};
ghost use Rattle.std.specs.List.{list_any};
ghost use Rattle.outside.specs.Faults.{one_more, CountsFaults};
ghost use Rattle.outside.specs.Connections.{Comes, GivesPiece, Sends};
ghost use Rattle.outside.specs.ListSinks.{after_put, is_taken};

use crate::connections::{Connection, ReceiveFault};
use crate::list_sinks::ListSink;
use crate::sinks::{Sink, SinkFault};
use no_memory::NoMemory;
use std::alloc::Global;
use std::marker::Model;

/// A read that was made: how many bytes had been sent before it, and how many it gave.
#[derive(Clone, Copy)]
pub struct ReadMade {
    pub sent: usize,
    pub came: usize,
}

/// A connection on which bytes in memory come, in pieces, and whose sink is in memory. It takes its memory
/// when it is made.
#[derive(Drop)]
pub struct ListConnection {
    coming: Vec<u8>,
    place: usize,
    most: usize,
    failing: Vec<u64>,
    reads: u64,
    read_faults: u64,
    made: Vec<ReadMade>,
    room: usize,
    out: ListSink,
}

impl Model for ListConnection {
    ghost use Rattle.std.specs.Prelude.{◌≤◌, drop, length, vec_len, vec_capacity};
    ghost use Rattle.outside.specs.ListConnections.{ListState};

    ghost Value = { ListState };

    ghost view = { λ c. record {
      coming = drop c.place c.coming.items;
      most = c.most;
      failing = c.failing.items;
      reads = c.reads;
      read_faults = c.read_faults;
      made = c.made.items;
      room = c.room;
      out = c.out;
    } };

    ghost invariant = { λ c. (1 ≤ c.most) × (c.place ≤ vec_len c.coming) × (vec_len c.made ≤ c.room)
        × (c.room ≤ vec_capacity c.made) };
}

impl ListConnection {
    ghost use Rattle.outside.specs.ListConnections.{fresh_connection, is_next_failing};

    /// A connection on which these bytes come, at most that many at once, with room for that many reads.
    pub fn new(
        alloc: Global,
        coming: &[u8],
        most: usize,
        room: usize,
        out: ListSink,
    ) -> Result<ListConnection, NoMemory>
        requires { 1 ≤ most }
        ensures { IfOk result (λ c. c ≡ fresh_connection coming.now most room out) }
    {
        Ok(ListConnection {
            coming: Vec::from_slice(alloc, coming)?,
            place: 0,
            most,
            failing: Vec::new(alloc),
            reads: 0,
            read_faults: 0,
            made: Vec::with_capacity(alloc, room)?,
            room,
            out,
        })
    }

    /// Lets the read with this number fail. The first has number 1.
    pub fn fail_at(&mut self, call: u64) -> Result<(), NoMemory>
        ensures ok { OnOk result
            (self.new ≡ record self.old { failing = self.old.failing ++ call ∷ [] }) }
        ensures err { OnErr result (self.new ≡ self.old) }
    {
        self.failing.push(call)?;
        Ok(())
    }

    /// What was sent.
    pub fn out(&self) -> &ListSink
        ensures { result.now ≡ self.now.out }
    {
        &self.out
    }

    /// The reads that gave something or the end, oldest first.
    pub fn made(&self) -> &[ReadMade]
        ensures { result.now ≡ self.now.made }
    {
        self.made.as_slice()
    }

    fn is_told_to_fail(&self) -> bool
        ensures { result ≡ list_any (nat_eq (one_more self.now.reads)) self.now.failing }
    {
        let call = self.reads.saturating_add(1);
        self.failing.iter().any(|&failing| failing == call)
    }

    fn is_next_failing(&self) -> bool
        ensures { result ≡ is_next_failing self.now }
    {
        self.is_told_to_fail() || self.made.len() >= self.room
    }
}

impl Connection for ListConnection {
    ghost use Rattle.outside.specs.ListConnections.{after_read, read_result, IsMadeBy};

    ghost coming = { λ c. Some c.coming };

    ghost made = { IsMadeBy };

    ghost read_faults = { λ c. c.read_faults };

    ghost write_faults = { λ c. c.out.faults };

    #[tactic(auto, using(crate::proofs::Transfers::made_rules))]
    fn receive(&mut self, room: &mut [u8]) -> Result<usize, ReceiveFault>
        requires { 1 ≤ length room.old }
        ensures came { IfOk result (GivesPiece (Some self.old.coming) (Some self.new.coming) room.new) }
        ensures faults { CountsFaults result self.old.read_faults self.new.read_faults }
        ensures made { Comes IsMadeBy self.old self.new result room.new }
        ensures answer { result ≡ read_result self.old (length room.old) }
        ensures leaves { self.new ≡ after_read self.old (length room.old) }
    {
        let fails = self.is_next_failing();
        self.reads = self.reads.saturating_add(1);
        if fails {
            self.read_faults = self.read_faults.saturating_add(1);
            return Err(ReceiveFault::Failed);
        }
        let came = room
            .len()
            .min(self.most)
            .min(self.coming.len() - self.place);
        room[..came].copy_from_slice(&self.coming[self.place..self.place + came]);
        self.made.push_reserved(ReadMade {
            sent: self.out.bytes().len(),
            came,
        });
        self.place += came;
        Ok(came)
    }

    #[tactic(auto, using(crate::proofs::Transfers::made_rules))]
    fn send(&mut self, piece: &[u8]) -> Result<(), SinkFault>
        ensures made { Sends IsMadeBy self.old self.new (is_ok result) piece.now }
        ensures faults { CountsFaults result self.old.out.faults self.new.out.faults }
        ensures answer { is_ok result ≡ is_taken self.old.out piece.now }
        ensures leaves { self.new ≡ record self.old { out = after_put self.old.out piece.now } }
    {
        self.out.put(piece)
    }
}
