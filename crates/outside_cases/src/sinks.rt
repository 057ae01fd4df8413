// A stream in memory, of which a put can fail.

ghost use Rattle.std.specs.Prelude.{◌≤◌};

use crate::numbers::Numbers;
use outside::{Sink, SinkFault};
use std::alloc::Global;

/// A put that fails once it has taken that many bytes, and whether the stream takes nothing at all, with a
/// count of faults that stands at its end. Put 0 is none.
#[derive(Clone, Copy)]
pub struct StreamScript {
    put: u64,
    takes: usize,
    is_full: bool,
}

impl StreamScript {
    /// The next script.
    pub fn of(numbers: &mut Numbers<'_>) -> StreamScript {
        StreamScript {
            put: numbers.next(),
            takes: numbers.next() as usize,
            is_full: numbers.flag(),
        }
    }
}

/// A sink that keeps its bytes.
#[derive(Drop)]
pub struct ScriptedSink {
    script: StreamScript,
    // How many bytes it takes before it closes.
    room: usize,
    bytes: Vec<u8>,
    puts: u64,
    faults: u64,
}

impl ScriptedSink {
    pub fn new(alloc: Global, script: StreamScript, room: usize) -> ScriptedSink {
        ScriptedSink {
            script,
            room,
            bytes: Vec::new(alloc),
            puts: 0,
            faults: if script.is_full { u64::MAX } else { 0 },
        }
    }

    pub fn into_bytes(self) -> Vec<u8> {
        self.bytes
    }

    // How many bytes of a piece the next put takes.
    fn taken(&self, length: usize) -> usize
        ensures { result ≤ length }
    {
        let room = self.room.saturating_sub(self.bytes.len());
        if self.script.is_full {
            0
        } else if self.script.put == self.puts {
            self.script.takes.min(room).min(length)
        } else {
            room.min(length)
        }
    }

    fn fails(&self) -> bool {
        self.script.is_full || self.script.put == self.puts
    }
}

impl Sink for ScriptedSink {
    ghost stands_for = { λ _ _. ⊥ };

    ghost took = { λ _ _. ⊥ };

    ghost faults = { λ s. s.faults };

    fn put(&mut self, piece: &[u8]) -> Result<(), SinkFault> {
        self.puts = self.puts.saturating_add(1);
        let taken = self.taken(piece.len());
        let kept = self.bytes.extend_from_slice(&piece[..taken]);
        if kept.is_ok() && taken == piece.len() && !self.fails() {
            return Ok(());
        }
        self.faults = self.faults.saturating_add(1);
        Err(SinkFault::Failed)
    }
}
