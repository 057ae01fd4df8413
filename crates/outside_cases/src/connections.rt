// A connection in memory, whose bytes come in pieces, and of which a read or a write can fail.

ghost use Rattle.std.specs.Prelude.{◌≤◌, length, None};

use crate::numbers::Numbers;
use outside::{Connection, ReceiveFault, SinkFault};
use std::alloc::Global;

/// How many bytes are answered at least and at most, once that many have come.
#[derive(Clone, Copy)]
struct Stage {
    came: usize,
    least: usize,
    most: usize,
}

/// What comes on a connection, the places up to which pieces go, and what is answered by when.
#[derive(Drop)]
pub struct Talk<'a> {
    coming: &'a [u8],
    stops: Vec<usize>,
    stages: Vec<Stage>,
}

impl<'a> Talk<'a> {
    /// The next talk.
    pub fn of(alloc: Global, numbers: &mut Numbers<'a>) -> Talk<'a> {
        let coming = numbers.string();
        let stops = numbers.listed(alloc);
        let mut stages = Vec::new(alloc);
        for _ in 0..numbers.count() {
            let stage = Stage {
                came: numbers.next() as usize,
                least: numbers.next() as usize,
                most: numbers.next() as usize,
            };
            if stages.push(stage).is_err() {
                numbers.fail();
            }
        }
        Talk {
            coming,
            stops,
            stages,
        }
    }

    // Whether that much may have been answered once that many bytes have come, and no more.
    fn allows(&self, came: usize, answered: usize) -> bool {
        let mut is_allowed = true;
        for stage in self.stages.as_slice() {
            if stage.came <= came {
                is_allowed = stage.least <= answered && answered <= stage.most;
            }
        }
        is_allowed
    }

    // How many bytes there are from that many to the next stop.
    fn stretch(&self, came: usize) -> usize {
        let mut stretch = usize::MAX;
        for stop in self.stops.iter().rev() {
            if *stop > came {
                stretch = *stop - came;
            }
        }
        stretch
    }
}

/// How a connection goes.
#[derive(Clone, Copy)]
pub struct Course {
    /// How many bytes come.
    coming: usize,
    /// Whether each of them comes alone.
    is_bytewise: bool,
    /// Whether the read behind the last byte fails. Otherwise it finds the end.
    fails: bool,
}

impl Course {
    /// The next course.
    pub fn of(numbers: &mut Numbers<'_>) -> Course {
        Course {
            coming: numbers.bound(),
            is_bytewise: numbers.flag(),
            fails: numbers.flag(),
        }
    }
}

/// A connection that keeps what is sent.
#[derive(Drop)]
pub struct ScriptedConnection<'t> {
    talk: &'t Talk<'t>,
    course: Course,
    rest: &'t [u8],
    came: usize,
    sent: Vec<u8>,
    // How many more bytes are taken before a write fails.
    room: usize,
    is_prompt: bool,
    read_faults: u64,
    write_faults: u64,
}

impl<'t> ScriptedConnection<'t> {
    pub fn new(
        alloc: Global,
        talk: &'t Talk<'t>,
        course: Course,
        room: usize,
    ) -> ScriptedConnection<'t> {
        ScriptedConnection {
            talk,
            course,
            rest: &talk.coming[..course.coming.min(talk.coming.len())],
            came: 0,
            sent: Vec::new(alloc),
            room,
            is_prompt: true,
            read_faults: 0,
            write_faults: 0,
        }
    }

    /// How many bytes have come.
    pub fn came(&self) -> usize {
        self.came
    }

    /// Whether what had come was answered before more was waited for, and nothing else.
    pub fn is_prompt(&self) -> bool {
        self.is_prompt
    }

    pub fn into_sent(self) -> Vec<u8> {
        self.sent
    }

    fn piece(&self, room: usize) -> usize
        ensures room { result ≤ room }
        ensures rest { result ≤ length self.now.rest.now }
    {
        let most = if self.course.is_bytewise {
            1
        } else {
            self.talk.stretch(self.came)
        };
        most.min(room).min(self.rest.len())
    }
}

impl Connection for ScriptedConnection<'_> {
    ghost coming = { λ _. None };

    ghost made = { λ _ _. ⊥ };

    ghost read_faults = { λ c. c.read_faults };

    ghost write_faults = { λ c. c.write_faults };

    fn receive(&mut self, room: &mut [u8]) -> Result<usize, ReceiveFault> {
        self.is_prompt &= self.talk.allows(self.came, self.sent.len());
        let n = self.piece(room.len());
        if n == 0 && self.course.fails {
            self.read_faults = self.read_faults.saturating_add(1);
            return Err(ReceiveFault::Failed);
        }
        let (piece, rest) = self.rest.split_at(n);
        room[..n].copy_from_slice(piece);
        self.rest = rest;
        self.came = self.came.saturating_add(n);
        Ok(n)
    }

    fn send(&mut self, piece: &[u8]) -> Result<(), SinkFault> {
        let taken = piece.len().min(self.room);
        let kept = self.sent.extend_from_slice(&piece[..taken]);
        self.room -= taken;
        if kept.is_ok() && taken == piece.len() {
            return Ok(());
        }
        self.write_faults = self.write_faults.saturating_add(1);
        Err(SinkFault::Failed)
    }
}
