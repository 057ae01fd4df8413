// Calls of the programs, and what they leave.

use crate::asks::{Ask, Program, Run};
use crate::connections::ScriptedConnection;
use crate::files::Files;
use crate::sinks::ScriptedSink;
use crate::stores::ScriptedStore;
use gdb_top::debug;
use guest_turns::Moves;
use nesthv_top::program;
use rv64_hart::Tally;
use std::alloc::Global;
use trace_top::trace;

/// What is counted of a call beside its bytes.
#[derive(Clone, Copy)]
pub struct Counts {
    pub reads: u64,
    pub trace: u64,
    pub entries: u64,
    pub taken: u64,
    pub moves: u64,
    /// How many bytes came on the connection.
    pub came: u64,
    /// Whether they were answered in time.
    pub is_prompt: bool,
}

/// What a call leaves.
#[derive(Drop)]
pub struct Left {
    pub status: u8,
    pub out: Vec<u8>,
    pub err: Vec<u8>,
    pub asked: String,
    pub counts: Counts,
}

/// Makes a run of what is asked.
pub fn call(alloc: Global, ask: &Ask<'_>, run: &Run<'_>, files: &Files<'_>) -> Left {
    match ask.program {
        Program::Nesthv => call_nesthv(alloc, ask, run, files),
        Program::Debugger => call_debugger(alloc, ask, run, files),
        Program::Log => call_log(alloc, ask, run, files),
    }
}

fn call_nesthv(alloc: Global, ask: &Ask<'_>, run: &Run<'_>, files: &Files<'_>) -> Left {
    let mut store = ScriptedStore::new(alloc, files, ask.store);
    let mut out = ScriptedSink::new(alloc, ask.out, run.room);
    let mut err = ScriptedSink::new(alloc, ask.err, usize::MAX);
    let mut tally = Tally::new();
    let mut moves = Moves::new();
    let words = ask.words(alloc);
    let status = program(
        alloc, words, &mut store, &mut out, &mut err, &mut tally, &mut moves,
    );
    let counts = Counts {
        trace: tally.trace(),
        entries: tally.entries(),
        taken: tally.taken(),
        moves: moves.count(),
        ..counts_of(&store)
    };
    Left {
        status,
        out: out.into_bytes(),
        err: err.into_bytes(),
        asked: store.into_asked(),
        counts,
    }
}

fn call_debugger(alloc: Global, ask: &Ask<'_>, run: &Run<'_>, files: &Files<'_>) -> Left {
    let mut store = ScriptedStore::new(alloc, files, ask.store);
    let mut connection = ScriptedConnection::new(alloc, &ask.talk, run.course, run.room);
    let mut err = ScriptedSink::new(alloc, ask.err, usize::MAX);
    let words = ask.words(alloc);
    let status = debug(
        alloc,
        words,
        ask.description,
        &mut store,
        &mut connection,
        &mut err,
    );
    let counts = Counts {
        came: connection.came() as u64,
        is_prompt: connection.is_prompt(),
        ..counts_of(&store)
    };
    Left {
        status,
        out: connection.into_sent(),
        err: err.into_bytes(),
        asked: store.into_asked(),
        counts,
    }
}

fn call_log(alloc: Global, ask: &Ask<'_>, run: &Run<'_>, files: &Files<'_>) -> Left {
    let mut store = ScriptedStore::new(alloc, files, ask.store);
    let mut out = ScriptedSink::new(alloc, ask.out, run.room);
    let mut err = ScriptedSink::new(alloc, ask.err, usize::MAX);
    let words = ask.words(alloc);
    let status = trace(alloc, words, &mut store, &mut out, &mut err);
    let counts = counts_of(&store);
    Left {
        status,
        out: out.into_bytes(),
        err: err.into_bytes(),
        asked: store.into_asked(),
        counts,
    }
}

// The counts of a call that has read from this store, and has done nothing else that is counted.
fn counts_of(store: &ScriptedStore<'_, '_>) -> Counts {
    Counts {
        reads: store.reads(),
        trace: 0,
        entries: 0,
        taken: 0,
        moves: 0,
        came: 0,
        is_prompt: true,
    }
}
