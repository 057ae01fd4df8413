// A run that gdb looks at.

ghost use Rattle.std.specs.Prelude.{◌≡◌, ◌^◌, ◌≤◌, [], IfOk};
ghost use Rattle.run_positions.specs.Positions.{IsShown};
ghost use Rattle.gdb_stub.specs.Sessions.{recording_of, session_state, ShowsPosition};

use gdb_commands::Place;
use no_memory::NoMemory;
use run_positions::{Positions, Runner};
use std::alloc::Global;

/// A byte of RAM that is watched, by its offset, for a stop.
#[derive(Clone, Copy)]
pub struct Watched {
    pub place: Place,
    pub offset: u64,
}

/// How a run moves.
#[derive(Clone, Copy)]
pub enum Move {
    Step,
    Continue,
    StepBack,
    ContinueBack,
}

/// A run at a position up to its last one, with the addresses at which it is to stop, the bytes of RAM that
/// are watched, and the description of its registers for gdb.
#[derive(Drop)]
pub struct Session<R> {
    pub positions: Positions<R>,
    pub last: u64,
    pub description: Vec<u8>,
    pub pcs: Vec<u64>,
    pub watched: Vec<Watched>,
}

impl<R: Runner + Drop> Session<R> {
    /// The run of a machine from its start up to a last position, with no stops set.
    pub fn new(
        alloc: Global,
        runner: R,
        last: u64,
        description: &[u8],
    ) -> Result<Session<R>, NoMemory>
        requires early { (R.machine runner).platform.steps ≤ 2 ^ 60 }
        requires few { last ≤ 2 ^ 52 }
        ensures held { IfOk result (ShowsPosition R.Runner) }
        ensures recording { IfOk result (λ s. recording_of R.Runner s
            ≡ record { begin = R.machine runner; last = last; description = description.now }) }
        ensures state { IfOk result (λ s. session_state s ≡ record { place = 0; pcs = []; watched = [] }) }
    {
        let description = Vec::from_slice(alloc, description)?;
        let positions = Positions::new(alloc, runner)?;
        Ok(Session {
            positions,
            last,
            description,
            pcs: Vec::new(alloc),
            watched: Vec::new(alloc),
        })
    }
}
