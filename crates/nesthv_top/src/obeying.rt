// From a command to its end.

ghost use Rattle.std.specs.Prelude.{Some};
ghost use Rattle.command_line.specs.Commands.{OnFiles, command_of};
ghost use Rattle.command_line.specs.Seen.{file_command_seen};
ghost use Rattle.nesthv_top.specs.Endings.{SaysOfCause, SaysOfCauseFor, SaysOfCounts, SaysOfOut, SaysOfReads, SaysOfSaved};
ghost use Rattle.nesthv_top.specs.Performed.{HasAnswered, HasRunMachines};
ghost use Rattle.nesthv_top.specs.Runnings.{AreCountsFor, HasRoomForRun};
ghost use Rattle.nesthv_top.specs.Seen.{loaded_plan, HasGuest, IsJob};

use crate::checking::check;
use crate::ends::{Ended, Loaded, RunEnd};
use crate::loading::load;
use crate::reads::Reads;
use crate::replaying::replay;
use crate::running::{run, save};
use crate::works::work;
use command_line::{FileRequest, Request, request_of};
use guest_turns::Moves;
use outside::{Sink, Store, Word};
use replay::Verdict;
use rv64_hart::Tally;
use std::alloc::Global;

/// Does what the words ask for.
pub fn obey<S: Store, O: Sink>(
    alloc: Global,
    words: &[Word],
    store: &mut S,
    out: &mut O,
    tally: &mut Tally,
    moves: &mut Moves,
) -> Ended
    requires room { HasRoomForRun tally.old moves.old }

    ensures cause { SaysOfCause S.Store O.Sink words.now result store.old store.new out.old out.new }
    ensures reads { SaysOfReads S.Store (command_of words.now) result store.old store.new }
    ensures out { SaysOfOut O.Sink (S.files store.old) (command_of words.now) result out.old out.new }
    ensures counts { SaysOfCounts (S.files store.old) (command_of words.now) result
        tally.old tally.new moves.old moves.new }
    ensures saved { SaysOfSaved (S.files store.old) (command_of words.now) result }
{
    match request_of(alloc, words) {
        Ok(Some(Request::OnFiles(request))) => answer(alloc, request, store, out, tally, moves),
        Ok(Some(Request::Work { seed, size })) => match work(alloc, seed, size, out, tally) {
            Ok(()) => Ended::Done,
            Err(RunEnd::WriteFault) => Ended::WriteFault,
            Err(RunEnd::NoMemory) => Ended::NoMemory(0),
        },
        Ok(None) => Ended::NoCommand,
        Err(_) => Ended::NoMemory(0),
    }
}

// Does what is asked for of files.
fn answer<S: Store, O: Sink>(
    alloc: Global,
    request: FileRequest<'_>,
    store: &mut S,
    out: &mut O,
    tally: &mut Tally,
    moves: &mut Moves,
) -> Ended
    requires room { HasRoomForRun tally.old moves.old }

    ensures cause { SaysOfCauseFor S.Store O.Sink (OnFiles (file_command_seen request.entry)) result
        store.old store.new out.old out.new }
    ensures reads { SaysOfReads S.Store (Some (OnFiles (file_command_seen request.entry))) result
        store.old store.new }
    ensures out { SaysOfOut O.Sink (S.files store.old) (Some (OnFiles (file_command_seen request.entry)))
        result out.old out.new }
    ensures counts { SaysOfCounts (S.files store.old) (Some (OnFiles (file_command_seen request.entry)))
        result tally.old tally.new moves.old moves.new }
    ensures saved { SaysOfSaved (S.files store.old) (Some (OnFiles (file_command_seen request.entry)))
        result }
{
    let mut reads = Reads::new();
    let loaded = match load(alloc, request, &mut reads, store) {
        Ok(loaded) => loaded,
        Err(end) => return Ended::from(end),
    };
    match perform(alloc, request, loaded, out, tally, moves) {
        Ok(Verdict::Same) => Ended::Done,
        Ok(Verdict::Differs(_)) => Ended::Differs,
        Err(RunEnd::WriteFault) => Ended::WriteFault,
        Err(RunEnd::NoMemory) => Ended::from(reads.no_memory()),
    }
}

// Does with what was read what is asked for, and answers what a replay finds; the others find nothing that differs.
#[tactic(auto, using(crate::proofs::SavedMachines::guest_there, crate::proofs::SavedMachines::saved_there))]
fn perform<O: Sink>(
    alloc: Global,
    request: FileRequest<'_>,
    loaded: Loaded,
    out: &mut O,
    tally: &mut Tally,
    moves: &mut Moves,
) -> Result<Verdict, RunEnd>
    requires job { IsJob loaded.job }
    requires guest { HasGuest (file_command_seen request) loaded.job.config }
    requires room { HasRoomForRun tally.old moves.old }

    ensures answer { HasAnswered O.Sink (file_command_seen request.entry) loaded.stored.items
        (loaded_plan loaded) result out.old out.new }
    ensures counts { AreCountsFor (file_command_seen request.entry) (loaded_plan loaded) result
        tally.old tally.new moves.old moves.new }
    ensures machines { HasRunMachines (OnFiles (file_command_seen request.entry)) (loaded_plan loaded)
        result }
{
    let Loaded { job, stored } = loaded;
    match request {
        FileRequest::Run { .. } => {
            run(alloc, job, out, tally, moves)?;
            Ok(Verdict::Same)
        }
        FileRequest::Replay { .. } => replay(alloc, job, stored.as_slice(), out, tally, moves),
        FileRequest::Check { .. } => {
            check(&job, out)?;
            Ok(Verdict::Same)
        }
        FileRequest::Save { guest, .. } => {
            save(alloc, job, guest, out, tally, moves)?;
            Ok(Verdict::Same)
        }
    }
}
