// The top call.

ghost use Rattle.std.specs.Prelude.{◌≤◌, ◌^◌, ◌≡◌, ◌⊎◌, IsSome};
ghost use Rattle.command_line.specs.Commands.{command_of};
ghost use Rattle.outside.specs.Faults.{Rose};
ghost use Rattle.outside.specs.Pieces.{Appends};
ghost use Rattle.nesthv_top.specs.Endings.{HasPlan, IfKnown, IfRun, IsRefusal, IfSave, IsReplay, SaysOfAccount, SaysOfCause, SaysOfErr, SaysOfMoves, SaysOfOut, SaysOfReads, SaysOfSaved};
ghost use Rattle.nesthv_top.specs.Plans.{AllRunAsWritten, IsResumable, plan_of};
ghost use Rattle.nesthv_top.specs.Runnings.{HasRoomForCommand};
ghost use Rattle.nesthv_top.specs.Statuses.{status_of, verdict_status, IsDone, IsNoCommand, IsStatusOf};
ghost use Rattle.nesthv_top.specs.Texts.{found_of, text_of};

use crate::ends::Ended;
use crate::lines::tell;
use crate::obeying::obey;
use guest_turns::Moves;
use outside::{Sink, Store, Word};
use rv64_hart::Tally;
use std::alloc::Global;

/// Does what the words after the program's name ask for, and answers the program's status: 0 done, 1 no
/// command, 2 a configuration that is refused, 3 a read that failed, 4 a write that failed, 5 no memory, 6 a
/// report that differs. A status from 1 to 5 has its line on `err`, whose faults change nothing.
pub fn nesthv<S: Store, O: Sink, E: Sink>(
    alloc: Global,
    words: &[Word],
    store: &mut S,
    out: &mut O,
    err: &mut E,
    tally: &mut Tally,
    moves: &mut Moves,
) -> u8
    requires room { HasRoomForCommand tally.old }
    requires moves { moves.old ≤ 2 ^ 61 }

    // The headline: on status 0 and 6 the text of the command has been written: of a run, the report of the
    // guests' lone machines. Their runs are of the written architecture, their cached translations of both
    // stages stale only until the matching fence.
    ensures text { IsDone result → HasPlan (S.files store.old) (command_of words.now)
        (λ files command plan. Appends O.stands_for out.old out.new (text_of files command plan)) }
    ensures machines { IsDone result → HasPlan (S.files store.old) (command_of words.now)
        (λ files command plan. IfRun command (AllRunAsWritten plan)) }

    // What a command has saved, another run can go on from, unless its machine has made more than 2^60 steps.
    ensures saved { result ≡ 0 → HasPlan (S.files store.old) (command_of words.now)
        (λ files command plan. IfSave command (IsResumable plan)) }

    // When each status comes. 5 is out of memory, which is free.
    ensures verdict { IsDone result → HasPlan (S.files store.old) (command_of words.now)
        (λ files command plan. result ≡ verdict_status (found_of files command plan)) }
    ensures differs { result ≡ 6 → IsReplay (command_of words.now) }
    ensures no_command { IsNoCommand words.now result }
    ensures refused { IsRefusal (S.files store.old) (command_of words.now) result }
    ensures read_fault { result ≡ 3 → Rose (S.faults store.old) (S.faults store.new) }
    ensures write_fault { result ≡ 4 → Rose (O.faults out.old) (O.faults out.new) }
    ensures complete { IfKnown (S.files store.old) (command_of words.now) (λ files.
        IsSome (plan_of files (command_of words.now))
        → ¬ Rose (S.faults store.old) (S.faults store.new) → ¬ Rose (O.faults out.old) (O.faults out.new)
        → IsDone result ⊎ (result ≡ 5)) }

    // What it leaves, by the end that the status stands for.
    ensures ended { IsStatusOf result (λ ended.
        SaysOfCause S.Store O.Sink words.now ended store.old store.new out.old out.new
        × SaysOfReads S.Store (command_of words.now) ended store.old store.new
        × SaysOfOut O.Sink (S.files store.old) (command_of words.now) ended out.old out.new
        × SaysOfErr E.Sink ended err.old err.new
        × SaysOfAccount (S.files store.old) (command_of words.now) ended tally.old tally.new
        × SaysOfMoves (S.files store.old) (command_of words.now) ended moves.old moves.new
        × SaysOfSaved (S.files store.old) (command_of words.now) ended) }
{
    let ended = obey(alloc, words, store, out, tally, moves);
    tell(ended, err);
    status_of(ended)
}

/// The status of an end.
pub fn status_of(ended: Ended) -> u8
    ensures { result ≡ status_of ended }
{
    match ended {
        Ended::Done => 0,
        Ended::NoCommand => 1,
        Ended::Refused(_) => 2,
        Ended::ReadFault(_) => 3,
        Ended::WriteFault => 4,
        Ended::NoMemory(_) => 5,
        Ended::Differs => 6,
    }
}
