// The whole program.

ghost use Rattle.std.specs.Prelude.{◌≤◌, ◌^◌, ◌≡◌, IfOk, OnErr};
ghost use Rattle.command_line.specs.Commands.{command_of};
ghost use Rattle.nesthv_top.specs.Endings.{SaysOfAccount, SaysOfCause, SaysOfErr, SaysOfMoves, SaysOfOut, SaysOfReads, SaysOfSaved};
ghost use Rattle.nesthv_top.specs.Runnings.{HasRoomForCommand};
ghost use Rattle.nesthv_top.specs.Statuses.{IsStatusOf};
ghost use Rattle.nesthv_top.specs.Written.{IsWordless};

use crate::ends::Ended;
use crate::lines::tell;
use crate::top::{nesthv, status_of};
use guest_turns::Moves;
use no_memory::NoMemory;
use outside::{Sink, Store, Word};
use rv64_hart::Tally;
use std::alloc::Global;

/// The program from its words to its status. The words are those of the command line, the program's name
/// first, or out of memory for them. Then the line of status 5 is put, and nothing else is done.
pub fn program<S: Store, O: Sink, E: Sink>(
    alloc: Global,
    words: Result<Vec<Word>, NoMemory>,
    store: &mut S,
    out: &mut O,
    err: &mut E,
    tally: &mut Tally,
    moves: &mut Moves,
) -> u8
    requires room { HasRoomForCommand tally.old }
    requires moves { moves.old ≤ 2 ^ 61 }

    // With words: the status is that of an end of the command, which says why it comes and what it leaves.
    ensures ended { IfOk words (λ words. IsStatusOf result (λ ended.
        SaysOfCause S.Store O.Sink words.items ended store.old store.new out.old out.new
        × SaysOfReads S.Store (command_of words.items) ended store.old store.new
        × SaysOfOut O.Sink (S.files store.old) (command_of words.items) ended out.old out.new
        × SaysOfErr E.Sink ended err.old err.new
        × SaysOfAccount (S.files store.old) (command_of words.items) ended tally.old tally.new
        × SaysOfMoves (S.files store.old) (command_of words.items) ended moves.old moves.new
        × SaysOfSaved (S.files store.old) (command_of words.items) ended)) }

    // Without words.
    ensures wordless { OnErr words
        (IsWordless E.Sink result store.old store.new out.old out.new err.old err.new) }
    ensures account { OnErr words (tally.new ≡ tally.old) }
    ensures moves { OnErr words (moves.new ≡ moves.old) }
{
    match words {
        Ok(words) => nesthv(alloc, words.as_slice(), store, out, err, tally, moves),
        Err(NoMemory) => {
            let ended = Ended::NoMemory(0);
            tell(ended, err);
            status_of(ended)
        }
    }
}
