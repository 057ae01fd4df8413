// The debugger from its words to its status.

ghost use Rattle.std.specs.Prelude.{◌≡◌, ◌⊎◌, None, Some, IfOk, OnErr};
ghost use Rattle.command_line.specs.Commands.{OnFiles};
ghost use Rattle.guest_commands.specs.EndLines.{SaysOfLine};
ghost use Rattle.guest_commands.specs.Ends.{ComesFor};
ghost use Rattle.guest_commands.specs.GuestWords.{guest_command, saving_command, saving_words};
ghost use Rattle.outside.specs.Faults.{Rose};
ghost use Rattle.nesthv_top.specs.Endings.{HasPlan, IsEndFor, IsOfCommand, SaysOfReads};
ghost use Rattle.nesthv_top.specs.Statuses.{IsStatusOf};
ghost use Rattle.nesthv_top.specs.Written.{IsWordless};
ghost use Rattle.gdb_top.specs.Debugging.{TalksAbout};
ghost use Rattle.gdb_top.specs.Endings.{files_end, debugger_usage, SaysOfCauses, SaysOfTalk};

use crate::guests::talk_about;
use gdb_stub::TalkEnd;
use guest_commands::{GuestRequest, finish, guest_request, load_guest};
use nesthv_top::{Ended, Reads};
use no_memory::NoMemory;
use outside::{Connection, Sink, Store, Word};
use std::alloc::Global;

const USAGE: &[u8] = b"nesthv-gdb: usage: CONFIG GUEST\n";

/// Lets gdb look at a guest of a configuration, at each position of its run, and answers the program's
/// status. It is 0 where gdb has left or its stream has ended, and else one of those of `nesthv`. A read
/// fault of number 0 is one of gdb's stream. Without words the line of status 5 is put, and nothing else is
/// done.
pub fn debug<S: Store, C: Connection, E: Sink>(
    alloc: Global,
    words: Result<Vec<Word>, NoMemory>,
    description: &[u8],
    store: &mut S,
    connection: &mut C,
    err: &mut E,
) -> u8
    // The headline: on status 0 all has been answered as the definition says, for the run of the guest's lone
    // machine, and each message before more was waited for.
    ensures talk { IfOk words (λ words. result ≡ 0
        → HasPlan (S.files store.old) (saving_command words.items) (λ files command plan.
        TalksAbout C.Connection plan command description.now None connection.old connection.new)) }

    // When each status comes.
    ensures comes { IfOk words (λ words. ComesFor (S.files store.old) (saving_words words.items)
        (Rose (S.faults store.old) (S.faults store.new)
        ⊎ Rose (C.read_faults connection.old) (C.read_faults connection.new))
        (Rose (C.write_faults connection.old) (C.write_faults connection.new)) result) }

    // What it leaves, by the end that the status stands for.
    ensures ended { IfOk words (λ words. IsStatusOf result (λ ended.
        IsEndFor ended (saving_words words.items)
        × SaysOfReads S.Store (saving_command words.items) (files_end ended) store.old store.new
        × SaysOfCauses S.Store C.Connection ended store.old store.new connection.old connection.new
        × SaysOfTalk C.Connection (S.files store.old) (saving_command words.items) description.now ended
        connection.old connection.new
        × SaysOfLine E.Sink debugger_usage ended err.old err.new)) }

    // Without words.
    ensures wordless { OnErr words
        (IsWordless E.Sink result store.old store.new connection.old connection.new err.old err.new) }
{
    match words {
        Ok(words) => debug_words(alloc, words.as_slice(), description, store, connection, err),
        Err(NoMemory) => finish(Ended::NoMemory(0), USAGE, err),
    }
}

// The same with words.
fn debug_words<S: Store, C: Connection, E: Sink>(
    alloc: Global,
    words: &[Word],
    description: &[u8],
    store: &mut S,
    connection: &mut C,
    err: &mut E,
) -> u8
    ensures talk { result ≡ 0
        → HasPlan (S.files store.old) (saving_command words.now) (λ files command plan.
        TalksAbout C.Connection plan command description.now None connection.old connection.new) }
    ensures comes { ComesFor (S.files store.old) (saving_words words.now)
        (Rose (S.faults store.old) (S.faults store.new)
        ⊎ Rose (C.read_faults connection.old) (C.read_faults connection.new))
        (Rose (C.write_faults connection.old) (C.write_faults connection.new)) result }
    ensures ended { IsStatusOf result (λ ended.
        IsEndFor ended (saving_words words.now)
        × SaysOfReads S.Store (saving_command words.now) (files_end ended) store.old store.new
        × SaysOfCauses S.Store C.Connection ended store.old store.new connection.old connection.new
        × SaysOfTalk C.Connection (S.files store.old) (saving_command words.now) description.now ended
        connection.old connection.new
        × SaysOfLine E.Sink debugger_usage ended err.old err.new) }
{
    let ended = obey(alloc, words, description, store, connection);
    finish(ended, USAGE, err)
}

// Does what the words ask for.
#[tactic(auto, using(nesthv_top::proofs::CommandReads::no_command_says))]
fn obey<S: Store, C: Connection>(
    alloc: Global,
    words: &[Word],
    description: &[u8],
    store: &mut S,
    connection: &mut C,
) -> Ended
    ensures words { IsEndFor result (saving_words words.now) }
    ensures reads { SaysOfReads S.Store (saving_command words.now) (files_end result)
        store.old store.new }
    ensures causes { SaysOfCauses S.Store C.Connection result store.old store.new
        connection.old connection.new }
    ensures talk { SaysOfTalk C.Connection (S.files store.old) (saving_command words.now)
        description.now result connection.old connection.new }
{
    match guest_request(words) {
        Some(request) => answer(alloc, request, description, store, connection),
        None => Ended::NoCommand,
    }
}

// Lets gdb look at the guest that is asked for.
fn answer<S: Store, C: Connection>(
    alloc: Global,
    request: GuestRequest<'_>,
    description: &[u8],
    store: &mut S,
    connection: &mut C,
) -> Ended
    ensures command { IsOfCommand (OnFiles (guest_command request.entry)) result }
    ensures reads { SaysOfReads S.Store (Some (OnFiles (guest_command request.entry)))
        (files_end result) store.old store.new }
    ensures causes { SaysOfCauses S.Store C.Connection result store.old store.new
        connection.old connection.new }
    ensures talk { SaysOfTalk C.Connection (S.files store.old)
        (Some (OnFiles (guest_command request.entry))) description.now result
        connection.old connection.new }
{
    let mut reads = Reads::new();
    let guest = match load_guest(alloc, request, &mut reads, store) {
        Ok(guest) => guest,
        Err(end) => return Ended::from(end),
    };
    match talk_about(alloc, guest, description, connection) {
        Ok(()) => Ended::Done,
        Err(TalkEnd::ReadFault) => Ended::ReadFault(0),
        Err(TalkEnd::WriteFault) => Ended::WriteFault,
        Err(TalkEnd::NoMemory) => Ended::from(reads.no_memory()),
    }
}
