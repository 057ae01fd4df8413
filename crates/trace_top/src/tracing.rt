// The log from the words of a command line to the status.

ghost use Rattle.std.specs.Prelude.{◌≡◌, ◌≤◌, Some, true, IfOk, OnErr};
ghost use Rattle.command_line.specs.Commands.{OnFiles};
ghost use Rattle.guest_commands.specs.EndLines.{SaysOfLine};
ghost use Rattle.guest_commands.specs.Ends.{ComesFor};
ghost use Rattle.guest_commands.specs.GuestWords.{guest_command, saving_command, saving_words};
ghost use Rattle.outside.specs.Faults.{Rose};
ghost use Rattle.nesthv_top.specs.Endings.{HasPlan, IsEndFor, IsOfCommand, SaysOfReads};
ghost use Rattle.nesthv_top.specs.Statuses.{IsStatusOf};
ghost use Rattle.nesthv_top.specs.Written.{IsWordless};
ghost use Rattle.trace_top.specs.Endings.{trace_usage, SaysOfFaults, SaysOfLog};
ghost use Rattle.trace_top.specs.Tracing.{asked_in, most_steps, trace_command, trace_words, Logs};

use crate::asked::{Asked, asked_in};
use crate::guests::log_about;
use guest_commands::{GuestRequest, finish, guest_request, load_guest};
use guest_logs::LogEnd;
use nesthv_top::{Ended, Reads};
use no_memory::NoMemory;
use outside::{Sink, Store, Word};
use std::alloc::Global;

const USAGE: &[u8] = b"nesthv-trace: usage: CONFIG GUEST KIND[,KIND..] [FROM [TO]]\n";

/// Writes the log of a guest of a configuration, and answers the program's status: 0 where it is whole, and
/// else those of `nesthv`. Without words the line of status 5 is put, and nothing else is done.
pub fn trace<S: Store, O: Sink, E: Sink>(
    alloc: Global,
    words: Result<Vec<Word>, NoMemory>,
    store: &mut S,
    out: &mut O,
    err: &mut E,
) -> u8
    // The headline: on status 0 exactly the log has been appended that the definition says of the run of the
    // guest's lone machine.
    ensures log { IfOk words (λ words. result ≡ 0
        → HasPlan (S.files store.old) (trace_command words.items) (λ files command plan.
        Logs O.Sink plan command (asked_in words.items) true out.old out.new)) }

    // When each status comes.
    ensures comes { IfOk words (λ words. ComesFor (S.files store.old) (trace_words words.items)
        (Rose (S.faults store.old) (S.faults store.new)) (Rose (O.faults out.old) (O.faults out.new))
        result) }

    // What it leaves, by the end that the status stands for.
    ensures ended { IfOk words (λ words. IsStatusOf result (λ ended.
        IsEndFor ended (trace_words words.items)
        × SaysOfReads S.Store (trace_command words.items) ended store.old store.new
        × SaysOfFaults S.Store O.Sink ended store.old store.new out.old out.new
        × SaysOfLog O.Sink (S.files store.old) (trace_command words.items) (asked_in words.items) ended
        out.old out.new
        × SaysOfLine E.Sink trace_usage ended err.old err.new)) }

    // Without words.
    ensures wordless { OnErr words
        (IsWordless E.Sink result store.old store.new out.old out.new err.old err.new) }
{
    match words {
        Ok(words) => trace_words(alloc, words.as_slice(), store, out, err),
        Err(NoMemory) => finish(Ended::NoMemory(0), USAGE, err),
    }
}

// The same with words.
fn trace_words<S: Store, O: Sink, E: Sink>(
    alloc: Global,
    words: &[Word],
    store: &mut S,
    out: &mut O,
    err: &mut E,
) -> u8
    ensures log { result ≡ 0
        → HasPlan (S.files store.old) (trace_command words.now) (λ files command plan.
        Logs O.Sink plan command (asked_in words.now) true out.old out.new) }
    ensures comes { ComesFor (S.files store.old) (trace_words words.now)
        (Rose (S.faults store.old) (S.faults store.new)) (Rose (O.faults out.old) (O.faults out.new))
        result }
    ensures ended { IsStatusOf result (λ ended.
        IsEndFor ended (trace_words words.now)
        × SaysOfReads S.Store (trace_command words.now) ended store.old store.new
        × SaysOfFaults S.Store O.Sink ended store.old store.new out.old out.new
        × SaysOfLog O.Sink (S.files store.old) (trace_command words.now) (asked_in words.now) ended
        out.old out.new
        × SaysOfLine E.Sink trace_usage ended err.old err.new) }
{
    let ended = obey(alloc, words, store, out);
    finish(ended, USAGE, err)
}

// Does what the words ask for.
#[tactic(auto, using(crate::proofs::Asking::unasked, nesthv_top::proofs::CommandReads::no_command_says))]
fn obey<S: Store, O: Sink>(alloc: Global, words: &[Word], store: &mut S, out: &mut O) -> Ended
    ensures words { IsEndFor result (trace_words words.now) }
    ensures reads { SaysOfReads S.Store (trace_command words.now) result store.old store.new }
    ensures faults { SaysOfFaults S.Store O.Sink result store.old store.new out.old out.new }
    ensures log { SaysOfLog O.Sink (S.files store.old) (trace_command words.now) (asked_in words.now)
        result out.old out.new }
{
    let Some(asked) = asked_in(words) else {
        return Ended::NoCommand;
    };
    write_log(alloc, &words[..words.len().min(3)], &asked, store, out)
}

// Writes the log of the guest that words name.
fn write_log<S: Store, O: Sink>(
    alloc: Global,
    words: &[Word],
    asked: &Asked,
    store: &mut S,
    out: &mut O,
) -> Ended
    requires early { asked.now.from ≤ most_steps }
    ensures words { IsEndFor result (saving_words words.now) }
    ensures reads { SaysOfReads S.Store (saving_command words.now) result store.old store.new }
    ensures faults { SaysOfFaults S.Store O.Sink result store.old store.new out.old out.new }
    ensures log { SaysOfLog O.Sink (S.files store.old) (saving_command words.now) (Some asked.now) result
        out.old out.new }
{
    match guest_request(words) {
        Some(request) => answer(alloc, request, asked, store, out),
        None => Ended::NoCommand,
    }
}

// Writes the log of the guest that is asked for.
fn answer<S: Store, O: Sink>(
    alloc: Global,
    request: GuestRequest<'_>,
    asked: &Asked,
    store: &mut S,
    out: &mut O,
) -> Ended
    requires early { asked.now.from ≤ most_steps }
    ensures command { IsOfCommand (OnFiles (guest_command request.entry)) result }
    ensures reads { SaysOfReads S.Store (Some (OnFiles (guest_command request.entry))) result
        store.old store.new }
    ensures faults { SaysOfFaults S.Store O.Sink result store.old store.new out.old out.new }
    ensures log { SaysOfLog O.Sink (S.files store.old) (Some (OnFiles (guest_command request.entry)))
        (Some asked.now) result out.old out.new }
{
    let mut reads = Reads::new();
    let guest = match load_guest(alloc, request, &mut reads, store) {
        Ok(guest) => guest,
        Err(end) => return Ended::from(end),
    };
    match log_about(alloc, guest, asked, out) {
        Ok(()) => Ended::Done,
        Err(LogEnd::WriteFault) => Ended::WriteFault,
        Err(LogEnd::NoMemory) => Ended::from(reads.no_memory()),
    }
}
