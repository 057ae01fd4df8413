// How a program ends.

ghost use Rattle.std.specs.Prelude.{◌≡◌};
ghost use Rattle.guest_commands.specs.EndLines.{SaysOfLine};
ghost use Rattle.nesthv_top.specs.Statuses.{status_of};
ghost use Rattle.nesthv_top.specs.Written.{IsLinePut};

use nesthv_top::{Ended, status_of, tell};
use outside::Sink;

/// Puts the line that tells of an end, and answers the end's status. Words that are not a command get this
/// line of usage.
pub fn finish<E: Sink>(ended: Ended, usage: &[u8], err: &mut E) -> u8
    ensures status { result ≡ status_of ended }
    ensures line { SaysOfLine E.Sink usage.now ended err.old err.new }
{
    say(ended, usage, err);
    status_of(ended)
}

// Puts the line that tells of an end.
fn say<E: Sink>(ended: Ended, usage: &[u8], err: &mut E)
    ensures { SaysOfLine E.Sink usage.now ended err.old err.new }
{
    match ended {
        Ended::NoCommand => put_usage(usage, err),
        other => tell(other, err),
    }
}

// Puts the line of usage; a fault of this sink changes nothing.
fn put_usage<E: Sink>(usage: &[u8], err: &mut E)
    ensures { IsLinePut E.Sink err.old err.new usage.now }
{
    let _ = err.put(usage);
}
