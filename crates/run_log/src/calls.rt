// Lines of calls and waits.

ghost use Rattle.std.specs.Prelude.{◌≡◌};
ghost use Rattle.run_log.specs.Calls.{call_line, wake_by};

use arch_defs::Regs;
use guest_settings::Status;
use log_lines::{CallLine, Head, Wake};

/// The line of a call of the environment, by the registers before and after it.
pub fn call_line(head: Head, before: &Regs, after: &Regs) -> CallLine
    ensures { result ≡ call_line head before.now after.now }
{
    let number = before.x[17];
    CallLine {
        head,
        number,
        given: before.x[10],
        answer: if number == 8 { None } else { Some(after.x[10]) },
    }
}

/// When a WFI ends, by the status and the clock after it.
pub fn wake_of(status: Status, time: u64) -> Wake
    ensures { result ≡ wake_by status time }
{
    match status {
        Status::Waiting => Wake::Never,
        Status::Running | Status::Stopped => Wake::At(time),
    }
}
