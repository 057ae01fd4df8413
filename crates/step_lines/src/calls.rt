// Lines of calls of the environment, of bytes of the console, and of waits.

ghost use Rattle.std.specs.Prelude.{◌≡◌};
ghost use Rattle.log_lines.specs.declared.lines.Line.TheVariants as line;
ghost use Rattle.step_lines.specs.StepLines.{call_line_of};

use crate::acts::Act;
use arch_defs::Regs;
use guest_settings::Status;
use log_lines::{Head, Line};

/// The line of a call or a wait, by the registers before and after it, and the status and the clock after it.
pub fn call_line(
    head: &Head,
    act: &Act,
    before: &Regs,
    after: &Regs,
    status: Status,
    time: u64,
) -> Option<Line>
    ensures { result ≡ call_line_of head.now act.now before.now after.now status time }
{
    match act {
        Act::Calls => Some(Line::Call(run_log::call_line(*head, before, after))),
        Act::Waits => Some(Line::Wait(*head, run_log::wake_of(status, time))),
        Act::Fences(..) | Act::Accesses(_) | Act::Other => None,
    }
}

/// The line of a byte that a step put on the console.
pub fn byte_put(head: &Head, byte: u8) -> Line
    ensures { result ≡ line.Put head.now byte }
{
    Line::Put(*head, byte)
}

/// The line of an input that it read.
pub fn input_read(head: &Head, input: (u64, u8)) -> Line
    ensures { result ≡ line.Got head.now input.1 }
{
    Line::Got(*head, input.1)
}
