// Lines of traps, and of ways into V = 1 and out of it.

ghost use Rattle.std.specs.Prelude.{◌≡◌};
ghost use Rattle.log_lines.specs.declared.lines.Line.TheVariants as line;
ghost use Rattle.log_lines.specs.declared.traps.Crossing.TheVariants.{Enters, Leaves};
ghost use Rattle.run_log.specs.Traps.{cause_in, world_line};
ghost use Rattle.step_lines.specs.StepLines.{trap_line_of};

use arch_defs::Csrs;
use log_lines::{Head, Line};
use machine_defs::Event;

/// The line of a step that was a trap, by the registers after it.
pub fn trap_line(head: &Head, event: &Event, csrs: &Csrs) -> Option<Line>
    ensures { result ≡ trap_line_of head.now event.now csrs.now }
{
    match event {
        Event::Trap { level, .. } => Some(Line::Trap(run_log::trap_line(*head, csrs, *level))),
        Event::Plain { .. } | Event::System => None,
    }
}

/// The line of a step that entered V = 1, by the registers after it.
pub fn enter_line(head: &Head, csrs: &Csrs) -> Line
    ensures { result ≡ line.World (world_line head.now csrs.now Enters) }
{
    Line::World(run_log::world_entered(*head, csrs))
}

/// The line of a step that left it, by the registers before and after it.
pub fn leave_line(head: &Head, before: &Csrs, after: &Csrs) -> Line
    ensures { result ≡ line.World (world_line head.now before.now (Leaves (cause_in after.now.hs))) }
{
    Line::World(run_log::world_left(*head, before, &after.hs))
}
