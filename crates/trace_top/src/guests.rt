// The guest whose log is written.

ghost use Rattle.std.specs.Prelude.{◌≡◌, ◌≤◌, ◌^◌, is_ok, IsErrOf};
ghost use Rattle.guest_turns.specs.Sources.{machine_of_source, IsBootableSource};
ghost use Rattle.log_writer.specs.Logging.{HasLogged};
ghost use Rattle.outside.specs.Faults.{Rose};
ghost use Rattle.run_log.specs.Log.{steps_between};
ghost use Rattle.trace_top.specs.Tracing.{most_steps};

use crate::asked::Asked;
use guest_commands::LoneGuest;
use guest_logs::{LogEnd, log_of};
use outside::Sink;
use std::alloc::Global;

// How many steps of the run lie from one up to another.
fn steps_between(from: u64, to: u64, last: u64) -> u64
    ensures { result ≡ steps_between from to last }
{
    let end = if to < last { to } else { last };
    end.saturating_sub(from)
}

/// Puts the log of a guest. Where it has no step, nothing is run.
pub fn log_about<O: Sink>(
    alloc: Global,
    guest: LoneGuest,
    asked: &Asked,
    out: &mut O,
) -> Result<(), LogEnd>
    requires source { IsBootableSource guest.source }
    requires few { guest.steps ≤ 2 ^ 52 }
    requires early { asked.now.from ≤ most_steps }
    ensures log { HasLogged O.Sink asked.now.kinds (machine_of_source guest.source) asked.now.from
        (steps_between asked.now.from asked.now.to guest.steps) (is_ok result) out.old out.new }
    ensures cause { IsErrOf result LogEnd.WriteFault → Rose (O.faults out.old) (O.faults out.new) }
    ensures count { O.faults out.old ≤ O.faults out.new }
{
    let LoneGuest { source, steps } = guest;
    let steps = steps_between(asked.from, asked.to, steps);
    if steps == 0 {
        return Ok(());
    }
    log_of(alloc, source, &asked.kinds, asked.from, steps, out)
}
