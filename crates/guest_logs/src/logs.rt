// The log of a guest alone.

ghost use Rattle.std.specs.Prelude.{◌+◌, ◌^◌, ◌≤◌, false, true, IsErrOf, OnErr, OnOk};
ghost use Rattle.guest_turns.specs.Sources.{machine_of_source, IsBootableSource};
ghost use Rattle.log_writer.specs.Logging.{HasLogged};
ghost use Rattle.outside.specs.Faults.{Rose};

use crate::host_tries::HostTries;
use guest_turns::Source;
use log_writer::{Kinds, LogEnd};
use outside::Sink;
use std::alloc::Global;

/// Puts the log of `steps` steps of the guest of a source, alone, from step `from` on.
///
/// # Errors
///
/// A fault of the sink, or want of memory for the host, for the counts or for the steps that have cached what
/// is used: a front of the log has been put then.
#[tactic(auto, using(crate::proofs::Logging::logging))]
pub fn log_of<O: Sink>(
    alloc: Global,
    source: Source,
    kinds: &Kinds,
    from: u64,
    steps: u64,
    out: &mut O,
) -> Result<(), LogEnd>
    requires bootable { IsBootableSource source }
    requires few { from + steps ≤ 2 ^ 54 }
    ensures log { OnOk result (HasLogged O.Sink kinds.now (machine_of_source source) from steps true
        out.old out.new) }
    ensures front { OnErr result (HasLogged O.Sink kinds.now (machine_of_source source) from steps false
        out.old out.new) }
    ensures cause { IsErrOf result LogEnd.WriteFault → Rose (O.faults out.old) (O.faults out.new) }
    ensures count { O.faults out.old ≤ O.faults out.new }
{
    let Ok(mut host) = HostTries::new(alloc, source) else {
        return Err(LogEnd::NoMemory);
    };
    log_writer::log_of(alloc, &mut host, kinds, from, steps, out)
}
