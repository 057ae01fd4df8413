// The guest that is debugged.

ghost use Rattle.std.specs.Prelude.{◌≤◌, ◌^◌, []};
ghost use Rattle.gdb_stub.specs.Talks.{at_begin, early_end, HasCauses, HasTalked};
ghost use Rattle.guest_turns.specs.Sources.{IsBootableSource};
ghost use Rattle.gdb_top.specs.Debugging.{recording_by};

use debug_runs::HostRun;
use gdb_stub::{Session, Talk, TalkEnd};
use guest_commands::LoneGuest;
use outside::Connection;
use std::alloc::Global;

/// Talks with gdb about a guest.
#[tactic(auto, using(gdb_stub::proofs::Talking::stopped))]
pub fn talk_about<C: Connection>(
    alloc: Global,
    guest: LoneGuest,
    description: &[u8],
    connection: &mut C,
) -> Result<(), TalkEnd>
    requires source { IsBootableSource guest.source }
    requires few { guest.steps ≤ 2 ^ 52 }
    ensures talked { HasTalked C.Connection (recording_by guest description.now) at_begin []
        (early_end result) connection.old connection.new }
    ensures causes { HasCauses C.Connection result connection.old connection.new }
{
    let LoneGuest { source, steps } = guest;
    let Ok(run) = HostRun::new(alloc, source) else {
        return Err(TalkEnd::NoMemory);
    };
    let Ok(session) = Session::new(alloc, run, steps, description) else {
        return Err(TalkEnd::NoMemory);
    };
    Talk::new(alloc, session).serve(alloc, connection)
}
