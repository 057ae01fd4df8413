// A run of plain steps of one guest.

ghost use Rattle.std.specs.Prelude.{◌≡◌};
ghost use Rattle.guest_exit.specs.View.{machine_of};
ghost use Rattle.guest_turns.specs.Hosting.{HasRun, IsHosted};
ghost use Rattle.guest_turns.specs.PlainRuns.{CountsPlainRun, HasRoomForPlainRun, IsPlainRun};

use guest_exit::{Guest, enter_plain, host_takes, limit};
use machine_defs::Status;
use phys_mem::PhysMem;
use rv64_hart::{Hart, Tally};

/// Makes plain steps of a guest alone, at most `k`, and answers how many. It makes none where the guest does
/// not go on or the host has to take an interrupt.
#[inline(never)]
pub fn plain_run_of(
    guest: &mut Guest,
    hart: &mut Hart,
    memory: &mut PhysMem,
    k: u64,
    tally: &mut Tally,
) -> u64
    requires hosted { IsHosted guest.old memory.old }
    requires room { HasRoomForPlainRun (machine_of guest.old memory.old) k tally.old }

    ensures run { HasRun guest.old memory.old result guest.new memory.new }
    ensures plain { IsPlainRun (machine_of guest.old memory.old) k result }
    ensures account { CountsPlainRun (machine_of guest.old memory.old) result tally.old tally.new }
{
    if k == 0 || guest.status != Status::Running || host_takes(guest) {
        return 0;
    }
    let most = limit(guest, k);
    enter_plain(guest, hart, memory, most, tally)
}
