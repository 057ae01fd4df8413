// A turn of one guest.

ghost use Rattle.std.specs.Prelude.{◌≡◌, ◌+◌, ◌^◌, ◌≤◌};
ghost use Rattle.guest_exit.specs.HartEntry.{HasRoomForEntry};
ghost use Rattle.guest_exit.specs.View.{machine_of};
ghost use Rattle.guest_turns.specs.Account.{Accounted, AccountedTo, HasRoomForTurn};
ghost use Rattle.guest_turns.specs.Hosting.{Advances, CanAdvance, CountsLeft, CountsTurn, HasRun, IsHosted, used_by};

use guest_exit::{Guest, Handled, enter, handle, interrupt, limit};
use machine_defs::Status;
use phys_mem::PhysMem;
use rv64_hart::{Hart, Tally, Why};

/// Makes at most `k` steps of a guest, and answers how many.
#[inline(never)]
#[tactic(auto, using(crate::proofs::Turns::turns))]
pub fn turn_of(
    guest: &mut Guest,
    hart: &mut Hart,
    memory: &mut PhysMem,
    k: u64,
    tally: &mut Tally,
) -> u64
    requires hosted { IsHosted guest.old memory.old }
    requires steps { guest.old.steps + k ≤ 2 ^ 61 }
    requires room { HasRoomForTurn (machine_of guest.old memory.old) k tally.old }

    ensures run { HasRun guest.old memory.old k guest.new memory.new }
    ensures counts { CountsTurn guest.old k guest.new result }
    ensures account { Accounted (machine_of guest.old memory.old) k result tally.old tally.new }
{
    let before = guest.steps;
    let mut left = k;
    while left > 0 {
        if guest.status != Status::Running {
            return guest.steps - before;
        }
        left = advance(guest, hart, memory, left, tally);
    }
    guest.steps - before
}

// Makes some of the steps that are left of a guest that goes on, in one entry of the hart where it can make
// them, or fills a cached translation that the next step lacks. Answers how many steps are left then.
fn advance(
    guest: &mut Guest,
    hart: &mut Hart,
    memory: &mut PhysMem,
    left: u64,
    tally: &mut Tally,
) -> u64
    requires can { CanAdvance guest.old memory.old left }
    requires room { HasRoomForEntry left tally.old }

    ensures advances { Advances guest.old memory.old left guest.new memory.new result }
    ensures hosted { IsHosted guest.new memory.new }
    ensures counts { CountsLeft guest.old left guest.new result }
    ensures account { AccountedTo (machine_of guest.old memory.old) left (machine_of guest.new memory.new)
        result tally.old tally.new }
{
    if interrupt(guest) {
        return left - 1;
    }
    let stop = enter(guest, hart, memory, limit(guest, left), tally);
    match stop.why {
        Why::Limit => left - stop.taken,
        Why::VsTrap => left - stop.taken,
        Why::Exit(trap) => {
            let made = handle(guest, memory, trap);
            left - stop.taken - used(made)
        }
    }
}

// How many of the steps that are left the host has used up: none where it filled a cached translation, and
// one also where the step waits for good, which is not made.
fn used(made: Handled) -> u64
    ensures { result ≡ used_by made }
{
    match made {
        Handled::Retry => 0,
        Handled::Stepped | Handled::Trapped { .. } | Handled::Waits | Handled::Stopped => 1,
    }
}
