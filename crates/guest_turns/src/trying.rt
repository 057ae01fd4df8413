// One try of a guest's next step.

ghost use Rattle.std.specs.Prelude.{◌≡◌};
ghost use Rattle.guest_exit.specs.HartEntry.{HasRoomForEntry};
ghost use Rattle.guest_exit.specs.HartExit.{CanGoOn};
ghost use Rattle.guest_exit.specs.View.{machine_of};
ghost use Rattle.guest_turns.specs.Account.{CountsTry};
ghost use Rattle.guest_turns.specs.Hosting.{StaysHosted};
ghost use Rattle.guest_turns.specs.Tries.{IsTried, events_made, made_by_host};

use arch_defs::Level;
use guest_exit::{Entered, Guest, Handled, enter_once, handle, interrupt};
use machine_defs::Event;
use phys_mem::PhysMem;
use rv64_hart::{Hart, Tally};

/// What one try of a guest's next step has made.
#[derive(Clone, Copy, PartialEq, Eq)]
pub enum Made {
    /// Not the step: a cached translation of the second stage that it lacks, and the step is left.
    Filled,
    /// The step, which was this.
    Stepped(Event),
    /// Nothing: the step is a WFI that waits for good, and the guest's status says so.
    Waits,
}

/// Makes one try of the next step of a guest that goes on.
#[inline(never)]
pub fn try_of(guest: &mut Guest, hart: &mut Hart, memory: &mut PhysMem, tally: &mut Tally) -> Made
    requires can { CanGoOn guest.old memory.old }
    requires room { HasRoomForEntry 1 tally.old }

    ensures tried { IsTried result (machine_of guest.old memory.old) (machine_of guest.new memory.new) }
    ensures stays { StaysHosted guest.old memory.old guest.new memory.new }
    ensures account { CountsTry (machine_of guest.old memory.old) (machine_of guest.new memory.new)
        (events_made result) tally.old tally.new }
{
    if interrupt(guest) {
        return Made::Stepped(Event::Trap {
            level: Level::HS,
            interrupt: true,
        });
    }
    match enter_once(guest, hart, memory, tally) {
        Entered::Made(event) => Made::Stepped(event),
        Entered::Left(trap) => made_of(handle(guest, memory, trap)),
    }
}

// What the host has made of a step that the hart left to it.
fn made_of(handled: Handled) -> Made
    ensures { result ≡ made_by_host handled }
{
    match handled {
        Handled::Retry => Made::Filled,
        Handled::Stepped | Handled::Stopped => Made::Stepped(Event::System),
        Handled::Trapped { level, interrupt } => Made::Stepped(Event::Trap { level, interrupt }),
        Handled::Waits => Made::Waits,
    }
}
