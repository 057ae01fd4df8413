// A guest between the host and the hart: an entry, an interrupt and an exit.

ghost use Rattle.std.specs.Prelude.{◌≡◌, ◌+◌, ◌^◌, ◌<◌, ◌≤◌, IfOk, IfSome};
ghost use Rattle.arch_defs.specs.Clocks.{times_at_start};
ghost use Rattle.arch_defs.specs.Memory.{ram_base};
ghost use Rattle.arch_defs.specs.Registers.{virtual_at};
ghost use Rattle.arch_defs.specs.declared.modes.Mode.TheVariants as mode;
ghost use Rattle.guest_settings.specs.declared.statuses.Status.TheVariants.{Running};
ghost use Rattle.machine_defs.specs.Machine.{with_pending_lines};
ghost use Rattle.guest_exit.specs.Starting.{IsNewPool};
ghost use Rattle.guest_exit.specs.View.{IsPlaced, platform_of};

use arch_defs::{Level, Mode, Part, Virtual};
use guest_exit::{Console, Guest, Handled, Pool, enter, handle, interrupt, limit};
use guest_settings::Status;
use host_tables::build;
use no_memory::NoMemory;
use phys_mem::PhysMem;
use rv64_hart::{Hart, Stop, Tally, Why};
use std::alloc::Global;
use virtual_timer::Clock;

// A guest at the start of its RAM, which is block 1 of machine memory.
fn guest(alloc: Global) -> Result<Guest, NoMemory>
    ensures { IfOk result (λ g. (g.status ≡ Running) × (g.clock ≡ times_at_start) × (g.steps ≡ 0)
        × (g.virt ≡ virtual_at mode.HS ram_base) × IsNewPool g.part g.pool) }
{
    let part = Part::new(&[1], 0, 8, 1, 16);
    Ok(Guest {
        part,
        virt: Virtual::starting_at(Mode::HS, 0x8000_0000),
        pool: Pool::new(alloc, &part, 1, 16)?,
        clock: Clock::new(),
        console: Console::new(alloc, 1, Vec::new(alloc))?,
        status: Status::Running,
        steps: 0,
        device: false,
    })
}

// Machine memory with the guest's host table, and RAM of zeros.
fn placed(alloc: Global, guest: &Guest) -> Result<Option<PhysMem>, NoMemory>
    requires pool { IsNewPool guest.now.part guest.now.pool }
    requires virt { guest.now.virt ≡ virtual_at mode.HS ram_base }
    ensures { IfOk result (λ found. IfSome found (λ memory. IsPlaced guest.now memory)) }
{
    let mut memory = PhysMem::new(alloc, 1024)?;
    let size = memory.size();
    if !guest.part.lies_in(size) {
        return Ok(None);
    }
    build(&mut memory, &guest.part, guest.part.blocks().len() as u64);
    guest.part.names_each_once();
    Ok(Some(memory))
}

// What became of one try of the guest's next step.
#[derive(Clone, Copy, PartialEq, Eq)]
enum Outcome {
    Interrupted,
    // Steps of the hart, after the last of which it goes on, or has entered VS.
    Entered(u64),
    Trapped(u64),
    Left(Handled),
}

fn tried(guest: &mut Guest, hart: &mut Hart, memory: &mut PhysMem, tally: &mut Tally) -> Outcome
    requires running { guest.old.status ≡ Running }
    requires current { with_pending_lines (platform_of guest.old) ≡ platform_of guest.old }
    requires clock { guest.old.clock.time ≤ 2 ^ 62 + guest.old.steps }
    requires steps { guest.old.steps < 2 ^ 60 }
    requires placed { IsPlaced guest.old memory.old }
    requires entries { tally.old.entries < 2 ^ 60 }
    requires taken { tally.old.taken < 2 ^ 60 }
    ensures clock { guest.new.clock.time ≤ 2 ^ 62 + guest.new.steps }
    ensures steps { guest.new.steps ≤ guest.old.steps + 100 }
    ensures placed { IsPlaced guest.new memory.new }
    ensures entries { tally.new.entries ≤ tally.old.entries + 1 }
    ensures taken { tally.new.taken ≤ tally.old.taken + 100 }
{
    let taken: bool = interrupt(guest);
    if taken {
        return Outcome::Interrupted;
    }
    let most: u64 = limit(guest, 100);
    let stop: Stop = enter(guest, hart, memory, most, tally);
    match stop.why {
        Why::Limit => Outcome::Entered(stop.taken),
        Why::VsTrap => Outcome::Trapped(stop.taken),
        Why::Exit(trap) => {
            let handled: Handled = handle(guest, memory, trap);
            Outcome::Left(handled)
        }
    }
}

// The guest's first two tries.
fn first_two(guest: &mut Guest, memory: &mut PhysMem) -> Option<(Outcome, Outcome)>
    requires running { guest.old.status ≡ Running }
    requires clock { guest.old.clock ≡ times_at_start }
    requires steps { guest.old.steps ≡ 0 }
    requires placed { IsPlaced guest.old memory.old }
{
    let mut hart = Hart::new();
    let mut tally = Tally::new();
    guest.set_pending_lines();
    let first = tried(guest, &mut hart, memory, &mut tally);
    if guest.status != Status::Running {
        return None;
    }
    guest.set_pending_lines();
    Some((first, tried(guest, &mut hart, memory, &mut tally)))
}

// The word 0 is illegal, and its trap goes to address 0, where no fetch finds RAM.
#[test]
fn a_guest_without_an_image(rt: HostRuntime) {
    let mut guest = guest(rt.alloc()).expect(&rt, "memory");
    let made = placed(rt.alloc(), &guest).expect(&rt, "memory");
    let mut memory = made.expect(&rt, "frames for the guest");
    let two = first_two(&mut guest, &mut memory);
    assert!(rt; two == Some((Outcome::Trapped(1), Outcome::Left(TRAPPED_INTO_HS))));
}

// What the host answers at an exception into HS.
const TRAPPED_INTO_HS: Handled = Handled::Trapped {
    level: Level::HS,
    interrupt: false,
};

// A guest, taken apart: its steps, and whether it has a device page and goes on.
fn parts_of(guest: Guest) -> (u64, bool, Status) {
    let Guest {
        part,
        virt,
        pool,
        clock,
        console,
        status,
        steps,
        device,
    } = guest;
    let _part: Part = part;
    let _virt: Virtual = virt;
    let _pool: Pool = pool;
    let _clock: Clock = clock;
    let _console: Console = console;
    (steps, device, status)
}

#[test]
fn what_the_host_keeps_of_a_guest(rt: HostRuntime) {
    let guest = guest(rt.alloc()).expect(&rt, "memory");
    assert!(rt; parts_of(guest) == (0, false, Status::Running));
}

// An exit's answer by a number.
fn number_of(handled: Handled) -> u8 {
    match handled {
        Handled::Stepped => 0,
        Handled::Trapped {
            level: _level,
            interrupt: _interrupt,
        } => 1,
        Handled::Retry => 2,
        Handled::Waits => 3,
        Handled::Stopped => 4,
    }
}

#[test]
fn answers_at_an_exit(rt: HostRuntime) {
    assert!(rt; number_of(Handled::Stopped) == 4);
}
