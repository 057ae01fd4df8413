// One entry of the hart.

ghost use Rattle.std.specs.Prelude.{◌≡◌, ◌+◌, ◌%◌, ◌^◌, ◌<◌, ◌≤◌, ℕ, is_some};
ghost use Rattle.arch_defs.specs.Interrupts.{due};
ghost use Rattle.machine_defs.specs.declared.events.Event.TheVariants.{Plain, System};
ghost use Rattle.machine_defs.specs.Runs.{events, plain_count};
ghost use Rattle.rv64_hart.specs.Steps.{is_vs_trap, progress};
ghost use Rattle.instruction_laws.specs.HostPlaces.{in_ram};
ghost use Rattle.instruction_laws.specs.Renaming.{ReservesWithin};
ghost use Rattle.guest_exit.specs.HartEntry.{CanEnter, HartMakes, HasEntered, HasRoomForEntry, IsEntered, Stops, is_watched, steps_entered};
ghost use Rattle.hosted_steps.specs.HartSteps.{root_frame_for};
ghost use Rattle.guest_exit.specs.View.{loaded_for, machine_of};
ghost use Rattle.arch_defs.specs.Traps.{is_virtual};
ghost use Rattle.world_switch.specs.Hosting.{hosted_level};

use crate::guests::{Guest, folds};
use arch_defs::{HartState, Level, Trap, Virtual};
use machine_defs::Event;
use phys_mem::PhysMem;
use rv64_hart::{Hart, Stop, Tally, Why};
use trap_delegation::pending;
use world_switch::load;

/// Enters the hart, loaded for the guest, for at most `limit` steps, which are steps of its lone machine, and
/// gives the guest what the hart then has for it. After `Exit` the machine's next step is for `handle`.
/// `VsTrap` comes with V = 0 alone, after a trap into HS.
pub fn enter(
    guest: &mut Guest,
    hart: &mut Hart,
    memory: &mut PhysMem,
    limit: u64,
    tally: &mut Tally,
) -> Stop
    requires can { CanEnter guest.old memory.old limit }
    requires room { HasRoomForEntry limit tally.old }

    ensures entered { HasEntered result.taken guest.old memory.old guest.new memory.new
        tally.old tally.new }
    ensures why { Stops guest.old.part guest.old.pool (machine_of guest.old memory.old)
        (machine_of guest.new memory.new) memory.new limit result }
    ensures hart { HartMakes result.taken guest.old guest.new memory.old tally.old.trace
        (progress hart.new.state memory.new tally.new.trace (is_vs_trap result.why)) }
{
    let root = root_frame_of(guest);
    let watch = is_watched(&guest.virt);
    load(&guest.virt, &guest.part, root, hart.state_mut());
    let stop = hart.run(memory, limit, watch, tally);
    guest.take_steps(hart.state(), is_vs_trap(&stop.why), stop.taken);
    stop
}

/// Enters the hart, loaded for the guest, for plain instructions alone, at most `limit`. Answers how many it
/// has made. It may make fewer, and none.
pub fn enter_plain(
    guest: &mut Guest,
    hart: &mut Hart,
    memory: &mut PhysMem,
    limit: u64,
    tally: &mut Tally,
) -> u64
    requires can { CanEnter guest.old memory.old limit }
    requires room { HasRoomForEntry limit tally.old }

    ensures entered { HasEntered result guest.old memory.old guest.new memory.new tally.old tally.new }
    ensures plain { plain_count (events (machine_of guest.old memory.old) result) ≡ result }
    ensures within { result ≤ limit }
{
    let root = root_frame_of(guest);
    load(&guest.virt, &guest.part, root, hart.state_mut());
    let taken = hart.run_plain(memory, limit, tally);
    guest.take_steps(hart.state(), false, taken);
    taken
}

/// What an entry for one step has made of it.
#[derive(Clone, Copy, PartialEq, Eq)]
pub enum Entered {
    /// The hart has made it, and this is what it was.
    Made(Event),
    /// The hart has left it to the host, by this trap.
    Left(Trap),
}

/// Enters the hart for one step, as `enter` does, and answers what the step was. After `Left` the machine's
/// next step is for `handle`.
pub fn enter_once(
    guest: &mut Guest,
    hart: &mut Hart,
    memory: &mut PhysMem,
    tally: &mut Tally,
) -> Entered
    requires can { CanEnter guest.old memory.old 1 }
    requires room { HasRoomForEntry 1 tally.old }

    ensures entered { HasEntered (steps_entered result) guest.old memory.old guest.new memory.new
        tally.old tally.new }
    ensures event { IsEntered guest.old.part guest.old.pool (machine_of guest.old memory.old)
        (machine_of guest.new memory.new) memory.new result }
{
    let pc = guest.virt.regs.pc;
    let level = hosted_level(&guest.virt);
    let interrupt = is_interrupted(&guest.virt);
    let trace = tally.trace();
    let root = root_frame_of(guest);
    load(&guest.virt, &guest.part, root, hart.state_mut());
    let stop = hart.run(memory, 1, true, tally);
    guest.take_steps(hart.state(), is_vs_trap(&stop.why), stop.taken);
    match stop.why {
        Why::Limit => Entered::Made(event_by(pc, tally.trace().wrapping_sub(trace))),
        Why::VsTrap => Entered::Made(Event::Trap { level, interrupt }),
        Why::Exit(trap) => Entered::Left(trap),
    }
}

// What a step at `pc` that was no trap was, by what it has added to the trace: pc and word of a plain one, of
// which the word ends in 11 and pc in 00, and nothing else.
fn event_by(pc: u64, added: u64) -> Event
    ensures system { added ≡ 0 → result ≡ System }
    ensures plain { (word : ℕ) → pc % 4 ≡ 0 → word % 4 ≡ 3 → word < 2 ^ 32
        → added ≡ (pc + word) % 2 ^ 64 → result ≡ Plain pc word }
{
    if added == 0 {
        Event::System
    } else {
        let word = (added.wrapping_sub(pc) % 0x1_0000_0000) as u32;
        Event::Plain { pc, word }
    }
}

// The guest's level into which the hart's traps into VS go.
fn hosted_level(virt: &Virtual) -> Level
    ensures { result ≡ hosted_level (is_virtual virt.now.mode) }
{
    if virt.mode.is_virtual() {
        Level::VS
    } else {
        Level::HS
    }
}

// Whether an interrupt is due.
fn is_interrupted(virt: &Virtual) -> bool
    ensures { result ≡ is_some (due virt.now.csrs virt.now.mode) }
{
    pending(&virt.csrs, virt.mode).is_some()
}

// The frame of the root of the table under which the hart runs for the guest.
fn root_frame_of(guest: &Guest) -> u64
    ensures { result ≡ root_frame_for guest.now.part guest.now.pool guest.now.virt }
{
    if folds(&guest.virt) {
        guest.pool.root()
    } else {
        guest.part.host_root()
    }
}

/// Gives the hart what it has for the guest.
#[tactic(auto, unfolding(hosted_steps::specs::HartSteps::root_for))]
pub(crate) fn load_for(guest: &Guest, hart: &mut HartState)
    requires held { ReservesWithin (in_ram guest.now.part.blocks) guest.now.virt.reservation }
    ensures { hart.new ≡ loaded_for guest.now }
{
    load(&guest.virt, &guest.part, root_frame_of(guest), hart);
}

// Whether the hart is to stop after a trap into VS.
fn is_watched(virt: &Virtual) -> bool
    ensures { result ≡ is_watched virt.now }
{
    !virt.mode.is_virtual()
}

fn is_vs_trap(why: &Why) -> bool
    ensures { result ≡ is_vs_trap why.now }
{
    matches!(why, Why::VsTrap)
}
