// What the host makes of a step that the hart has left to it.

ghost use Rattle.std.specs.Prelude.{◌≡◌, ◌≢◌, ◌-◌, ◌^◌, ◌<◌, [], ◌∷◌};
ghost use Rattle.arch_defs.specs.Traps.{target};
ghost use Rattle.arch_defs.specs.Walk.{guest_bits};
ghost use Rattle.instruction_laws.specs.MissedPlaces.{told_place};
ghost use Rattle.machine_defs.specs.declared.events.Event.TheVariants.{System};
ghost use Rattle.machine_defs.specs.Machine.{called, stepped_to, trapped};
ghost use Rattle.machine_defs.specs.Tries.{try};
ghost use Rattle.hosted_steps.specs.ExitCases.{Call, Missing, Own, decided_at, exit_of, instruction_exit};
ghost use Rattle.guest_exit.specs.HartExit.{HasExited, IsHandled, IsLeftToHost, IsMadeFor, IsTold, KeepsPart, TellsNext, TellsTry, events_told};
ghost use Rattle.guest_exit.specs.Steps.{CanStep, Makes};
ghost use Rattle.guest_exit.specs.View.{KeepsSpaces, machine_of};

use crate::exit_cases::{Left, decided_at, far_fault, left_step, told_place};
use crate::found_leaves::find_next;
use crate::guests::Guest;
use crate::miss::miss;
use crate::system::emulate;
use crate::traps::take;
use arch_defs::{Level, Trap};
use machine_defs::Status;
use phys_mem::PhysMem;
use rv64_hart::Leaves;
use see_calls::CallEnd;

/// What became of a step that the hart left to the host.
#[derive(Clone, Copy, PartialEq, Eq)]
pub enum Handled {
    /// It was made, and was no trap.
    Stepped,
    /// It was made, a trap into this level, of an interrupt or of an exception.
    Trapped { level: Level, interrupt: bool },
    /// It was not made: a cached translation was missing, and has been filled.
    Retry,
    /// It is a WFI that waits for good, and was not made.
    Waits,
    /// It was made, and the guest has stopped.
    Stopped,
}

/// Makes the step before which the hart has stopped for this trap, or fills the cached translation that it
/// lacks, after which the hart may go on. Where the step waits for good, the status says so, and nothing else
/// changes.
pub fn handle(guest: &mut Guest, memory: &mut PhysMem, trap: Trap) -> Handled
    requires exited { HasExited guest.old memory.old trap }
    ensures does { IsHandled result (machine_of guest.old memory.old) (machine_of guest.new memory.new) }
    ensures answers { TellsNext result (exit_of guest.old.virt trap) (machine_of guest.old memory.old) }
    ensures tried { TellsTry result (try (machine_of guest.old memory.old)) }
    ensures told { IsTold result guest.old guest.new }
    ensures keeps { KeepsPart guest.old memory.old guest.new memory.new }
{
    make(guest, memory, &trap)
}

// Makes the step that the hart has left by this trap, or fills what it lacks.
#[inline(always)]
fn make(guest: &mut Guest, memory: &mut PhysMem, trap: &Trap) -> Handled
    requires left { IsLeftToHost guest.old memory.old }
    ensures { IsMadeFor (exit_of guest.old.virt trap.now) result
        guest.old memory.old guest.new memory.new }
{
    match left_step(&guest.virt, trap) {
        Left::Missing => missing(guest, memory, trap),
        Left::Far => {
            let fault = far_fault(&guest.virt, trap);
            own(guest, memory, &fault)
        }
        Left::Instruction => instruction(guest, memory, trap),
        Left::Call => call(guest, memory),
        Left::Own => own(guest, memory, trap),
    }
}

// A guest-page fault, by which the second stage gives an access no place.
#[inline(never)]
fn missing(guest: &mut Guest, memory: &mut PhysMem, trap: &Trap) -> Handled
    requires left { IsLeftToHost guest.old memory.old }
    requires small { trap.now.tval2 < 2 ^ (guest_bits - 2) }
    ensures { IsMadeFor (Missing (told_place guest.old.virt.mode trap.now)) result
        guest.old memory.old guest.new memory.new }
{
    let access = told_place(guest.virt.mode, trap);
    miss(guest, memory, &access)
}

// A virtual-instruction exception, whose tval is the word of the instruction. Where the mode does not decide
// on that, the guest takes the trap itself.
#[inline(never)]
fn instruction(guest: &mut Guest, memory: &mut PhysMem, trap: &Trap) -> Handled
    requires left { IsLeftToHost guest.old memory.old }
    ensures { IsMadeFor (instruction_exit trap.now (decided_at trap.now.tval)) result
        guest.old memory.old guest.new memory.new }
{
    match decided_at(trap.tval) {
        Some(op) => emulate(guest, memory, &op),
        None => own(guest, memory, trap),
    }
}

// A trap that the guest takes itself, since it does not delegate it.
#[inline(never)]
fn own(guest: &mut Guest, memory: &PhysMem, trap: &Trap) -> Handled
    requires left { IsLeftToHost guest.old memory.now }
    ensures { IsMadeFor (Own trap.now) result guest.old memory.now guest.new memory.now }
{
    let mut found = Leaves::none();
    find_next(guest, memory, &mut found);
    found.fill(&mut guest.virt.first);
    raise(guest, trap)
}

// A call of the execution environment.
#[inline(never)]
fn call(guest: &mut Guest, memory: &PhysMem) -> Handled
    requires left { IsLeftToHost guest.old memory.now }
    ensures { IsMadeFor Call result guest.old memory.now guest.new memory.now }
{
    let mut found = Leaves::none();
    find_next(guest, memory, &mut found);
    found.fill(&mut guest.virt.first);
    answer_call(guest)
}

/// The guest takes a trap.
pub(crate) fn raise(guest: &mut Guest, trap: &Trap) -> Handled
    requires can { CanStep guest.old }
    ensures step { Makes guest.old guest.new (λ m. trapped m trap.now) }
    ensures told { IsTold result guest.old guest.new }
    ensures went { result ≡ Handled.Trapped (target guest.old.virt.csrs guest.old.virt.mode trap.now)
        trap.now.interrupt }
    ensures keeps { KeepsSpaces guest.old guest.new }
{
    let level = take(&mut guest.virt, trap);
    guest.tick();
    Handled::Trapped {
        level,
        interrupt: trap.interrupt,
    }
}

// The guest calls the execution environment, and stops if it asks for that.
fn answer_call(guest: &mut Guest) -> Handled
    requires can { CanStep guest.old }
    ensures step { Makes guest.old guest.new (λ m. stepped_to m (called m.platform) System) }
    ensures told { IsTold result guest.old guest.new }
    ensures event { events_told result ≡ System ∷ [] }
    ensures went { result ≢ Handled.Retry }
    ensures keeps { KeepsSpaces guest.old guest.new }
{
    let end = see_calls::call(&mut guest.virt.regs, &mut guest.clock, &mut guest.console);
    match end {
        CallEnd::Go => {
            guest.tick();
            Handled::Stepped
        }
        CallEnd::Stop => {
            guest.status = Status::Stopped;
            guest.tick();
            Handled::Stopped
        }
    }
}
