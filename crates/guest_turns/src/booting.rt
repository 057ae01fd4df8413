// Guests in machine memory, as they go on from their sources.

ghost use Rattle.std.specs.Prelude.{◌≡◌, ◌≤◌, length, All, IfOk};
ghost use Rattle.arch_defs.specs.Frames.{LieIn, Only};
ghost use Rattle.arch_defs.specs.Layouts.{Meets, named_by};
ghost use Rattle.arch_defs.specs.Memory.{zeros};
ghost use Rattle.frame_split.specs.Shares.{IsSharedOut};
ghost use Rattle.guest_save.specs.Needs.{machine_need};
ghost use Rattle.shadow_space.specs.Shadows.{AreZeros};
ghost use Rattle.guest_turns.specs.Hosting.{AreLaidOut, AreMade, HaveParts, IsAtStart, IsBesideRam, space_tables};
ghost use Rattle.guest_turns.specs.Limits.{HasRoomForParts};
ghost use Rattle.machine_defs.specs.Bootable.{IsBootable};
ghost use Rattle.guest_turns.specs.Sources.{IsBootableSource, machine_of_source, need_of_source, needs_of_sources};

use crate::remaking::remake;
use crate::sources::Source;
use arch_defs::{FirstBuffer, Mode, Need, Part, Virtual};
use console_dev::Console;
use frame_split::{PlanFault, Split, plan};
use guest_exit::{Guest, Pool};
use guest_loader::load_over_zeros;
use guest_save::{Saved, Snapshot};
use host_tables::build;
use machine_defs::{GuestSpec, Status};
use no_memory::NoMemory;
use phys_mem::{PhysMem, RAM_BASE};
use std::alloc::Global;
use virtual_timer::Clock;

/// The parts of guests, and that many spare blocks.
pub fn share(alloc: Global, sources: &[Source], spare: u64) -> Result<Split, NoMemory>
    requires few { length sources.now ≤ 16 }
    requires each { All IsBootableSource sources.now }
    requires room { HasRoomForParts (needs_of_sources sources.now) spare }
    ensures shared { IfOk result (IsSharedOut (needs_of_sources sources.now) spare) }
{
    let needs = needs(alloc, sources)?;
    match plan(alloc, needs.as_slice(), spare) {
        Ok(split) => Ok(split),
        Err(PlanFault::NoMemory) => Err(NoMemory),
        Err(PlanFault::TooMuch(_)) => unreachable!(),
    }
}

// What the guests need.
fn needs(alloc: Global, sources: &[Source]) -> Result<Vec<Need>, NoMemory>
    ensures { IfOk result (λ needs. needs.items ≡ needs_of_sources sources.now) }
{
    let mut needs = Vec::with_capacity(alloc, sources.len())?;
    for source in sources {
        needs.push(source.need())?;
    }
    Ok(needs)
}

/// Loads the guests' RAM into their parts, and writes their host tables.
pub fn lay_out(memory: &mut PhysMem, sources: &[Source], parts: &[Part])
    requires each { All IsBootableSource sources.now }
    requires parts { HaveParts sources.now parts.now (length memory.old) }
    requires zeros { memory.old ≡ zeros (length memory.old) }
    ensures laid { AreLaidOut sources.now parts.now (length sources.now) 0 memory.new }
    ensures size { length memory.new ≡ length memory.old }
{
    for i in 0..sources.len() {
        let source = &sources[i];
        let part = &parts[i];
        load_over_zeros(memory, part, source.image());
        build(memory, part, source.need().blocks);
    }
}

/// The guests, in their parts.
pub fn guests_from(
    alloc: Global,
    sources: Vec<Source>,
    parts: &[Part],
    memory: &mut PhysMem,
) -> Result<Vec<Guest>, NoMemory>
    requires each { All IsBootableSource sources.items }
    requires parts { HaveParts sources.items parts.now (length memory.old) }
    requires laid { AreLaidOut sources.items parts.now (length sources.items) 0 memory.old }
    ensures made { IfOk result (λ guests. AreMade sources.items parts.now guests.items memory.new) }
    ensures laid { IfOk result (λ guests.
        AreLaidOut sources.items parts.now (length sources.items) (length sources.items) memory.new) }
    ensures size { IfOk result (λ guests. length memory.new ≡ length memory.old) }
{
    let mut guests = Vec::with_capacity(alloc, sources.len())?;
    let mut i = 0;
    for source in sources {
        let part = parts[i];
        guests.push(guest_from(alloc, source, part, memory)?)?;
        i += 1;
    }
    Ok(guests)
}

// A guest in its part.
fn guest_from(
    alloc: Global,
    source: Source,
    part: Part,
    memory: &mut PhysMem,
) -> Result<Guest, NoMemory>
    requires bootable { IsBootableSource source }
    requires meets { Meets (need_of_source source) part }
    requires lies { LieIn (named_by part) (length memory.old) }
    requires zeros { AreZeros (space_tables part) memory.old }
    ensures made { IfOk result (λ guest. IsBesideRam (machine_of_source source) part guest memory.new) }
    ensures only { IfOk result (λ guest. Only (space_tables part) memory.old memory.new) }
{
    match source {
        Source::Fresh(spec) => guest_at_start(alloc, spec, part),
        Source::Kept(_, saved) => guest_resumed(alloc, &saved, part, memory),
    }
}

// A guest at its start.
#[tactic(auto, unfolding(machine_defs::specs::Machine::start))]
fn guest_at_start(alloc: Global, spec: GuestSpec, part: Part) -> Result<Guest, NoMemory>
    requires bootable { IsBootable spec }
    requires spaces { part.spaces ≡ spec.spaces }
    requires entries { part.entries ≡ spec.entries }
    ensures { IfOk result (λ guest. IsAtStart spec part guest) }
{
    let console = Console::new(alloc, spec.console, spec.inputs.into_vec())?;
    let pool = Pool::new(alloc, &part, spec.spaces, spec.entries)?;
    let mut guest = Guest {
        part,
        virt: Virtual::starting_at(Mode::HS, RAM_BASE),
        pool,
        clock: Clock::new(),
        console,
        steps: 0,
        status: Status::Running,
        device: spec.device,
    };
    guest.set_pending_lines();
    Ok(guest)
}

// A guest as its machine was saved.
#[tactic(auto, using(crate::proofs::Starting::tidy_new, crate::proofs::Starting::pool_frames_are))]
fn guest_resumed(
    alloc: Global,
    saved: &Saved,
    part: Part,
    memory: &mut PhysMem,
) -> Result<Guest, NoMemory>
    requires meets { Meets (machine_need saved.now.machine) part }
    requires lies { LieIn (named_by part) (length memory.old) }
    requires zeros { AreZeros (space_tables part) memory.old }
    ensures made { IfOk result (λ guest. IsBesideRam saved.now.machine part guest memory.new) }
    ensures only { IfOk result (λ guest. Only (space_tables part) memory.old memory.new) }
{
    saved.can_be_saved();
    let header = saved.header();
    let console = console_resumed(alloc, saved, header.console)?;
    let mut pool = Pool::new(alloc, &part, header.spaces, header.entries)?;
    remake(&mut pool, memory, saved);
    let mut virt = header.state;
    virt.first = first_resumed(saved);
    Ok(Guest {
        part,
        virt,
        pool,
        clock: Clock::at(header.time, header.timer),
        console,
        steps: header.steps,
        status: header.status,
        device: header.device,
    })
}

// The first-stage translations of a saved machine, filled in order.
fn first_resumed(saved: &Saved) -> FirstBuffer
    ensures { result ≡ saved.now.machine.platform.virt.first }
{
    saved.can_be_saved();
    let mut first = FirstBuffer::new();
    let entries = saved.first();
    for i in 0..entries.len() {
        first.fill(entries[i]);
    }
    first
}

// The console of a saved machine, with room for that many bytes.
fn console_resumed(alloc: Global, saved: &Saved, room: u64) -> Result<Console, NoMemory>
    requires { room ≡ saved.now.machine.platform.console.room }
    ensures { IfOk result (λ console. console ≡ saved.now.machine.platform.console) }
{
    saved.can_be_saved();
    let unread = saved.inputs();
    let mut inputs = Vec::with_capacity(alloc, unread.len())?;
    inputs.extend_from_slice(unread)?;
    Console::resume(alloc, room, saved.console(), inputs)
}
