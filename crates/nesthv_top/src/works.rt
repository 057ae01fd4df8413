// Guests that a seed and a size give: their run, and a line for each.

ghost use Rattle.std.specs.Prelude.{◌≡◌, ◌++◌, ◌<◌, ◌≤◌, is_ok, length, IfOk, IsErrOf, OnErr, OnOk};
ghost use Rattle.std.specs.List.{sum};
ghost use Rattle.command_line.specs.Seen.{IsWork};
ghost use Rattle.outside.specs.Faults.{Rose};
ghost use Rattle.outside.specs.Pieces.{Puts};
ghost use Rattle.turn_plan.specs.Turns.{rounds_of};
ghost use Rattle.work_images.specs.Guests.{guest_name};
ghost use Rattle.nesthv_top.specs.Plans.{work_plan, AllRunAsWritten};
ghost use Rattle.nesthv_top.specs.Runnings.{lines_of, CountsTurns, HasRoomForCommand, HasWorked, IsAccountOf};
ghost use Rattle.nesthv_top.specs.Works.{sum_line, work_heading, work_text};
ghost use Rattle.nesthv_top.specs.Written.{Writes};
ghost use Rattle.outside.specs.Texts.{PutsText};

use crate::ends::{RunEnd, RunPlan};
use crate::running::hosted;
use arrayvec::ArrayVec;
use cache_laws::{runs_are_architectural, runs_are_fresh};
use fill_laws::{fills_suffice, machines_stay_orderly};
use guest_save::saved_machines_go_on;
use guest_turns::{Host, Moves, fresh_sources};
use itoa::Buffer;
use machine_defs::Status;
use no_memory::NoMemory;
use outside::{Sink, SinkFault};
use report::header;
use rv64_hart::Tally;
use std::alloc::Global;
use turn_plan::Turns;
use work_images::{guests, image_length};

// How many guests a seed and a size give.
const GUESTS: u64 = 4;

// The steps of a turn.
const QUANTUM: u64 = 1_000;

/// Runs the guests of a seed and a size, and puts the line of each.
pub fn work<O: Sink>(
    alloc: Global,
    seed: u64,
    size: u64,
    out: &mut O,
    tally: &mut Tally,
) -> Result<(), RunEnd>
    requires asked { IsWork seed size }
    requires room { HasRoomForCommand tally.old }

    ensures out { Writes O.Sink result out.old out.new (work_text seed size) }
    ensures account { IsAccountOf (work_plan seed size) result tally.old tally.new }
    ensures machines { AllRunAsWritten (work_plan seed size) }
{
    let host = generated(alloc, seed, size, tally)?;
    Ok(put_work(seed, size, &host, out)?)
}

// The guests of a seed and a size, after their turns.
fn generated(alloc: Global, seed: u64, size: u64, tally: &mut Tally) -> Result<Host, NoMemory>
    requires asked { IsWork seed size }
    requires room { HasRoomForCommand tally.old }

    ensures ran { IfOk result (λ host. HasWorked seed size host.machines) }
    ensures account { OnOk result (CountsTurns (work_plan seed size) tally.old tally.new) }
    ensures idle { OnErr result (tally.new ≡ tally.old) }
    ensures written { AllRunAsWritten (work_plan seed size) }
{
    image_length();
    fills_suffice();
    runs_are_architectural();
    runs_are_fresh();
    machines_stay_orderly();
    saved_machines_go_on();
    let guests = guests(alloc, seed, size)?;
    let turns = rounds(alloc, size)?;
    let sources = fresh_sources(alloc, guests)?;
    let plan = RunPlan {
        sources,
        turns: turns.as_slice(),
        spare: 0,
    };
    let host = hosted(alloc, plan, None, tally, &mut Moves::new())?;
    Ok(host)
}

// As many rounds as each guest has commands.
fn rounds(alloc: Global, size: u64) -> Result<Turns, NoMemory>
    requires { size ≤ 10000 }
    ensures { IfOk result (λ turns. turns ≡ rounds_of 4 1000 size) }
{
    Turns::of_rounds(alloc, GUESTS, QUANTUM, size)
}

// Puts the seed and the size, and the line of each guest.
#[tactic(auto, using(outside::proofs::Pieces::pieces))]
fn put_work<O: Sink>(seed: u64, size: u64, host: &Host, out: &mut O) -> Result<(), SinkFault>
    requires count { length host.now.machines ≡ 4 }
    ensures { PutsText O.Sink result out.old out.new
        (work_heading seed size ++ lines_of host.now.machines) }
{
    out.put(heading(seed, size).as_slice())?;
    put_lines(host, out)
}

// Puts the line of each guest, in order.
fn put_lines<O: Sink>(host: &Host, out: &mut O) -> Result<(), SinkFault>
    requires count { length host.now.machines ≡ 4 }
    ensures { PutsText O.Sink result out.old out.new (lines_of host.now.machines) }
{
    for i in 0..GUESTS {
        let g = i as u32;
        let line = sum_line(i, host.status(g), host.steps(g), host.console(g));
        out.put(line.as_slice())?;
    }
    Ok(())
}

// The first line. At most 47 bytes: two numbers of 20 digits, and 7 bytes beside them.
#[tactic(auto, unfolding(crate::specs::Works::work_heading))]
fn heading(seed: u64, size: u64) -> ArrayVec<u8, 64>
    ensures { result.items ≡ work_heading seed size }
{
    let mut digits = Buffer::new();
    let mut line = ArrayVec::new();
    line.try_extend_from_slice(b"work ").unwrap();
    line.try_extend_from_slice(digits.format(seed).as_bytes())
        .unwrap();
    line.try_extend_from_slice(b" ").unwrap();
    line.try_extend_from_slice(digits.format(size).as_bytes())
        .unwrap();
    line.try_extend_from_slice(b"\n").unwrap();
    line
}

// The line of the guest of this number. At most 145 bytes: a header of 100, a number of 39 digits, and 6
// bytes beside them.
#[tactic(auto, unfolding(crate::specs::Works::sum_line))]
fn sum_line(guest: u64, status: Status, steps: u64, console: &[u8]) -> ArrayVec<u8, 256>
    requires { guest < 10 }
    ensures { result.items ≡ sum_line (guest_name guest) status steps console.now }
{
    let name = [b'g', b'0' + guest as u8];
    let bytes = console.len() as u64;
    let mut digits = Buffer::new();
    let mut line = ArrayVec::new();
    line.try_extend_from_slice(header(&name, status, steps, bytes).as_slice())
        .unwrap();
    line.try_extend_from_slice(b" sum ").unwrap();
    line.try_extend_from_slice(digits.format(sum_of(console)).as_bytes())
        .unwrap();
    line.try_extend_from_slice(b"\n").unwrap();
    line
}

// The sum of bytes, however many.
fn sum_of(bytes: &[u8]) -> u128
    ensures { result ≡ sum bytes.now }
{
    bytes.iter().map(|byte| *byte as u128).sum()
}
