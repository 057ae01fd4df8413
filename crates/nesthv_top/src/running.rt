// From a job to its report, or to the form of one of its guests.

ghost use Rattle.std.specs.Prelude.{◌≡◌, ℕ, ◌+◌, ◌%◌, ◌^◌, ◌≤◌, ◌<◌, false, get_or, is_ok, length, IfOk, IfSome, IsErrOf, OnErr};
ghost use Rattle.std.specs.List.{All};
ghost use Rattle.outside.specs.Faults.{Rose};
ghost use Rattle.outside.specs.Pieces.{Puts};
ghost use Rattle.guest_turns.specs.Hosted.{count_set, is_set, lowest, part_at, IsActive, KeepsShares};
ghost use Rattle.guest_turns.specs.Moves.{HasMoved};
ghost use Rattle.guest_turns.specs.TurnLists.{with_turns};
ghost use Rattle.run_config.specs.Configurations.{IsGuestWithin};
ghost use Rattle.nesthv_top.specs.Plans.{AllRunAsWritten, report_of};
ghost use Rattle.nesthv_top.specs.Moving.{kept_turn, own_turns};
ghost use Rattle.nesthv_top.specs.Performed.{HasSaved};
ghost use Rattle.nesthv_top.specs.Runnings.{sections_of, AreCountsOf, CanMove, CountsTurnsOf, HasRoomForCommand, HasRoomForRun, HaveBlocks, IsReady};
ghost use Rattle.nesthv_top.specs.HostedRuns.{CanRun, HasCounted, HasMadeTurns, HasRunPlan};
ghost use Rattle.nesthv_top.specs.Seen.{as_plan, names_in, plan_seen, IsJob};
ghost use Rattle.nesthv_top.specs.Written.{Writes};
ghost use Rattle.outside.specs.Texts.{PutsText};

use crate::ends::{Job, RunEnd, RunPlan};
use cache_laws::{runs_are_architectural, runs_are_fresh};
use fill_laws::{fills_suffice, machines_stay_orderly};
use guest_save::saved_machines_go_on;
use guest_settings::MOST_GUESTS;
use guest_turns::{Host, MoveFault, Moves};
use no_memory::NoMemory;
use outside::{Sink, SinkFault};
use report::{GuestLine, section};
use run_config::GuestSettings;
use rv64_hart::Tally;
use std::alloc::Global;

/// Runs a job's guests, each for its turns, and puts the report.
pub fn run<O: Sink>(
    alloc: Global,
    job: Job,
    out: &mut O,
    tally: &mut Tally,
    moves: &mut Moves,
) -> Result<(), RunEnd>
    requires job { IsJob job }
    requires room { HasRoomForRun tally.old moves.old }

    ensures out { Writes O.Sink result out.old out.new (report_of (plan_seen job)) }
    ensures counts { AreCountsOf (plan_seen job) result tally.old tally.new moves.old moves.new }
    ensures machines { AllRunAsWritten (plan_seen job) }
{
    let Job {
        config,
        sources,
        ..
    } = job;
    let plan = RunPlan {
        sources,
        turns: config.turns().as_slice(),
        spare: config.spare(),
    };
    let host = hosted(alloc, plan, None, tally, moves)?;
    Ok(put_sections(&host, config.guests(), out)?)
}

/// Runs a job's guests, each for its turns, and puts the form of one of them.
pub fn save<O: Sink>(
    alloc: Global,
    job: Job,
    guest: u32,
    out: &mut O,
    tally: &mut Tally,
    moves: &mut Moves,
) -> Result<(), RunEnd>
    requires job { IsJob job }
    requires guest { guest < length job.sources.items }
    requires room { HasRoomForRun tally.old moves.old }

    ensures saved { HasSaved O.Sink (plan_seen job) guest result out.old out.new }
    ensures counts { AreCountsOf (plan_seen job) result tally.old tally.new moves.old moves.new }
    ensures machines { AllRunAsWritten (plan_seen job) }
{
    let Job {
        config,
        sources,
        ..
    } = job;
    let plan = RunPlan {
        sources,
        turns: config.turns().as_slice(),
        spare: config.spare(),
    };
    let host = hosted(alloc, plan, Some(guest), tally, moves)?;
    host.can_be_saved(guest);
    Ok(host.save(guest, out)?)
}

/// Boots guests beside spare blocks, and makes their turns. Where there are spare blocks, each turn moves a
/// block of its guest, and each guest but the one that is kept retires after the last of its turns.
pub fn hosted(
    alloc: Global,
    plan: RunPlan<'_>,
    kept: Option<u32>,
    tally: &mut Tally,
    moves: &mut Moves,
) -> Result<Host, NoMemory>
    requires plan { CanRun (as_plan plan) kept }
    requires room { HasRoomForRun tally.old moves.old }

    ensures ran { IfOk result (HasRunPlan (as_plan plan.entry) kept) }
    ensures counted { HasCounted (as_plan plan.entry) result tally.old tally.new moves.old moves.new }
    ensures written { AllRunAsWritten (as_plan plan.entry) }
{
    let RunPlan {
        sources,
        turns,
        spare,
    } = plan;
    fills_suffice();
    runs_are_architectural();
    runs_are_fresh();
    machines_stay_orderly();
    saved_machines_go_on();
    let mut host = Host::boot_from(alloc, sources, spare)?;
    host.rooms_are_small();
    if spare == 0 {
        run_turns(&mut host, turns, tally);
    } else {
        run_moving(&mut host, turns, kept, tally, moves);
    }
    Ok(host)
}

// Makes the turns, in order.
fn run_turns(host: &mut Host, turns: &[(u32, u64)], tally: &mut Tally)
    requires ready { IsReady host.old turns.now }
    requires room { HasRoomForCommand tally.old }

    ensures machines { host.new.machines ≡ with_turns turns.now host.old.machines }
    ensures active { (g : ℕ) → is_set host.new.retired g ≡ false }
    ensures shares { KeepsShares host.old host.new }
    ensures account { CountsTurnsOf host.old.machines turns.now tally.old tally.new }
{
    for &(guest, steps) in turns {
        host.turn(guest, steps, tally);
    }
}

// Makes the turns, in order. After each a block of its guest moves, and the guest retires where that was its
// last turn, unless it is kept.
fn run_moving(
    host: &mut Host,
    turns: &[(u32, u64)],
    kept: Option<u32>,
    tally: &mut Tally,
    moves: &mut Moves,
)
    requires ready { IsReady host.old turns.now }
    requires movable { CanMove host.old kept }
    requires room { HasRoomForRun tally.old moves.old }

    ensures made { HasMadeTurns kept turns.now host.old host.new }
    ensures account { CountsTurnsOf host.old.machines turns.now tally.old tally.new }
    ensures moved { moves.new ≡ moves.old + length turns.now }
{
    let mut left = turns_left(turns, kept);
    for t in 0..turns.len() {
        let (guest, steps) = turns[t];
        host.turn(guest, steps, tally);
        move_block(host, guest, t as u64, moves);
        left[guest as usize] -= 1;
        if left[guest as usize] == 0 {
            host.retire(guest);
        }
    }
}

// How many turns each guest has, and one more the guest that is kept.
fn turns_left(turns: &[(u32, u64)], kept: Option<u32>) -> [u32; MOST_GUESTS]
    requires few { length turns.now ≤ 2 ^ 20 }
    requires guests { All (λ turn. turn.0 < 16) turns.now }
    requires kept { IfSome kept (λ g. g < 16) }
    ensures count { length result ≡ 16 }
    ensures turns { (g : ℕ) → g < 16 → get_or result g 0 ≡ own_turns g turns.now + kept_turn kept g }
{
    let mut left = one_kept(kept);
    for &(guest, _) in turns {
        left[guest as usize] += 1;
    }
    left
}

// One turn of the guest that is kept, and none of each other.
fn one_kept(kept: Option<u32>) -> [u32; MOST_GUESTS]
    requires { IfSome kept (λ g. g < 16) }
    ensures count { length result ≡ 16 }
    ensures turns { (g : ℕ) → g < 16 → get_or result g 0 ≡ kept_turn kept g }
{
    let mut left = [0; MOST_GUESTS];
    if let Some(guest) = kept {
        left[guest as usize] = 1;
        return left;
    }
    left
}

// Moves a block of a guest after the turn of this number: the blocks take turns too.
fn move_block(host: &mut Host, guest: u32, turn: u64, moves: &mut Moves)
    requires guest { IsActive host.old guest }
    requires blocks { HaveBlocks host.old }
    requires free { 1 ≤ count_set host.old.free }
    requires room { moves.old < 2 ^ 62 }
    ensures moved { HasMoved host.old guest (turn % length (part_at host.old.parts guest).blocks)
        (lowest host.old.free) host.new }
    ensures counted { moves.new ≡ moves.old + 1 }
{
    let block = turn % host.blocks(guest);
    match host.relocate(guest, block, moves) {
        Ok(()) => {}
        Err(MoveFault::NoSpare) => unreachable!(),
    }
}

// Puts the section of each guest, in order.
fn put_sections<O: Sink>(
    host: &Host,
    guests: &[GuestSettings],
    out: &mut O,
) -> Result<(), SinkFault>
    requires count { length host.now.machines ≡ length guests.now }
    requires few { length guests.now ≤ 16 }
    requires names { All IsGuestWithin guests.now }
    ensures { PutsText O.Sink result out.old out.new
        (sections_of (names_in guests.now) host.now.machines) }
{
    for i in 0..guests.len() {
        let line = GuestLine {
            name: &guests[i].name,
            status: host.status(i as u32),
            steps: host.steps(i as u32),
        };
        section(&line, host.console(i as u32), out)?;
    }
    Ok(())
}
