// The host of the guests.

ghost use Rattle.std.specs.Prelude.{◌≡◌, ◌+◌, ◌^◌, ◌<◌, ◌≤◌, ◌↔◌, true, false, is_ok, length, map, All, IfErr, IfOk, IfSome, IsErr, OnErr};
ghost use Rattle.arch_defs.specs.Frames.{Only};
ghost use Rattle.arch_defs.specs.Layouts.{named_by};
ghost use Rattle.arch_defs.specs.Memory.{ram_memory};
ghost use Rattle.frame_split.specs.Shares.{IsSplit, blocks_of_all, frames_with};
ghost use Rattle.guest_exit.specs.NextSteps.{WantsUnlessDue, access_next, word_next};
ghost use Rattle.guest_save.specs.Forms.{form};
ghost use Rattle.guest_save.specs.Savable.{IsSavable};
ghost use Rattle.hlv_hsv.specs.Places.{hlv_place_in};
ghost use Rattle.hosted_steps.specs.ExitCases.{found_next};
ghost use Rattle.machine_defs.specs.Lookups.{looked_up};
ghost use Rattle.machine_defs.specs.Machine.{start, with_pending_lines};
ghost use Rattle.machine_defs.specs.Runs.{run};
ghost use Rattle.outside.specs.Faults.{Rose};
ghost use Rattle.outside.specs.Pieces.{Puts};
ghost use Rattle.rv64_hart.specs.Leaves.{LeavesFit, leaves_list};
ghost use Rattle.guest_turns.specs.Account.{Accounted, CanMakeTry, CanMakeTurn, CountsTry, IsTurn, KeepsRoom};
ghost use Rattle.guest_turns.specs.Hosted.{count_set, is_set, lowest, machine_at, part_at, BeginsWith, KeepsShares};
ghost use Rattle.guest_turns.specs.Limits.{AreBootable, frames_for, needs_of, HasRoomForParts};
ghost use Rattle.guest_turns.specs.Moves.{HasBlock, HasMoved, HasRetired};
ghost use Rattle.guest_turns.specs.PlainRuns.{CanRunPlain, CountsPlainRun, IsPlainRun};
ghost use Rattle.guest_turns.specs.Saving.{MayBeSaved};
ghost use Rattle.guest_turns.specs.Sources.{AreBootableSources, machines_of_sources, needs_of_sources};
ghost use Rattle.guest_turns.specs.Tries.{HasTried, events_made};
ghost use Rattle.guest_turns.specs.TurnLists.{updated};
ghost use Rattle.two_stage_walk.specs.Places.{IsPlaceOf};

use crate::addresses::{hlv_place_in, place_in};
use crate::booting::{guests_from, lay_out, share};
use crate::free_blocks::FreeBlocks;
use crate::memory_views::MemoryView;
use crate::next_steps::{access_in, found_in, step_in, word_in};
use crate::plain_runs::plain_run_of;
use crate::questions::{Question, answer_in};
use crate::relocation::{MoveFault, Moves, shift};
use crate::retirement::vacate;
use crate::sources::{Source, fresh_sources};
use crate::trying::{Made, try_of};
use crate::turning::turn_of;
use arch_defs::{Access, Virtual};
use guest_exit::{Guest, NextStep};
use guest_save::put;
use guest_settings::MOST_GUESTS;
use machine_defs::{GuestSpec, Status};
use no_memory::NoMemory;
use op_defs::DataAccess;
use outside::{Sink, SinkFault};
use phys_mem::PhysMem;
use rv64_hart::{Hart, Leaves, Tally};
use std::alloc::Global;
use std::marker::Model;

/// Guests on one hart in one machine memory, which contracts see as their lone machines, with the part of
/// memory that each guest has, the bytes of memory, which blocks of it are free, and which guests have
/// retired. All memory of a run is taken by `boot_from`, and by `boot` and `boot_spare`, which call it.
#[derive(Drop)]
pub struct Host {
    hart: Hart,
    memory: PhysMem,
    guests: Vec<Guest>,
    free: FreeBlocks,
    retired: [bool; MOST_GUESTS],
}

impl Model for Host {
    ghost use Rattle.guest_turns.specs.Hosted.{Hosted};

    ghost Value = { Hosted };

    ghost use Rattle.guest_turns.specs.View.{hosted, IsHost};

    ghost view = { hosted };

    ghost invariant = { IsHost };
}

impl Host {
    /// The guests' machines at their start, in order, each in a part of machine memory of the size that it
    /// needs. No frame is in two parts, and no block is free. It may answer out of memory.
    pub fn boot(alloc: Global, guests: Vec<GuestSpec>) -> Result<Host, NoMemory>
        requires bootable { AreBootable guests.items }
        ensures machines { IfOk result (λ host. host.machines ≡ map start guests.items) }
        ensures parts { IfOk result (λ host. IsSplit (needs_of guests.items) host.parts
            (frames_for guests.items)) }
        ensures fresh { IfOk result (λ host. All (λ m. m.platform.steps ≡ 0) host.machines) }
        ensures begins { IfOk result (BeginsWith (blocks_of_all (needs_of guests.items)) 0) }
    {
        Host::boot_spare(alloc, guests, 0)
    }

    /// The same, with that many free blocks behind those of all parts, which lie in no part.
    pub fn boot_spare(alloc: Global, guests: Vec<GuestSpec>, spare: u64) -> Result<Host, NoMemory>
        requires bootable { AreBootable guests.items }
        requires room { HasRoomForParts (needs_of guests.items) spare }
        ensures machines { IfOk result (λ host. host.machines ≡ map start guests.items) }
        ensures parts { IfOk result (λ host. IsSplit (needs_of guests.items) host.parts
            (frames_with (needs_of guests.items) spare)) }
        ensures fresh { IfOk result (λ host. All (λ m. m.platform.steps ≡ 0) host.machines) }
        ensures begins { IfOk result (BeginsWith (blocks_of_all (needs_of guests.items)) spare) }
    {
        Host::boot_from(alloc, fresh_sources(alloc, guests)?, spare)
    }

    /// The machines that the guests go on from, in order, each at its start or as it was saved, in a part of
    /// machine memory of the size that it needs, and that many free blocks behind those of all parts, which
    /// lie in no part. It may answer out of memory.
    pub fn boot_from(alloc: Global, sources: Vec<Source>, spare: u64) -> Result<Host, NoMemory>
        requires bootable { AreBootableSources sources.items }
        requires room { HasRoomForParts (needs_of_sources sources.items) spare }
        ensures machines { IfOk result (λ host. host.machines ≡ machines_of_sources sources.items) }
        ensures parts { IfOk result (λ host. IsSplit (needs_of_sources sources.items) host.parts
            (frames_with (needs_of_sources sources.items) spare)) }
        ensures steps { IfOk result (λ host. All (λ m. m.platform.steps ≤ 2 ^ 60) host.machines) }
        ensures begins { IfOk result (BeginsWith (blocks_of_all (needs_of_sources sources.items)) spare) }
    {
        let split = share(alloc, sources.as_slice(), spare)?;
        let mut memory = PhysMem::new(alloc, split.frames)?;
        lay_out(&mut memory, sources.as_slice(), split.parts.as_slice());
        let guests = guests_from(alloc, sources, split.parts.as_slice(), &mut memory)?;
        Ok(Host {
            hart: Hart::new(),
            memory,
            guests,
            free: FreeBlocks::from(split.blocks, spare),
            retired: [false; MOST_GUESTS],
        })
    }

    /// How many guests there are.
    pub fn count(&self) -> u32
        ensures value { result ≡ length self.now.machines }
        ensures most { result ≤ 16 }
    {
        self.guests.len() as u32
    }

    /// The spaces of each guest's machine have room for at most 256 cached translations.
    pub fn rooms_are_small(&self)
        ensures { All (λ m. m.entry_room ≤ 256) self.now.machines }
    {
        let _ = &self.guests;
    }

    /// What the clock and the inputs set of the registers of a guest that has not retired is as they set it,
    /// which is the premise of `clear_steps_are_calm`.
    pub fn lines_are_set(&self, g: u32)
        requires guest { g < length self.now.machines }
        requires active { is_set self.now.retired g ≡ false }
        ensures { with_pending_lines (machine_at self.now.machines g).platform
            ≡ (machine_at self.now.machines g).platform }
    {
        let _guest = &self.guests[g as usize];
    }

    /// Whether a guest has retired.
    pub fn has_retired(&self, g: u32) -> bool
        requires { g < length self.now.machines }
        ensures { result ≡ is_set self.now.retired g }
    {
        let _ = &self.guests;
        self.retired[g as usize]
    }

    /// How many blocks of memory a guest has.
    pub fn blocks(&self, g: u32) -> u64
        requires { g < length self.now.machines }
        ensures value { result ≡ length (part_at self.now.parts g).blocks }
        ensures most { result ≤ 32 }
    {
        self.guests[g as usize].part.blocks().len() as u64
    }

    /// How many blocks are free.
    pub fn free_blocks(&self) -> u64
        ensures value { result ≡ count_set self.now.free }
        ensures most { result ≤ 256 }
    {
        self.free.count()
    }

    /// Makes at most `k` steps of the machine of a guest that has not retired, and answers how many: `k`, or
    /// fewer only where the machine does not go on, because it has stopped or waits for good. All other
    /// machines stay as they were, and no byte outside the guest's part changes. The tally gets the account
    /// of the hart.
    pub fn turn(&mut self, g: u32, k: u64, tally: &mut Tally) -> u64
        requires can { CanMakeTurn self.old g k tally.old }
        ensures machines { self.new.machines ≡ updated g (λ m. run m k) self.old.machines }
        ensures shares { KeepsShares self.old self.new }
        ensures isolated { Only (named_by (part_at self.old.parts g)) self.old.memory self.new.memory }
        ensures made { IsTurn (machine_at self.old.machines g) k (machine_at self.new.machines g) result }
        ensures account { Accounted (machine_at self.old.machines g) k result tally.old tally.new }
    {
        let guest = &mut self.guests[g as usize];
        turn_of(guest, &mut self.hart, &mut self.memory, k, tally)
    }

    /// Makes plain steps alone, at most `k`, of the machine of a guest that has not retired, and answers how
    /// many. It may make fewer, and none. All other machines stay as they were, and no byte outside the
    /// guest's part changes. The tally gets the account of the hart.
    pub fn run_plain(&mut self, g: u32, k: u64, tally: &mut Tally) -> u64
        requires can { CanRunPlain self.old g k tally.old }
        ensures machines { self.new.machines ≡ updated g (λ m. run m result) self.old.machines }
        ensures shares { KeepsShares self.old self.new }
        ensures isolated { Only (named_by (part_at self.old.parts g)) self.old.memory self.new.memory }
        ensures plain { IsPlainRun (machine_at self.old.machines g) k result }
        ensures account { CountsPlainRun (machine_at self.old.machines g) result tally.old tally.new }
    {
        let guest = &mut self.guests[g as usize];
        plain_run_of(guest, &mut self.hart, &mut self.memory, k, tally)
    }

    /// Makes one try of the next step of the machine of a guest that has not retired and goes on. A try fills
    /// a cached translation that the step lacks, or is the last: it makes the step, and answers what it was,
    /// or the step waits for good. All other machines stay as they were, and no byte outside the guest's part
    /// changes. The tally gets the account of the hart.
    pub fn make_try(&mut self, g: u32, tally: &mut Tally) -> Made
        requires can { CanMakeTry self.old g tally.old }
        ensures machines { HasTried result g self.old.machines self.new.machines }
        ensures shares { KeepsShares self.old self.new }
        ensures isolated { Only (named_by (part_at self.old.parts g)) self.old.memory self.new.memory }
        ensures room { KeepsRoom (machine_at self.old.machines g) (machine_at self.new.machines g) }
        ensures account { CountsTry (machine_at self.old.machines g) (machine_at self.new.machines g)
            (events_made result) tally.old tally.new }
    {
        let guest = &mut self.guests[g as usize];
        try_of(guest, &mut self.hart, &mut self.memory, tally)
    }

    /// The word of the instruction that the next step of the machine of a guest that has not retired makes.
    /// None where an interrupt is due, and where the fetch has no place in RAM. No machine changes.
    pub fn word_next(&mut self, g: u32) -> Option<u32>
        requires guest { g < length self.old.machines }
        requires active { is_set self.old.retired g ≡ false }
        ensures word { result ≡ word_next (machine_at self.old.machines g) }
        ensures stays { self.new ≡ self.old }
    {
        let guest = &self.guests[g as usize];
        word_in(guest, &mut self.hart, &self.memory)
    }

    /// What the next instruction of the machine of a guest that has not retired wants of data, unless an
    /// interrupt is due, and the first-stage translations that the step finds. No machine changes.
    pub fn step_next(&mut self, g: u32) -> NextStep
        requires guest { g < length self.old.machines }
        requires active { is_set self.old.retired g ≡ false }
        ensures wanted { WantsUnlessDue (machine_at self.old.machines g) result.wanted }
        ensures found { leaves_list result.found ≡ found_next (machine_at self.old.machines g) }
        ensures fits { LeavesFit result.found }
        ensures stays { self.new ≡ self.old }
    {
        let guest = &self.guests[g as usize];
        step_in(guest, &mut self.hart, &self.memory)
    }

    /// The first-stage translations that the next step of the machine of a guest that has not retired finds.
    /// No machine changes.
    pub fn found_next(&mut self, g: u32) -> Leaves
        requires guest { g < length self.old.machines }
        requires active { is_set self.old.retired g ≡ false }
        ensures value { leaves_list result ≡ found_next (machine_at self.old.machines g) }
        ensures fits { LeavesFit result }
        ensures stays { self.new ≡ self.old }
    {
        let guest = &self.guests[g as usize];
        found_in(guest, &mut self.hart, &self.memory)
    }

    /// The access to data that the next instruction of the machine of a guest that has not retired makes in
    /// its own mode, and its place in RAM. None where an interrupt is due, and where there is no such access
    /// or place. No machine changes.
    pub fn access_next(&mut self, g: u32) -> Option<(DataAccess, u64)>
        requires guest { g < length self.old.machines }
        requires active { is_set self.old.retired g ≡ false }
        ensures access { result ≡ access_next (machine_at self.old.machines g) }
        ensures stays { self.new ≡ self.old }
    {
        let guest = &self.guests[g as usize];
        access_in(guest, &mut self.hart, &self.memory)
    }

    /// The place in RAM of the access of an HLV, HLVX or HSV of a guest that has not retired, by the walks
    /// that it is made by, if it has one there. Nothing changes.
    pub fn hlv_place(&mut self, g: u32, wanted: &DataAccess) -> Option<u64>
        requires guest { g < length self.old.machines }
        requires active { is_set self.old.retired g ≡ false }
        ensures place { result ≡ hlv_place_in (ram_memory (machine_at self.old.machines g).ram)
            (machine_at self.old.machines g).platform.virt.csrs wanted.now }
        ensures stays { self.new ≡ self.old }
    {
        let guest = &self.guests[g as usize];
        hlv_place_in(&mut self.memory, guest, wanted)
    }

    /// Gives what answers a question about a guest that has not retired. No machine changes.
    pub fn ask<Q: Question>(&mut self, g: u32, question: &Q, answer: &mut Q::Answer)
        requires guest { g < length self.old.machines }
        requires active { is_set self.old.retired g ≡ false }
        ensures answer { Q.answers question.now (machine_at self.old.machines g) answer.new }
        ensures stays { self.new ≡ self.old }
    {
        let guest = &self.guests[g as usize];
        answer_in(&mut self.memory, guest, question, answer);
    }

    /// Appends the form of the machine of a guest that has not retired.
    ///
    /// # Errors
    ///
    /// A fault of the sink, to which a front of the form has been appended then.
    pub fn save<O: Sink>(&self, g: u32, out: &mut O) -> Result<(), SinkFault>
        requires guest { g < length self.now.machines }
        requires active { is_set self.now.retired g ≡ false }
        ensures bytes { Puts O.stands_for out.old out.new (is_ok result)
            (form (machine_at self.now.machines g)) }
        ensures cause { OnErr result (Rose (O.faults out.old) (O.faults out.new)) }
        ensures count { O.faults out.old ≤ O.faults out.new }
        ensures stays { O.made_with out.new ≡ O.made_with out.old }
    {
        let view = MemoryView::of(&self.guests[g as usize], &self.memory);
        view.has_whole_blocks();
        put(&view, out)
    }

    /// The machine of a guest that has not retired, lent to be read.
    pub fn view(&self, g: u32) -> MemoryView<'_>
        requires guest { g < length self.now.machines }
        requires active { is_set self.now.retired g ≡ false }
        ensures { result ≡ machine_at self.now.machines g }
    {
        MemoryView::of(&self.guests[g as usize], &self.memory)
    }

    /// The physical address in RAM of an access to a virtual address by the walk of the present mode of a
    /// guest that has not retired, both stages as its registers and its RAM are, if there is one. Nothing
    /// changes.
    pub fn place(&mut self, g: u32, va: u64, access: Access) -> Option<u64>
        requires guest { g < length self.old.machines }
        requires active { is_set self.old.retired g ≡ false }
        ensures place { result ≡ looked_up (machine_at self.old.machines g) va access }
        ensures inside { IfSome result (λ place.
            IsPlaceOf (ram_memory (machine_at self.old.machines g).ram) va place) }
        ensures stays { self.new ≡ self.old }
    {
        let guest = &self.guests[g as usize];
        place_in(&mut self.memory, guest, va, access)
    }

    /// The machine of a guest that has not retired can be saved, where it has what a host does not keep of
    /// it.
    pub fn can_be_saved(&self, g: u32)
        requires guest { g < length self.now.machines }
        requires active { is_set self.now.retired g ≡ false }
        ensures { MayBeSaved (machine_at self.now.machines g) → IsSavable (machine_at self.now.machines g) }
    {
        MemoryView::of(&self.guests[g as usize], &self.memory).can_be_saved();
    }

    /// Moves a block of a guest that has not retired to the lowest free block of machine memory. All lone
    /// machines are the same, and the old block is free. It answers `NoSpare` exactly where no block is free,
    /// and then changes nothing.
    pub fn relocate(&mut self, g: u32, block: u64, moves: &mut Moves) -> Result<(), MoveFault>
        requires block { HasBlock self.old g block }
        requires room { moves.old < 2 ^ 62 }
        ensures none { IsErr result ↔ (count_set self.old.free ≡ 0) }
        ensures stays { IfErr result (λ fault. (self.new ≡ self.old) × (moves.new ≡ moves.old)) }
        ensures moved { IfOk result (λ done. HasMoved self.old g block (lowest self.old.free) self.new) }
        ensures moves { IfOk result (λ done. moves.new ≡ moves.old + 1) }
    {
        match self.free.lowest() {
            None => Err(MoveFault::NoSpare),
            Some(to) => {
                self.move_to(g, block, to);
                moves.raise();
                Ok(())
            }
        }
    }

    // Moves a block of a guest to a free block.
    fn move_to(&mut self, g: u32, block: u64, to: u32)
        requires block { HasBlock self.old g block }
        requires free { is_set self.old.free to ≡ true }
        ensures { HasMoved self.old g block to self.new }
    {
        self.free.has_each_block();
        let guest = &mut self.guests[g as usize];
        let from = guest.part.blocks()[block as usize];
        shift(guest, &mut self.memory, block as usize, to);
        self.free.exchange(to, from);
    }

    /// Retires a guest: its blocks are zeros and free then, and it has no more turns. What its machine has
    /// done stays to be told.
    pub fn retire(&mut self, g: u32)
        requires guest { g < length self.old.machines }
        requires active { is_set self.old.retired g ≡ false }
        ensures { HasRetired self.old g self.new }
    {
        self.free.has_each_block();
        let guest = &mut self.guests[g as usize];
        vacate(guest, &mut self.memory, &mut self.free);
        self.retired[g as usize] = true;
    }

    /// Whether a guest's machine goes on.
    pub fn status(&self, g: u32) -> Status
        requires { g < length self.now.machines }
        ensures { result ≡ (machine_at self.now.machines g).platform.status }
    {
        self.guests[g as usize].status
    }

    /// How many steps a guest's machine has made.
    pub fn steps(&self, g: u32) -> u64
        requires { g < length self.now.machines }
        ensures { result ≡ (machine_at self.now.machines g).platform.steps }
    {
        self.guests[g as usize].steps
    }

    /// The registers, the mode and the reservation of a guest's machine.
    pub fn state(&self, g: u32) -> &Virtual
        requires { g < length self.now.machines }
        ensures { result.now ≡ (machine_at self.now.machines g).platform.virt }
    {
        &self.guests[g as usize].virt
    }

    /// The bytes on a guest's console.
    pub fn console(&self, g: u32) -> &[u8]
        requires { g < length self.now.machines }
        ensures { result.now ≡ (machine_at self.now.machines g).platform.console.bytes }
    {
        self.guests[g as usize].console.bytes()
    }

    /// The inputs that a guest has not read.
    pub fn inputs(&self, g: u32) -> &[(u64, u8)]
        requires { g < length self.now.machines }
        ensures { result.now ≡ (machine_at self.now.machines g).platform.console.inputs }
    {
        self.guests[g as usize].console.unread()
    }
}
