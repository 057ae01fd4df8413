// The hart: one step of it, and runs of steps.

ghost use Rattle.std.specs.Prelude.{◌≡◌, ◌+◌, ◌^◌, ◌<◌, ◌≤◌, Some, false};
ghost use Rattle.std.specs.Borrow.{sem};
ghost use Rattle.arch_defs.specs.Registers.{virtual_at};
ghost use Rattle.translation_buffer.specs.Serving.{ServesHart};
ghost use Rattle.rv64_hart.specs.Counts.{CountsSteps};
ghost use Rattle.rv64_hart.specs.Loans.{LendsState};
ghost use Rattle.rv64_hart.specs.PlainSteps.{plain_steps};
ghost use Rattle.rv64_hart.specs.Steps.{hart_steps, progress, is_vs_trap, IsWhy};

use crate::endings::StepEnd;
use crate::hart_refs::HartRef;
use crate::plain_steps::plain_steps;
use crate::steps::round;
use crate::tallies::Tally;
use arch_defs::{HartState, Mode, Tag, Trap, Virtual};
use phys_mem::PhysMem;
use translation_buffer::Buffer;

/// Why the hart stopped.
#[derive(Clone, Copy, PartialEq, Eq)]
pub enum Why {
    /// It has made as many steps as it was to make.
    Limit,
    /// Its next step would trap to its HS, and was not made.
    Exit(Trap),
    /// It was to watch, and its last step entered VS by a trap.
    VsTrap,
}

/// How many steps a run made, and why it stopped.
#[derive(Clone, Copy, PartialEq, Eq)]
pub struct Stop {
    pub taken: u64,
    pub why: Why,
}

/// The hart. Its second stage walks its table in machine memory as it is: what it keeps of walks is dropped
/// where a store may change it. Its first stage is by the guest's cached translations, and else by walks.
#[derive(Drop)]
pub struct Hart {
    state: HartState,
    buffer: Buffer,
}

impl Hart {
    /// A hart in VS, all registers zero, with no first-stage translation cached.
    pub fn new() -> Hart
        ensures { result.state ≡ record { virt = virtual_at Mode.VS 0; tag = Tag.Flat } }
    {
        let virt = Virtual::starting_at(Mode::VS, 0);
        let buffer = Buffer::new(&virt.csrs, virt.mode);
        let tag = Tag::Flat;
        let state = HartState { virt, tag };
        Hart { state, buffer }
    }

    /// What the hart has, lent.
    pub fn state(&self) -> &HartState
        ensures { result.now ≡ self.now.state }
    {
        &self.state
    }

    /// What the hart has, lent to be changed.
    pub fn state_mut(&mut self) -> &mut HartState
        ensures* writes_back { sem 𝓛 (LendsState self.entry result) }
        ensures value { result.now ≡ self.old.state }
    {
        &mut self.state
    }

    /// How often the place of an access was looked for among the kept translations and was not there; it
    /// stays at 2^64-1.
    pub fn walks(&self) -> u64
        ensures { result ≡ self.now.buffer.walks }
    {
        self.buffer.walks()
    }

    /// Makes steps over machine memory until `limit` are made, the next would trap to HS, or, while
    /// watched, one entered VS by a trap. Raises the tally by one entry and by the steps made.
    #[inline(always)]
    pub fn run(&mut self, memory: &mut PhysMem, limit: u64, watch: bool, tally: &mut Tally) -> Stop
        requires entries { tally.old.entries < 2 ^ 62 }
        requires taken { tally.old.taken + limit ≤ 2 ^ 62 }

        // The given number of steps of the hart and no others.
        ensures steps { hart_steps watch result.taken
            (progress self.old.state memory.old tally.old.trace false)
            ≡ Some (progress self.new.state memory.new tally.new.trace (is_vs_trap result.why)) }
        ensures why { IsWhy limit result.taken self.new.state memory.new result.why }
        ensures within { result.taken ≤ limit }

        ensures entries { tally.new.entries ≡ tally.old.entries + 1 }
        ensures taken { tally.new.taken ≡ tally.old.taken + result.taken }
    {
        tally.enter();
        self.buffer
            .restart(&self.state.virt.csrs, self.state.virt.mode);
        steps(
            &mut self.state,
            memory,
            &mut self.buffer,
            limit,
            watch,
            tally,
        )
    }

    /// Makes plain instructions alone over machine memory, at most `limit`, and answers how many. It may stop
    /// early: before a trap, before an instruction of opcode SYSTEM, or before one whose fetch finds a
    /// first-stage translation, which it would cache. Raises the tally by one entry and by the steps made.
    pub fn run_plain(&mut self, memory: &mut PhysMem, limit: u64, tally: &mut Tally) -> u64
        requires entries { tally.old.entries < 2 ^ 62 }
        requires taken { tally.old.taken + limit ≤ 2 ^ 62 }
        ensures steps { plain_steps result (progress self.old.state memory.old tally.old.trace false)
            ≡ Some (progress self.new.state memory.new tally.new.trace false) }
        ensures within { result ≤ limit }
        ensures entries { tally.new.entries ≡ tally.old.entries + 1 }
        ensures taken { tally.new.taken ≡ tally.old.taken + result }
    {
        tally.enter();
        self.buffer
            .restart(&self.state.virt.csrs, self.state.virt.mode);
        let taken = plain_steps(&mut self.state, memory, &mut self.buffer, limit, tally);
        tally.take(taken);
        taken
    }
}

// The steps of a run, which the tally gets.
#[inline(never)]
#[tactic(auto, using(crate::proofs::Runs::steps_none))]
fn steps(
    state: &mut HartState,
    memory: &mut PhysMem,
    buffer: &mut Buffer,
    limit: u64,
    watch: bool,
    tally: &mut Tally,
) -> Stop
    requires serves { ServesHart buffer.old state.old memory.old }
    requires taken { tally.old.taken + limit ≤ 2 ^ 62 }
    ensures steps { hart_steps watch result.taken
        (progress state.old memory.old tally.old.trace false)
        ≡ Some (progress state.new memory.new tally.new.trace (is_vs_trap result.why)) }
    ensures why { IsWhy limit result.taken state.new memory.new result.why }
    ensures within { result.taken ≤ limit }
    ensures counts { CountsSteps result.taken tally.old tally.new }
{
    let mut trap = Trap::of_interrupt(0);
    let mut quiet = false;
    let mut taken = 0;
    while taken < limit {
        let most = limit - taken;
        let round = {
            let mut hart = HartRef {
                state: &mut *state,
                memory: &mut *memory,
                buffer: &mut *buffer,
                tally: &mut *tally,
                trap: &mut trap,
            };
            round(&mut hart, most, watch, &mut quiet)
        };
        taken += round.made;
        match round.end {
            StepEnd::Continues => {}
            StepEnd::Ends => {
                tally.take(taken);
                return Stop {
                    taken,
                    why: Why::VsTrap,
                };
            }
            StepEnd::Left => {
                tally.take(taken);
                return Stop {
                    taken,
                    why: Why::Exit(trap),
                };
            }
        }
    }
    tally.take(limit);
    Stop {
        taken: limit,
        why: Why::Limit,
    }
}
