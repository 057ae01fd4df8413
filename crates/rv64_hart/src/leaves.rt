// The first-stage translations that a step of the hart finds.

ghost use Rattle.std.specs.Prelude.{◌≡◌, ℕ, [], option_map, IfSome, List};
ghost use Rattle.arch_defs.specs.declared.first.Tag.{Tag};
ghost use Rattle.arch_defs.specs.declared.modes.Mode.{Mode};
ghost use Rattle.arch_defs.specs.declared.registers.Csrs.{Csrs};
ghost use Rattle.arch_defs.specs.FirstEntries.{HasGuestFrame, all_filled};
ghost use Rattle.machine_defs.specs.FirstLeaves.{entries_of};
ghost use Rattle.translation_buffer.specs.Serving.{Serves};
ghost use Rattle.rv64_hart.specs.Leaves.{AreNone, LeavesFit, leaves_list};
ghost use Rattle.rv64_hart.specs.MachineMemory.{found_by_wanted, found_on, wanted_next};
ghost use Rattle.rv64_hart.specs.Steps.{found_at_exit};

use crate::accesses::{memory_access_of, word_at};
use crate::walked_accesses::{MemoryAccess, reach};
use crate::wanted_accesses::{wanted_at, wanted_of};
use arch_defs::{Access, FirstBuffer, FirstEntry, HartState, Trap, Width};
use data_access::DataAccess;
use phys_mem::PhysMem;
use translation_buffer::Buffer;
use trap_delegation::pending;

/// The first-stage translations that a step finds: that of its access at pc, and that of its access to data.
#[derive(Clone, Copy, PartialEq, Eq)]
pub struct Leaves {
    pub at_pc: Option<FirstEntry>,
    pub of_data: Option<FirstEntry>,
}

// Caches a translation, if there is one.
#[inline]
#[tactic(auto, unfolding(arch_defs::specs::FirstEntries::all_filled))]
fn fill(first: &mut FirstBuffer, found: Option<&FirstEntry>)
    requires { IfSome found (λ e. HasGuestFrame e.now) }
    ensures { first.new ≡ all_filled first.old (entries_of (option_map (λ e. e.now) found.entry)) }
{
    match found {
        Some(entry) => {
            let _ = first.fill(*entry);
        }
        None => {}
    }
}

impl Leaves {
    /// None.
    #[inline]
    pub fn none() -> Leaves
        ensures none { AreNone result }
        ensures value { leaves_list result ≡ [] }
        ensures fits { LeavesFit result }
    {
        Leaves {
            at_pc: None,
            of_data: None,
        }
    }

    /// Caches them.
    #[inline(always)]
    #[tactic(auto, using(crate::proofs::FirstFound::filled_both))]
    pub fn fill(&self, first: &mut FirstBuffer)
        requires { LeavesFit self.now }
        ensures { first.new ≡ all_filled first.old (leaves_list self.now) }
    {
        fill(first, self.at_pc.as_ref());
        fill(first, self.of_data.as_ref());
    }
}

/// Caches a first-stage translation that has been found, if one has, and drops what was kept for the pages
/// of which it changes what is known.
#[tactic(auto, unfolding(arch_defs::specs::FirstEntries::all_filled))]
pub fn cache(first: &mut FirstBuffer, buffer: &mut Buffer, found: Option<&FirstEntry>)
    requires { IfSome found (λ e. HasGuestFrame e.now) }
    ensures filled { first.new ≡ all_filled first.old (entries_of (option_map (λ e. e.now) found.entry)) }
    ensures serves { (owner : Tag) (csrs : Csrs) (mode : Mode) (memory : List ℕ)
        → Serves buffer.old first.old owner csrs mode memory
        → Serves buffer.new first.new owner csrs mode memory }
{
    match found {
        Some(entry) => buffer.fill(first, *entry),
        None => {}
    }
}

// Puts into `entry` what an access to data finds, if one is wanted.
fn find_wanted(
    state: &HartState,
    memory: &PhysMem,
    wanted: &Option<DataAccess>,
    entry: &mut Option<FirstEntry>,
)
    requires none { entry.old ≡ None }
    ensures value { entries_of entry.new ≡ found_by_wanted state.now memory.now wanted.now }
    ensures fits { IfSome entry.new HasGuestFrame }
{
    match *wanted {
        Some(wanted) => {
            let access = memory_access_of(&wanted);
            let mut trap = Trap::of_interrupt(0);
            let _ = reach(state, memory, access, &mut trap, entry);
        }
        None => {}
    }
}

// What one instruction wants of data. What it finds is put into `found`.
#[tactic(auto, using(crate::proofs::Places::wanted_found, crate::proofs::Places::wanted_none))]
fn next_instruction(state: &HartState, memory: &PhysMem, found: &mut Leaves) -> Option<DataAccess>
    requires none { AreNone found.old }
    ensures found { leaves_list found.new ≡ found_on state.now memory.now }
    ensures fits { LeavesFit found.new }
    ensures wanted { result ≡ wanted_next state.now memory.now }
{
    let pc = state.virt.regs.pc;
    let access = MemoryAccess {
        va: pc,
        width: Width::Word,
        kind: Access::Fetch,
    };
    let mut trap = Trap::of_interrupt(0);
    match reach(state, memory, access, &mut trap, &mut found.at_pc) {
        Some(place) => {
            let wanted = wanted_of(&state.virt, word_at(memory, place));
            find_wanted(state, memory, &wanted, &mut found.of_data);
            wanted
        }
        None => None,
    }
}

/// What the hart's next step wants of data in this state, as `wanted_at` tells it. The first-stage
/// translations that it finds are put into `found`: none where an interrupt is due. A step that the hart
/// makes has cached them; one that it leaves has not.
#[tactic(auto, unfolding(crate::specs::Steps::found_at_exit))]
pub fn next_at_exit(state: &HartState, memory: &PhysMem, found: &mut Leaves) -> Option<DataAccess>
    requires none { AreNone found.old }
    ensures found { leaves_list found.new ≡ found_at_exit state.now memory.now }
    ensures fits { LeavesFit found.new }
    ensures wanted { result ≡ wanted_next state.now memory.now }
{
    match pending(&state.virt.csrs, state.virt.mode) {
        Some(_) => wanted_at(state, memory),
        None => next_instruction(state, memory, found),
    }
}

/// What the hart's next step finds, alone.
#[tactic(auto, unfolding(crate::specs::Steps::found_at_exit))]
pub fn found_at_exit(state: &HartState, memory: &PhysMem) -> Leaves
    ensures value { leaves_list result ≡ found_at_exit state.now memory.now }
    ensures fits { LeavesFit result }
{
    let mut found = Leaves::none();
    match pending(&state.virt.csrs, state.virt.mode) {
        Some(_) => found,
        None => {
            let _ = next_instruction(state, memory, &mut found);
            found
        }
    }
}
