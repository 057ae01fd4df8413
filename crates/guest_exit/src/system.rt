// Instructions on which the mode decides, made in the guest's own mode.

ghost use Rattle.std.specs.Prelude.{◌≡◌, ◌≢◌, ◌&&◌, false, length, not, true};
ghost use Rattle.arch_defs.specs.FirstEntries.{names_first};
ghost use Rattle.arch_defs.specs.Frames.{LieIn, Only, in_blocks};
ghost use Rattle.arch_defs.specs.Memory.{ram_memory};
ghost use Rattle.arch_defs.specs.Ram.{ram_of};
ghost use Rattle.arch_defs.specs.WalkedEntries.{folds};
ghost use Rattle.machine_defs.specs.declared.events.Event.TheVariants.{System};
ghost use Rattle.machine_defs.specs.Machine.{stepped_to};
ghost use Rattle.machine_defs.specs.Tries.{first_fenced};
ghost use Rattle.rv64_asm.specs.Fitting.{fits};
ghost use Rattle.hcsr_emulation.specs.Ends.{IfAccessRaised, IsCsrOrSret};
ghost use Rattle.hlv_hsv.specs.Ends.{IsAccessed, IsHlvOp, hlv_state};
ghost use Rattle.hosted_steps.specs.ExitCases.{Instruction};
ghost use Rattle.guest_exit.specs.HartExit.{CanFinish, HoldsTables, IsDecidedOp, IsFenced, IsFinished, IsLeftToHost, IsMadeFor, IsTold, IsWaitOrFence, KeepsOutside};
ghost use Rattle.guest_exit.specs.Steps.{CanStep, Makes};
ghost use Rattle.guest_exit.specs.View.{KeepsSpaces};

use crate::found_leaves::find_next;
use crate::guests::{Guest, folds};
use crate::hart_exit::{Handled, raise};
use crate::wfi::wait;
use arch_defs::{Fence, Key, Part, Tag, Virtual};
use console_dev::Console;
use hcsr_emulation::{Accessed, Emulated};
use op_defs::Op;
use phys_mem::{PhysMem, Ram};
use rv64_hart::Leaves;
use world_switch::tag_of;

/// Makes an instruction on which the mode decides, where it is allowed: an instruction on a register; an
/// SRET, which may enter a guest of the guest; an HLV, HLVX or HSV, which makes its access to the guest's
/// RAM; a WFI, which waits; or a fence, which drops cached translations. Where the mode does not allow it,
/// its exception is taken. What it finds of the first stage is cached before that, unless it waits for good.
pub fn emulate(guest: &mut Guest, memory: &mut PhysMem, op: &Op) -> Handled
    requires left { IsLeftToHost guest.old memory.old }
    requires op { IsDecidedOp op.now }
    ensures made { IsMadeFor (Instruction op.now) result
        guest.old memory.old guest.new memory.new }
    ensures went { result ≢ Handled.Retry }
    ensures runs { result ≢ Handled.Stopped }
{
    match *op {
        Op::Csr { .. } | Op::Sret => access_registers(guest, memory, op),
        Op::GuestLoad { .. } | Op::GuestFetch { .. } | Op::GuestStore { .. } => {
            access_ram(guest, memory, op)
        }
        Op::Wfi | Op::SfenceVma { .. } | Op::HfenceVvma { .. } | Op::HfenceGvma { .. } => {
            wait_or_fence(guest, memory, op)
        }
        _ => unreachable!(),
    }
}

// An instruction on a control and status register, or an SRET.
fn access_registers(guest: &mut Guest, memory: &mut PhysMem, op: &Op) -> Handled
    requires left { IsLeftToHost guest.old memory.old }
    requires kind { IsCsrOrSret op.now }
    requires fits { fits op.now ≡ true }
    ensures made { IsMadeFor (Instruction op.now) result
        guest.old memory.old guest.new memory.new }
    ensures went { result ≢ Handled.Retry }
    ensures runs { result ≢ Handled.Stopped }
{
    let nested = guest.virt.mode.is_virtual();
    let mut found = Leaves::none();
    find_next(guest, memory, &mut found);
    match hcsr_emulation::access(&mut guest.virt, *op) {
        Accessed::Done => {
            found.fill(&mut guest.virt.first);
            finish(guest, memory, nested)
        }
        Accessed::Raise(trap) => {
            found.fill(&mut guest.virt.first);
            raise(guest, &trap)
        }
    }
}

// A WFI or a fence.
fn wait_or_fence(guest: &mut Guest, memory: &mut PhysMem, op: &Op) -> Handled
    requires left { IsLeftToHost guest.old memory.old }
    requires kind { IsWaitOrFence op.now }
    ensures made { IsMadeFor (Instruction op.now) result
        guest.old memory.old guest.new memory.new }
    ensures went { result ≢ Handled.Retry }
    ensures runs { result ≢ Handled.Stopped }
{
    let nested = guest.virt.mode.is_virtual();
    let mut found = Leaves::none();
    find_next(guest, memory, &mut found);
    let own = tag_of(&guest.virt);
    let pc = guest.virt.regs.pc;
    match hcsr_emulation::emulate(&mut guest.virt, *op) {
        Emulated::Done => {
            found.fill(&mut guest.virt.first);
            finish(guest, memory, nested)
        }
        Emulated::Waits => wait(guest, pc, &found),
        Emulated::Fenced(named) => {
            found.fill(&mut guest.virt.first);
            fence(guest, memory, named)
        }
        Emulated::FirstFenced(tag, named) => {
            found.fill(&mut guest.virt.first);
            first_fence(guest, tag.unwrap_or(own), &named)
        }
        Emulated::Raise(trap) => {
            found.fill(&mut guest.virt.first);
            raise(guest, &trap)
        }
        Emulated::Accesses(_) => unreachable!(),
    }
}

// An instruction has left the guest its state, which had this V before.
fn finish(guest: &mut Guest, memory: &mut PhysMem, nested: bool) -> Handled
    requires can { CanFinish guest.old memory.old }
    ensures step { IsFinished nested guest.old memory.old guest.new memory.new }
    ensures went { result ≡ Handled.Stepped }
    ensures within { KeepsOutside guest.old memory.old guest.new memory.new }
    ensures told { IsTold result guest.old guest.new }
{
    if enters(nested, &guest.virt) {
        return enter_space(guest, memory);
    }
    guest.tick();
    Handled::Stepped
}

// Whether an instruction enters a guest of the guest: it sets V, and then the state folds.
fn enters(nested: bool, after: &Virtual) -> bool
    ensures { result ≡ (not nested && folds after.now) }
{
    !nested && folds(after)
}

// An SRET has left the guest its state, which folds: the space of its hgatp comes to the front.
fn enter_space(guest: &mut Guest, memory: &mut PhysMem) -> Handled
    requires can { CanFinish guest.old memory.old }
    requires folds { folds guest.old.virt ≡ true }
    ensures step { IsFinished false guest.old memory.old guest.new memory.new }
    ensures went { result ≡ Handled.Stepped }
    ensures within { KeepsOutside guest.old memory.old guest.new memory.new }
    ensures told { IsTold result guest.old guest.new }
{
    guest.pool.enter(memory, Key::of(guest.virt.csrs.hgatp));
    guest.tick();
    Handled::Stepped
}

// An HFENCE.GVMA has left the guest its state, and drops the cached translations of both stages that it
// names.
fn fence(guest: &mut Guest, memory: &mut PhysMem, named: Fence) -> Handled
    requires can { CanStep guest.old }
    requires holds { HoldsTables guest.old memory.old }
    ensures step { IsFenced named guest.old memory.old guest.new memory.new }
    ensures went { result ≡ Handled.Stepped }
    ensures within { KeepsOutside guest.old memory.old guest.new memory.new }
    ensures told { IsTold result guest.old guest.new }
{
    guest.pool.fence(memory, named);
    guest.virt.first.drop_of_guest(&named);
    guest.tick();
    Handled::Stepped
}

// A fence of the first stage has left the guest its state, and drops the first-stage translations that it
// names, made for these accesses.
fn first_fence(guest: &mut Guest, tag: Tag, named: &Fence) -> Handled
    requires can { CanStep guest.old }
    ensures step { Makes guest.old guest.new
        (λ m. let left = first_fenced (names_first tag named.now) m in
        stepped_to left left.platform System) }
    ensures told { IsTold result guest.old guest.new }
    ensures went { result ≡ Handled.Stepped }
    ensures keeps { KeepsSpaces guest.old guest.new }
{
    guest.virt.first.drop_named(tag, named);
    guest.tick();
    Handled::Stepped
}

// An HLV, HLVX or HSV. Its trap is taken in the mode of the instruction.
fn access_ram(guest: &mut Guest, memory: &mut PhysMem, op: &Op) -> Handled
    requires left { IsLeftToHost guest.old memory.old }
    requires op { IsHlvOp op.now }
    ensures made { IsMadeFor (Instruction op.now) result
        guest.old memory.old guest.new memory.new }
    ensures went { result ≢ Handled.Retry }
    ensures runs { result ≢ Handled.Stopped }
{
    let mut found = Leaves::none();
    find_next(guest, memory, &mut found);
    found.fill(&mut guest.virt.first);
    let (device, console) = (guest.device, &mut guest.console);
    match access_in(memory, &guest.part, &mut guest.virt, *op, device, console) {
        Accessed::Done => {
            guest.tick();
            Handled::Stepped
        }
        Accessed::Raise(trap) => raise(guest, &trap),
    }
}

// The access, in the RAM of a part of machine memory, or on the device page of a guest that has it.
fn access_in(
    memory: &mut PhysMem,
    part: &Part,
    virt: &mut Virtual,
    op: Op,
    device: bool,
    console: &mut Console,
) -> Accessed
    requires lies { LieIn (in_blocks part.now.blocks) (length memory.old) }
    requires op { IsHlvOp op }
    ensures ends { IsAccessed op device
        (hlv_state virt.old (ram_memory (ram_of part.now.blocks memory.old)) console.old) result
        (hlv_state virt.new (ram_memory (ram_of part.now.blocks memory.new)) console.new) }
    ensures stays { IfAccessRaised result
        ((virt.new ≡ virt.old) × (console.new ≡ console.old) × (memory.new ≡ memory.old)) }
    ensures only { Only (in_blocks part.now.blocks) memory.old memory.new }
{
    let mut ram = Ram::new(memory, part);
    hlv_hsv::access(&mut ram, virt, op, device, console)
}
