// How a step is read that the hart has left to the host.

ghost use Rattle.std.specs.Prelude.{◌≡◌, ◌-◌, ◌^◌, ◌<◌, IfSome, true};
ghost use Rattle.arch_defs.specs.Traps.{is_virtual};
ghost use Rattle.arch_defs.specs.Walk.{guest_bits};
ghost use Rattle.arch_defs.specs.WalkedEntries.{folds};
ghost use Rattle.instruction_laws.specs.MissedPlaces.{access_of, told_place};
ghost use Rattle.rv64_asm.specs.Fitting.{fits};
ghost use Rattle.hosted_steps.specs.ExitCases.{Own, access_fault_for, decided_at, decided_in, far_exit, if_decided, is_guest_page_code};
ghost use Rattle.guest_exit.specs.HartExit.{IsDecidedOp};
ghost use Rattle.guest_exit.specs.LeftSteps.{IsLeftSo, missing_step, other_step};

use crate::guests::folds;
use arch_defs::{
    Access, INSTRUCTION_ACCESS_FAULT, INSTRUCTION_GUEST_PAGE_FAULT, LOAD_ACCESS_FAULT,
    LOAD_GUEST_PAGE_FAULT, Mode, STORE_ACCESS_FAULT, STORE_GUEST_PAGE_FAULT, Trap,
    VIRTUAL_INSTRUCTION, Virtual,
};
use hcsr_emulation::is_decided;
use op_defs::Op;
use rv64_decode::decode;
use two_stage_walk::MissingPlace;

/// Guest physical addresses have at most 50 bits, of which a trap does not tell the low two (Privileged
/// Architecture 20211203, 8.2.8 and 8.5.1).
pub const PAST_ADDRESSES: u64 = 0x1_0000_0000_0000;

/// Which step the hart has left.
#[derive(Clone, Copy, PartialEq, Eq)]
pub enum Left {
    /// An access to which the second stage gives no place.
    Missing,
    /// An access at an address that no table translates and RAM does not have.
    Far,
    /// A virtual-instruction exception.
    Instruction,
    /// A call of the execution environment.
    Call,
    /// A trap that the guest takes itself, since it does not delegate it.
    Own,
}

/// Which step the hart has left by this trap.
pub fn left_step(virt: &Virtual, trap: &Trap) -> Left
    ensures { IsLeftSo result virt.now trap.now }
{
    if is_guest_page_code(trap.cause) {
        return missing_step(trap);
    }
    if trap.cause == VIRTUAL_INSTRUCTION {
        return Left::Instruction;
    }
    other_step(virt)
}

// One that is left by a guest-page fault.
fn missing_step(trap: &Trap) -> Left
    ensures { result ≡ missing_step trap.now.tval2 }
{
    if trap.tval2 < PAST_ADDRESSES {
        Left::Missing
    } else {
        Left::Far
    }
}

// One that is left by another trap: the guest's HS calls the environment, or the guest does not delegate it.
fn other_step(virt: &Virtual) -> Left
    ensures { result ≡ other_step (is_virtual virt.now.mode) }
{
    if virt.mode.is_virtual() {
        Left::Own
    } else {
        Left::Call
    }
}

/// The fault of an access that is so far: the guest's own, or that of an address that RAM does not have.
pub fn far_fault(virt: &Virtual, trap: &Trap) -> Trap
    ensures { Own result ≡ far_exit virt.now trap.now (folds virt.now) }
{
    if folds(virt) {
        *trap
    } else {
        Trap::of_exception(virt.mode, access_fault_for(trap.cause), trap.tval)
    }
}

/// The instruction whose word a virtual-instruction exception tells, if the mode decides on it.
pub fn decided_at(tval: u64) -> Option<Op>
    ensures op { result ≡ decided_at tval }
    ensures decided { IfSome result IsDecidedOp }
{
    if tval < 0x1_0000_0000 {
        decided_in(tval as u32)
    } else {
        None
    }
}

// The instruction that a word is, if the mode decides on it.
fn decided_in(word: u32) -> Option<Op>
    ensures op { result ≡ decided_in word }
    ensures decided { IfSome result IsDecidedOp }
{
    match decode(word) {
        Some(op) => if_decided(op),
        None => None,
    }
}

// An instruction, if the mode decides on it.
fn if_decided(op: Op) -> Option<Op>
    requires fits { fits op ≡ true }
    ensures op { result ≡ if_decided op }
    ensures decided { IfSome result IsDecidedOp }
{
    if is_decided(&op) { Some(op) } else { None }
}

// Whether a trap's code is that of a guest-page fault.
fn is_guest_page_code(code: u64) -> bool
    ensures { result ≡ is_guest_page_code code }
{
    code == INSTRUCTION_GUEST_PAGE_FAULT
        || code == LOAD_GUEST_PAGE_FAULT
        || code == STORE_GUEST_PAGE_FAULT
}

// The access fault for a guest-page fault of the host table.
fn access_fault_for(code: u64) -> u64
    ensures { result ≡ access_fault_for code }
{
    match code {
        INSTRUCTION_GUEST_PAGE_FAULT => INSTRUCTION_ACCESS_FAULT,
        LOAD_GUEST_PAGE_FAULT => LOAD_ACCESS_FAULT,
        _ => STORE_ACCESS_FAULT,
    }
}

/// What the hart's trap tells of the access. tval2 has no low two bits of the guest physical address
/// (Privileged Architecture 20211203, 8.2.8), so its offset in the page is tval's; an entry is at a multiple
/// of 8.
pub fn told_place(mode: Mode, trap: &Trap) -> MissingPlace
    requires small { trap.now.tval2 < 2 ^ (guest_bits - 2) }
    ensures { result ≡ told_place mode trap.now }
{
    let access = access_of(trap.cause);
    let address = trap.tval2 * 4;
    MissingPlace {
        address: if trap.implicit {
            address
        } else {
            address / 4096 * 4096 + trap.tval % 4096
        },
        kind: if trap.implicit {
            Access::Implicit
        } else {
            access
        },
        access,
        va: trap.tval,
        mode,
    }
}

fn access_of(code: u64) -> Access
    ensures { result ≡ access_of code }
{
    match code {
        INSTRUCTION_GUEST_PAGE_FAULT => Access::Fetch,
        LOAD_GUEST_PAGE_FAULT => Access::Load,
        _ => Access::Store,
    }
}
