// What the hart has for a guest, and what the guest has after the hart has run.

ghost use Rattle.std.specs.Prelude.{◌≡◌, ◌<◌, ◌≤◌, ◌%◌, ◌==◌, ◌&&◌, length, nat_lt, true, false, IfSome};
ghost use Rattle.std.specs.List.{position};
ghost use Rattle.arch_defs.specs.Registers.{clear_hypervisor_status, clear_interrupts};
ghost use Rattle.arch_defs.specs.Traps.{is_virtual};
ghost use Rattle.machine_defs.specs.FirstLeaves.{tag_of};
ghost use Rattle.instruction_laws.specs.HostPlaces.{in_ram, memory_place};
ghost use Rattle.instruction_laws.specs.Renaming.{ReservesWithin, renamed, reservation_renamed};
ghost use Rattle.world_switch.specs.Hosting.{after_hs_trap, all_interrupts, hosted_csrs, hosted_mode, is_space_root, loaded_in, own_address, own_reservation, root_at, saved_csrs, saved_in, saved_mode, saved_reservation, supervisor_with};

use arch_defs::{
    BLOCK_SIZE, Csrs, FOLDED_MODE, FirstBuffer, GuestRoot, HOST_MODE, HartState, HypervisorStatus,
    Interrupts, Mode, Part, Regs, SupervisorCsrs, SupervisorRoot, SupervisorStatus, Tag, Virtual,
};
use csr_file::hedeleg_bits;
use phys_mem::RAM_BASE;

// The exceptions that go to VS (codes 0 to 8, 12, 13 and 15): each that a guest with V = 0 takes, and each
// that a guest with V = 1 can delegate.
const OWN_EXCEPTIONS: u64 = 0xB1FF;

/// Gives the hart what it has for the guest that has this part: its VS and VU stand for the guest's HS and U
/// with V = 0, and for its VS and VU with V = 1, under the table whose root begins at the frame `root`: by
/// the mode of folded tables where that is the root of one of the part's spaces, else by the host table's.
/// The guest's reservation is at its place in machine memory. The hart gets the guest's first-stage
/// translations, and for whom the guest's accesses are.
pub fn load(virt: &Virtual, part: &Part, root: u64, hart: &mut HartState)
    requires held { ReservesWithin (in_ram part.now.blocks) virt.now.reservation }
    ensures has { hart.new ≡ loaded_in part.now (root_at part.now root) virt.now }
    ensures saves { saved_in part.now hart.new.virt virt.now ≡ virt.now }
{
    part.names_each_once();
    if virt.mode.is_virtual() {
        to_nested(virt, part, root, hart);
    } else {
        to_guest_hs(virt, part, root, hart);
    }
}

/// For whom the accesses of a guest are, by V and hgatp.
pub fn tag_of(virt: &Virtual) -> Tag
    ensures { result ≡ tag_of virt.now }
{
    if virt.mode.is_virtual() {
        Tag::Nested(virt.csrs.hgatp)
    } else {
        Tag::Flat
    }
}

/// Gives the hart what it has for a guest with V = 0: its VS stands for the guest's HS, its VU for the
/// guest's U.
pub fn to_guest_hs(virt: &Virtual, part: &Part, root: u64, hart: &mut HartState)
    requires own { is_virtual virt.now.mode ≡ false }
    requires held { ReservesWithin (in_ram part.now.blocks) virt.now.reservation }
    ensures { hart.new ≡ loaded_in part.now (root_at part.now root) virt.now }
{
    set_csrs_of_hs(&virt.csrs, root_at(part, root), &mut hart.virt.csrs);
    set_others(virt, part, hart);
}

/// Gives the hart what it has for a guest with V = 1: its VS stands for the guest's VS, its VU for the
/// guest's VU.
pub fn to_nested(virt: &Virtual, part: &Part, root: u64, hart: &mut HartState)
    requires nested { is_virtual virt.now.mode ≡ true }
    requires held { ReservesWithin (in_ram part.now.blocks) virt.now.reservation }
    ensures { hart.new ≡ loaded_in part.now (root_at part.now root) virt.now }
{
    set_csrs_of_vs(&virt.csrs, root_at(part, root), &mut hart.virt.csrs);
    set_others(virt, part, hart);
}

// Sets what the hart has for the guest beside its control and status registers.
#[inline(always)]
fn set_others(virt: &Virtual, part: &Part, hart: &mut HartState)
    requires held { ReservesWithin (in_ram part.now.blocks) virt.now.reservation }
    ensures state { hart.new.virt ≡ renamed (memory_place part.now.blocks)
        (record virt.now { csrs = hart.old.virt.csrs; mode = hosted_mode virt.now.mode }) }
    ensures tag { hart.new.tag ≡ tag_of virt.now }
{
    copy_registers(&virt.regs, &mut hart.virt.regs);
    hart.virt.mode = hosted_mode(virt.mode);
    place(part, virt.reservation, &mut hart.virt.reservation);
    copy_translations(&virt.first, &mut hart.virt.first);
    hart.tag = tag_of(virt);
}

// Copies the general registers, and pc: a copy of 256 bytes takes half the instructions of one of 264.
fn copy_registers(from: &Regs, to: &mut Regs)
    ensures { to.new ≡ from.now }
{
    to.x = from.x;
    to.pc = from.pc;
}

// Copies the first-stage translations. A guest that has no table of its own has none.
fn copy_translations(from: &FirstBuffer, to: &mut FirstBuffer)
    ensures { to.new ≡ from.now }
{
    if from.as_slice().is_empty() && to.as_slice().is_empty() {
        return;
    }
    to.copy_from(from);
}

/// Gives the guest that has this part what the hart has for it, by the guest's V. The reservation comes back
/// to the guest's own address: one at a place that the part does not have becomes none. That cannot occur,
/// for the hart reserves only what the guest's host table gives. What the hart does not have for the guest
/// stays.
#[inline(always)]
pub fn save(hart: &HartState, part: &Part, virt: &mut Virtual)
    ensures { virt.new ≡ saved_in part.now hart.now.virt virt.old }
{
    let nested = virt.mode.is_virtual();
    save_csrs(&hart.virt.csrs, nested, &mut virt.csrs);
    copy_registers(&hart.virt.regs, &mut virt.regs);
    virt.mode = saved_mode(nested, hart.virt.mode);
    save_reservation(part, hart.virt.reservation, &mut virt.reservation);
    copy_translations(&hart.virt.first, &mut virt.first);
}

fn save_csrs(hart: &Csrs, nested: bool, csrs: &mut Csrs)
    ensures { csrs.new ≡ saved_csrs nested hart.now csrs.old }
{
    csrs.scounteren_tm = hart.scounteren_tm;
    csrs.senvcfg_fiom = hart.senvcfg_fiom;
    if nested {
        csrs.vs = hart.vs;
        csrs.hie = hart.hie;
        csrs.hvip = hart.hvip;
    } else {
        csrs.hs = hart.vs;
        csrs.sie = hart.hie;
        csrs.sip = hart.hvip;
    }
}

/// Sets what a trap from V = 0 into HS sets beside the registers that the hart has for the guest: GVA, SPV,
/// htval and htinst (Privileged Architecture 20211203, 8.2.1, 8.2.8 and 8.2.9).
pub fn fix_up(virt: &mut Virtual)
    ensures { virt.new ≡ after_hs_trap virt.old }
{
    virt.csrs.hstatus.gva = false;
    virt.csrs.hstatus.spv = false;
    virt.csrs.htval = 0;
    virt.csrs.htinst = 0;
}

// Sets a reservation of the guest that has this part, at its place in machine memory.
fn place(part: &Part, reservation: Option<(u64, u8)>, hart: &mut Option<(u64, u8)>)
    requires { ReservesWithin (in_ram part.now.blocks) reservation }
    ensures { hart.new ≡ reservation_renamed (memory_place part.now.blocks) reservation }
{
    match reservation {
        Some((address, bytes)) => {
            *hart = Some((part.host_place(address - RAM_BASE), bytes));
        }
        None => *hart = None,
    }
}

// Sets the guest's reservation, by the one at a place in machine memory.
fn save_reservation(part: &Part, reservation: Option<(u64, u8)>, guest: &mut Option<(u64, u8)>)
    ensures { guest.new ≡ saved_reservation part.now reservation }
{
    match reservation {
        Some((place, bytes)) => *guest = guest_reservation(part, place, bytes),
        None => *guest = None,
    }
}

// A reservation at a place in machine memory, at the guest's own address, if a block of the part has it.
#[inline(never)]
fn guest_reservation(part: &Part, place: u64, bytes: u8) -> Option<(u64, u8)>
    ensures { result ≡ own_reservation part.now place bytes }
{
    let address = own_address(part.blocks(), place)?;
    Some((address, bytes))
}

/// The guest physical address that these blocks have at a place in machine memory, if one of them has it.
pub fn own_address(blocks: &[u32], place: u64) -> Option<u64>
    requires { length blocks.now ≤ 32 }
    ensures { result ≡ own_address blocks.now place }
{
    let i = index_of(blocks, place / BLOCK_SIZE)?;
    Some(RAM_BASE + i as u64 * BLOCK_SIZE + place % BLOCK_SIZE)
}

// The place of the first block with this number.
fn index_of(blocks: &[u32], number: u64) -> Option<usize>
    ensures value { result ≡ position (λ block. block == number) blocks.now }
    ensures inside { IfSome result (λ i. i < length blocks.now) }
{
    blocks.iter().position(|block| *block as u64 == number)
}

// Whether a frame is the first of the root of one of the part's spaces.
fn is_space_root(part: &Part, frame: u64) -> bool
    ensures { result ≡ is_space_root part.now frame }
{
    let first = part.host_root();
    begins_later_root(first, frame, first + 4 * (1 + part.spaces()))
}

// Whether a root begins at a frame behind that of a first root, before an end.
fn begins_later_root(first: u64, frame: u64, end: u64) -> bool
    ensures { result ≡ (nat_lt first frame && (nat_lt frame end && frame % 4 == 0)) }
{
    first < frame && frame < end && frame % 4 == 0
}

// The table whose root begins at a frame, with VMID 0.
fn root_at(part: &Part, frame: u64) -> GuestRoot
    ensures { result ≡ root_at part.now frame }
{
    let mode = if is_space_root(part, frame) {
        FOLDED_MODE
    } else {
        HOST_MODE
    };
    GuestRoot::Table {
        mode,
        vmid: 0,
        ppn: frame,
    }
}

fn hosted_mode(mode: Mode) -> Mode
    ensures { result ≡ hosted_mode mode }
{
    match mode {
        Mode::HS | Mode::VS => Mode::VS,
        Mode::U | Mode::VU => Mode::VU,
    }
}

fn saved_mode(nested: bool, mode: Mode) -> Mode
    ensures { result ≡ saved_mode nested mode }
{
    match (nested, mode.is_supervisor()) {
        (false, true) => Mode::HS,
        (false, false) => Mode::U,
        (true, true) => Mode::VS,
        (true, false) => Mode::VU,
    }
}

fn all_interrupts() -> Interrupts
    ensures { result ≡ all_interrupts }
{
    Interrupts {
        software: true,
        timer: true,
        external: true,
    }
}

// For a guest with V = 0. The host makes a WFI and an SRET of its HS.
fn set_csrs_of_hs(csrs: &Csrs, root: GuestRoot, hart: &mut Csrs)
    ensures { hart.new ≡ hosted_csrs root false csrs.now }
{
    set_own_csrs(false, root, hart);
    hart.vs = csrs.hs;
    hart.hie = csrs.sie;
    hart.hvip = csrs.sip;
    hart.scounteren_tm = csrs.scounteren_tm;
    hart.senvcfg_fiom = csrs.senvcfg_fiom;
    hart.hstatus.vtsr = true;
    hart.hedeleg = OWN_EXCEPTIONS;
    hart.hideleg = all_interrupts();
}

// For a guest with V = 1, whose VS traps to its HS as the guest asks for. The host makes a WFI of its VS.
fn set_csrs_of_vs(csrs: &Csrs, root: GuestRoot, hart: &mut Csrs)
    ensures { hart.new ≡ hosted_csrs root true csrs.now }
{
    set_own_csrs(csrs.hs.status.mxr, root, hart);
    hart.vs = csrs.vs;
    hart.hie = csrs.hie;
    hart.hvip = csrs.hvip;
    hart.scounteren_tm = csrs.scounteren_tm;
    hart.senvcfg_fiom = csrs.senvcfg_fiom;
    hart.hstatus.vtvm = csrs.hstatus.vtvm;
    hart.hstatus.vtsr = csrs.hstatus.vtsr;
    hart.hedeleg = hedeleg_bits(csrs.hedeleg);
    hart.hideleg = csrs.hideleg;
}

// Sets the registers of which the hart has its own: zero, but for MXR, the root of the second stage, and the
// WFI of VS, which is a virtual instruction.
fn set_own_csrs(mxr: bool, root: GuestRoot, hart: &mut Csrs)
    ensures { hart.new ≡ record hart.old {
      hs = supervisor_with mxr;
      sie = clear_interrupts;
      sip = clear_interrupts;
      hstatus = record clear_hypervisor_status { vtw = true };
      hcounteren_tm = false;
      henvcfg_fiom = false;
      htimedelta = 0;
      htval = 0;
      htinst = 0;
      hgatp = root;
      time = 0;
    } }
{
    set_supervisor(mxr, &mut hart.hs);
    hart.sie = Interrupts::clear();
    hart.sip = Interrupts::clear();
    hart.hstatus = waits_kept();
    hart.hcounteren_tm = false;
    hart.henvcfg_fiom = false;
    hart.htimedelta = 0;
    hart.htval = 0;
    hart.htinst = 0;
    hart.hgatp = root;
    hart.time = 0;
}

// A WFI of VS is a virtual instruction on the hart.
fn waits_kept() -> HypervisorStatus
    ensures { result ≡ record clear_hypervisor_status { vtw = true } }
{
    HypervisorStatus {
        vtw: true,
        ..HypervisorStatus::clear()
    }
}

// Supervisor registers that have MXR alone, since with V = 1 sstatus.MXR counts beside vsstatus.MXR (8.5.1).
fn set_supervisor(mxr: bool, csrs: &mut SupervisorCsrs)
    ensures { csrs.new ≡ supervisor_with mxr }
{
    csrs.status = SupervisorStatus {
        mxr,
        ..SupervisorStatus::clear()
    };
    csrs.tvec = 0;
    csrs.scratch = 0;
    csrs.epc = 0;
    csrs.cause = 0;
    csrs.tval = 0;
    csrs.atp = SupervisorRoot::Bare;
}
