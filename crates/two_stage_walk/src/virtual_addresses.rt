// The first stage, whose table is read through the second.

ghost use Rattle.std.specs.Prelude.{◌≡◌, ◌^◌, ◌%◌, ◌<◌, IfSome};
ghost use Rattle.arch_defs.specs.Memory.{Known, mmu, reading_of};
ghost use Rattle.arch_defs.specs.SecondStage.{second_by_walk};
ghost use Rattle.arch_defs.specs.Translation.{entry_words_through, first_stage, found_by, privilege_of, supervisor_of, unread};
ghost use Rattle.arch_defs.specs.Walk.{leaf_address, most_levels, walk};
ghost use Rattle.machine_defs.specs.FirstLeaves.{leaf_if, leaf_under};
ghost use Rattle.stage_walk.specs.Ends.{EndFits, LeafFits};
ghost use Rattle.two_stage_walk.specs.Places.{IsPlaceOf, KeepsOffset};

use crate::second_places::second_place;
use arch_defs::{
    Access, Csrs, Found, LOAD_ACCESS_FAULT, LeafPte, Mode, Privilege, Shape, SupervisorCsrs,
    SupervisorRoot, Trap, WalkEnd,
};
use phys_mem::Mem;
use stage_walk::{Fetch, permits_first, walk};

// Memory as what the first stage of a mode reads its entries from: each at the place that the second
// stage has for it.
#[derive_where(Clone, Copy)]
struct Entries<'a, M> {
    mem: &'a M,
    csrs: &'a Csrs,
    mode: Mode,
}

impl<M: Mem> Fetch for Entries<'_, M> {
    ghost reading = { λ e. entry_words_through
        (second_by_walk e.csrs.now e.mode (M.memory e.mem.now))
        (reading_of (M.memory e.mem.now)) };

    ghost is_backed = { λ e. M.is_backed e.mem.now };

    fn pte_at(&self, place: u64) -> Result<u64, Trap> {
        match second_place(self.mem, self.csrs, self.mode, place, Access::Implicit) {
            Some(at) => Ok(word_at(self.mem, at)),
            None => Err(unread(place)),
        }
    }
}

/// The doubleword at a place of memory.
#[tactic(auto, using(crate::proofs::Frames::doubleword))]
pub fn word_at<M: Mem>(mem: &M, place: u64) -> u64
    requires backed { M.is_backed mem.now }
    requires inside { IsPlaceOf (M.memory mem.now) place place }
    requires aligned { place % 8 ≡ 0 }
    ensures { result ≡ reading_of (M.memory mem.now) place 8 }
{
    match mem.get(place, 8) {
        Some(word) => word,
        None => unreachable!(),
    }
}

/// The trap of the read of an entry by itself, where the second stage has no place for it.
pub fn unread(at: u64) -> Trap
    ensures { result ≡ unread at }
{
    Trap {
        cause: LOAD_ACCESS_FAULT,
        interrupt: false,
        tval: at,
        tval2: 0,
        gva: false,
        implicit: true,
    }
}

/// The registers of the level whose table translates for a mode.
pub fn supervisor_of(csrs: &Csrs, mode: Mode) -> SupervisorCsrs
    ensures { result ≡ supervisor_of csrs.now mode }
{
    match mode {
        Mode::HS | Mode::U => csrs.hs,
        Mode::VS | Mode::VU => csrs.vs,
    }
}

/// As whom a mode's accesses are translated: with V = 1 sstatus.MXR counts beside vsstatus.MXR
/// (Privileged Architecture 20211203, 4.1.1.2 and 8.5).
pub fn privilege_of(csrs: &Csrs, mode: Mode) -> Privilege
    ensures { result ≡ privilege_of csrs.now mode }
{
    let status = supervisor_of(csrs, mode).status;
    Privilege {
        user: matches!(mode, Mode::U | Mode::VU),
        sum: status.sum,
        mxr: status.mxr || csrs.hs.status.mxr,
    }
}

/// The physical address of an address under a leaf.
pub fn leaf_address(leaf: &LeafPte, va: u64) -> u64
    requires { LeafFits most_levels leaf.now }
    ensures value { result ≡ leaf_address leaf.now va }
    ensures offset { result % 4096 ≡ va % 4096 }
    ensures small { result < 2 ^ 56 }
{
    4096 * leaf.frame + va % (1 << (12 + 9 * leaf.level as u32))
}

/// What the end of a first-stage walk is to an access.
pub fn found_by(privilege: Privilege, access: Access, va: u64, end: WalkEnd) -> Found
    requires { EndFits most_levels end }
    ensures value { result ≡ found_by privilege access va end }
    ensures offset { KeepsOffset va result }
{
    match end {
        WalkEnd::Leaf(frame, level, r, w, x, u) => {
            let leaf = LeafPte {
                frame,
                level,
                r,
                w,
                x,
                u,
            };
            if permits_first(privilege, access, &leaf) {
                Found::Passes(leaf_address(&leaf, va))
            } else {
                Found::PageFaults
            }
        }
        WalkEnd::PageFault => Found::PageFaults,
        WalkEnd::FetchEnd(place, _) => Found::MissesEntry(place),
    }
}

// What the walk of the table of a shape at this PPN makes of a virtual address.
fn found_in_table<M: Mem>(
    entries: &Entries<'_, M>,
    shape: Shape,
    ppn: u64,
    va: u64,
    access: Access,
) -> Found
    requires backed { M.is_backed entries.now.mem.now }
    ensures value { result ≡ found_by (privilege_of entries.now.csrs.now entries.now.mode) access va
        (walk (entry_words_through (second_by_walk entries.now.csrs.now entries.now.mode
        (M.memory entries.now.mem.now)) (reading_of (M.memory entries.now.mem.now)))
        (ppn % 2 ^ 44) shape va access) }
    ensures offset { KeepsOffset va result }
{
    let end = walk(entries, ppn % 0x1000_0000_0000, shape, va, access);
    found_by(privilege_of(entries.csrs, entries.mode), access, va, end)
}

/// What the first stage makes of a virtual address for an access as a mode. Its entries are read where the
/// second stage has them.
#[tactic(auto, unfolding(arch_defs::specs::Translation::first_stage))]
pub fn first_stage<M: Mem>(mem: &M, csrs: &Csrs, mode: Mode, va: u64, access: Access) -> Found
    requires backed { M.is_backed mem.now }
    ensures value { result ≡ first_stage (second_by_walk csrs.now mode (M.memory mem.now))
        (reading_of (M.memory mem.now)) csrs.now mode va access }
    ensures offset { KeepsOffset va result }
{
    match supervisor_of(csrs, mode).atp {
        SupervisorRoot::Bare => Found::Passes(va),
        SupervisorRoot::Table {
            mode: table,
            ppn,
            ..
        } => {
            let entries = Entries { mem, csrs, mode };
            found_in_table(&entries, table.shape(), ppn, va, access)
        }
    }
}

// The leaf at which a walk ends, if it permits the access.
fn leaf_if(privilege: Privilege, access: Access, end: WalkEnd) -> Option<LeafPte>
    requires { EndFits most_levels end }
    ensures value { result ≡ leaf_if privilege access end }
    ensures fits { IfSome result (λ leaf. LeafFits most_levels leaf) }
{
    match end {
        WalkEnd::Leaf(frame, level, r, w, x, u) => {
            let leaf = LeafPte {
                frame,
                level,
                r,
                w,
                x,
                u,
            };
            if permits_first(privilege, access, &leaf) {
                Some(leaf)
            } else {
                None
            }
        }
        WalkEnd::PageFault | WalkEnd::FetchEnd(..) => None,
    }
}

/// The leaf of the first stage for an access as a mode, if it permits that; Bare has none. Its entries are
/// read where the second stage has them.
pub fn first_leaf<M: Mem>(
    mem: &M,
    csrs: &Csrs,
    mode: Mode,
    va: u64,
    access: Access,
) -> Option<LeafPte>
    requires backed { M.is_backed mem.now }
    ensures value { (known : Known) → result ≡ leaf_under
        (mmu known (second_by_walk csrs.now mode (M.memory mem.now)) (reading_of (M.memory mem.now)))
        (privilege_of csrs.now mode) va access (supervisor_of csrs.now mode).atp }
    ensures fits { IfSome result (λ leaf. LeafFits most_levels leaf) }
{
    match supervisor_of(csrs, mode).atp {
        SupervisorRoot::Bare => None,
        SupervisorRoot::Table {
            mode: table,
            ppn,
            ..
        } => {
            let entries = Entries { mem, csrs, mode };
            let end = walk(&entries, ppn % 0x1000_0000_0000, table.shape(), va, access);
            leaf_if(privilege_of(csrs, mode), access, end)
        }
    }
}
