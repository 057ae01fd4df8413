// What the second stage makes of an access, by one walk.

ghost use Rattle.std.specs.Prelude.{◌≡◌};
ghost use Rattle.arch_defs.specs.Frames.{Frames, Within};
ghost use Rattle.arch_defs.specs.Roots.{guest_shape};
ghost use Rattle.arch_defs.specs.SecondStage.{guest_root_frame, memory_words, second_root_of, second_walk};
ghost use Rattle.arch_defs.specs.Walk.{path};
ghost use Rattle.stage_walk.specs.Reads.{Each, LiesIn};
ghost use Rattle.two_stage_walk.specs.Places.{LeafIn};
ghost use Rattle.two_stage_walk.specs.Reads.{SecondReads};
ghost use Rattle.two_stage_walk.specs.SecondAnswers.{AnswerIn, answer_at_end, answer_under, bare_answer};

use crate::devices::is_on_device;
use crate::guest_addresses::{second_root_of, second_walk_noted};
use crate::virtual_addresses::leaf_address;
use arch_defs::{Access, Csrs, GuestMode, GuestRoot, Mode, SecondWalkEnd, Shape};
use phys_mem::Mem;
use stage_walk::Notes;

/// What the second stage makes of an access to a guest physical address (Privileged Architecture 20211203,
/// 8.5.1).
#[derive(Clone, Copy)]
pub enum SecondAnswer {
    /// It is made at this place in memory.
    InMemory(u64),
    /// It is made on the device page.
    OnDevice,
    /// The table has no leaf for the address, or it does not permit the access.
    GuestPageFault,
    /// An entry, or the place of the access, is outside memory.
    AccessFault,
}

// By the end of the walk of its address.
#[inline(always)]
fn answer_at_end<M: Mem>(mem: &M, address: u64, end: SecondWalkEnd) -> SecondAnswer
    requires { LeafIn (M.memory mem.now) address end }
    ensures answer { result ≡ answer_at_end address end }
    ensures inside { AnswerIn (M.memory mem.now) address result }
{
    match end {
        SecondWalkEnd::Leaf(leaf) => SecondAnswer::InMemory(leaf_address(&leaf, address)),
        SecondWalkEnd::Device(_) => SecondAnswer::OnDevice,
        SecondWalkEnd::GuestPageFault => SecondAnswer::GuestPageFault,
        SecondWalkEnd::AccessFault => SecondAnswer::AccessFault,
    }
}

// What the table of a mode makes of it. The frames of the entries that are read are noted. With the shape of
// the table known the places of its entries are computed in fewer instructions, and with the kind of access,
// which a caller knows, its leaf is tested in fewer.
#[inline(always)]
fn table_noted<M: Mem, N: Notes>(
    mem: &M,
    mxr: bool,
    mode: GuestMode,
    ppn: u64,
    address: u64,
    kind: Access,
    notes: &mut N,
) -> SecondAnswer
    requires backed { M.is_backed mem.now }
    ensures answer { result ≡ answer_at_end address
        (second_walk (M.memory mem.now) mxr (guest_shape mode) ppn address kind) }
    ensures inside { AnswerIn (M.memory mem.now) address result }
    ensures more { Within (N.held notes.old) (N.held notes.new) }
    ensures recent { Within (N.recent notes.old) (N.recent notes.new) }
    ensures noted { (frames : Frames) → Within (N.recent notes.new) frames
        → Each (LiesIn frames) (path (memory_words (M.memory mem.now)) (guest_root_frame ppn)
        (guest_shape mode) address kind) }
{
    match mode {
        GuestMode::Sv39x4 => {
            let end = second_walk_noted(mem, mxr, Shape::Sv39x4, ppn, address, kind, notes);
            answer_at_end(mem, address, end)
        }
        GuestMode::Sv48x4 => {
            let end = second_walk_noted(mem, mxr, Shape::Sv48x4, ppn, address, kind, notes);
            answer_at_end(mem, address, end)
        }
    }
}

// The same, of which nothing is noted.
#[inline(never)]
fn table_answer<M: Mem>(
    mem: &M,
    mxr: bool,
    mode: GuestMode,
    ppn: u64,
    address: u64,
    kind: Access,
) -> SecondAnswer
    requires backed { M.is_backed mem.now }
    ensures answer { result ≡ answer_at_end address
        (second_walk (M.memory mem.now) mxr (guest_shape mode) ppn address kind) }
    ensures inside { AnswerIn (M.memory mem.now) address result }
{
    table_noted(mem, mxr, mode, ppn, address, kind, &mut ())
}

/// What Bare makes of it.
pub fn bare_answer<M: Mem>(mem: &M, address: u64) -> SecondAnswer
    requires backed { M.is_backed mem.now }
    ensures answer { result ≡ bare_answer (M.memory mem.now) address }
    ensures inside { AnswerIn (M.memory mem.now) address result }
{
    if mem.get(address, 1).is_some() {
        SecondAnswer::InMemory(address)
    } else if is_on_device(address) {
        SecondAnswer::OnDevice
    } else {
        SecondAnswer::AccessFault
    }
}

/// What the second stage by a table, or Bare, makes of it. The frames of the entries that are read are noted.
#[inline(always)]
pub fn second_noted<M: Mem, N: Notes>(
    mem: &M,
    mxr: bool,
    root: GuestRoot,
    address: u64,
    kind: Access,
    notes: &mut N,
) -> SecondAnswer
    requires backed { M.is_backed mem.now }
    ensures answer { result ≡ answer_under (M.memory mem.now) mxr root address kind }
    ensures inside { AnswerIn (M.memory mem.now) address result }
    ensures more { Within (N.held notes.old) (N.held notes.new) }
    ensures recent { Within (N.recent notes.old) (N.recent notes.new) }
    ensures noted { (frames : Frames) → Within (N.recent notes.new) frames
        → SecondReads frames (M.memory mem.now) address kind root }
{
    match root {
        GuestRoot::Bare => bare_answer(mem, address),
        GuestRoot::Table { mode, ppn, .. } => {
            table_noted(mem, mxr, mode, ppn, address, kind, notes)
        }
    }
}

/// What the second stage of a mode makes of it, as the registers and memory are.
pub fn second_answer<M: Mem>(
    mem: &M,
    csrs: &Csrs,
    mode: Mode,
    address: u64,
    kind: Access,
) -> SecondAnswer
    requires backed { M.is_backed mem.now }
    ensures answer { result ≡ answer_under (M.memory mem.now) csrs.now.hs.status.mxr
        (second_root_of csrs.now mode) address kind }
    ensures inside { AnswerIn (M.memory mem.now) address result }
{
    match second_root_of(csrs, mode) {
        GuestRoot::Bare => bare_answer(mem, address),
        GuestRoot::Table { mode, ppn, .. } => {
            table_answer(mem, csrs.hs.status.mxr, mode, ppn, address, kind)
        }
    }
}
