// The second stage, whose table lies in memory itself.

ghost use Rattle.std.specs.Prelude.{◌≡◌, ◌^◌, ◌%◌, ◌<◌};
ghost use Rattle.arch_defs.specs.Frames.{Frames, Within};
ghost use Rattle.arch_defs.specs.SecondStage.{second_end, guest_root_frame, second_root_of, second_walk, has_frame_of, memory_words};
ghost use Rattle.arch_defs.specs.Translation.{unread};
ghost use Rattle.arch_defs.specs.Walk.{most_levels, path};
ghost use Rattle.stage_walk.specs.Ends.{EndFits};
ghost use Rattle.stage_walk.specs.Reads.{Each, LiesIn};
ghost use Rattle.two_stage_walk.specs.Places.{LeafIn};

use crate::devices::is_on_device;
use crate::virtual_addresses::{leaf_address, unread};
use arch_defs::{Access, Csrs, GuestRoot, LeafPte, Mode, SecondWalkEnd, Shape, Trap, WalkEnd};
use phys_mem::Mem;
use stage_walk::{Fetch, Notes, permits_second, walk_noted};

// Memory as what a walk reads its entries from.
#[derive_where(Clone, Copy)]
struct Words<'a, M> {
    mem: &'a M,
}

impl<M: Mem> Fetch for Words<'_, M> {
    ghost reading = { λ w. memory_words (M.memory w.mem.now) };

    ghost is_backed = { λ w. M.is_backed w.mem.now };

    fn pte_at(&self, place: u64) -> Result<u64, Trap> {
        match self.mem.get(place, 8) {
            Some(word) => Ok(word),
            None => Err(unread(place)),
        }
    }
}

// Whether memory has the frame that a place is in. Memory is of whole frames, so its byte tells it.
#[tactic(auto, using(crate::proofs::Frames::byte_of_frame))]
fn has_frame_of<M: Mem>(mem: &M, place: u64) -> bool
    requires backed { M.is_backed mem.now }
    ensures { result ≡ has_frame_of (M.memory mem.now) place }
{
    mem.get(place, 1).is_some()
}

/// What the end of a walk is to an access.
pub fn second_end<M: Mem>(
    mem: &M,
    mxr: bool,
    address: u64,
    kind: Access,
    end: WalkEnd,
) -> SecondWalkEnd
    requires backed { M.is_backed mem.now }
    requires fits { EndFits most_levels end }
    ensures value { result ≡ second_end (M.memory mem.now) mxr address kind end }
    ensures leaf { LeafIn (M.memory mem.now) address result }
{
    match end {
        WalkEnd::Leaf(frame, level, r, w, x, u) => {
            let leaf = LeafPte {
                frame,
                level,
                r,
                w,
                x,
                u,
            };
            if !permits_second(mxr, kind, &leaf) {
                SecondWalkEnd::GuestPageFault
            } else if has_frame_of(mem, leaf_address(&leaf, address)) {
                SecondWalkEnd::Leaf(leaf)
            } else if is_on_device(leaf_address(&leaf, address)) {
                SecondWalkEnd::Device(leaf)
            } else {
                SecondWalkEnd::AccessFault
            }
        }
        WalkEnd::PageFault => SecondWalkEnd::GuestPageFault,
        WalkEnd::FetchEnd(..) => SecondWalkEnd::AccessFault,
    }
}

/// The walk of the second-stage table of a shape at hgatp's PPN, for an access of a kind at a guest physical
/// address. It notes the frames of the entries that it reads. `mxr` is sstatus.MXR.
#[inline(always)]
#[tactic(auto, unfolding(arch_defs::specs::SecondStage::second_walk))]
pub fn second_walk_noted<M: Mem, N: Notes>(
    mem: &M,
    mxr: bool,
    shape: Shape,
    ppn: u64,
    address: u64,
    kind: Access,
    notes: &mut N,
) -> SecondWalkEnd
    requires backed { M.is_backed mem.now }
    ensures value { result ≡ second_walk (M.memory mem.now) mxr shape ppn address kind }
    ensures leaf { LeafIn (M.memory mem.now) address result }
    ensures more { Within (N.held notes.old) (N.held notes.new) }
    ensures recent { Within (N.recent notes.old) (N.recent notes.new) }
    ensures noted { (frames : Frames) → Within (N.recent notes.new) frames → Each (LiesIn frames)
        (path (memory_words (M.memory mem.now)) (guest_root_frame ppn) shape address kind) }
{
    let root = ppn / 4 % 0x400_0000_0000 * 4;
    let end = walk_noted(&Words { mem }, root, shape, address, kind, notes);
    second_end(mem, mxr, address, kind, end)
}

/// The same walk, of which nothing is noted.
#[inline(always)]
pub fn second_walk<M: Mem>(
    mem: &M,
    mxr: bool,
    shape: Shape,
    ppn: u64,
    address: u64,
    kind: Access,
) -> SecondWalkEnd
    requires backed { M.is_backed mem.now }
    ensures value { result ≡ second_walk (M.memory mem.now) mxr shape ppn address kind }
    ensures leaf { LeafIn (M.memory mem.now) address result }
{
    second_walk_noted(mem, mxr, shape, ppn, address, kind, &mut ())
}

/// The table of a mode's second stage: hgatp's with V = 1, and none with V = 0.
pub fn second_root_of(csrs: &Csrs, mode: Mode) -> GuestRoot
    ensures { result ≡ second_root_of csrs.now mode }
{
    if mode.is_virtual() {
        csrs.hgatp
    } else {
        GuestRoot::Bare
    }
}
