// The walk itself.

ghost use Rattle.std.specs.Prelude.{◌≡◌, ◌^◌, ◌<◌, ◌/◌, ◌%◌, true};
ghost use Rattle.arch_defs.specs.Frames.{Frames, Within};
ghost use Rattle.arch_defs.specs.Walk.{levels, most_levels, path, read_next, walk};
ghost use Rattle.stage_walk.specs.Ends.{EndFits};
ghost use Rattle.stage_walk.specs.Reads.{Each, LiesIn};
ghost use Rattle.stage_walk.specs.Words.{VisitFits, visit_next};

use crate::entries::{Visit, last_end, visit_of};
use crate::fetching::Fetch;
use crate::noting::Notes;
use crate::places::{is_canonical, levels, place_of, unread_end};
use arch_defs::{Access, Shape, WalkEnd};

/// What the walk finds at the place of an entry, whose frame it notes.
#[inline(always)]
pub(crate) fn visit<F: Fetch, N: Notes>(
    fetch: &F,
    level: u8,
    place: u64,
    access: Access,
    notes: &mut N,
) -> Visit
    requires level { level < most_levels }
    requires aligned { place % 8 ≡ 0 }
    requires backed { F.is_backed fetch.now }
    ensures next { visit_next access level place result
        ≡ read_next level place access (F.reading fetch.now place) }
    ensures fits { VisitFits level result }
    ensures more { Within (N.held notes.old) (N.held notes.new) }
    ensures recent { Within (N.recent notes.old) (N.recent notes.new) }
    ensures noted { N.recent notes.new (place / 4096) ≡ true }
{
    notes.note(place / 4096);
    visit_of(level, place, access, fetch.pte_at(place))
}

/// Walks the table whose root is this frame, for an access at an address, and notes the frames of the entries
/// that it reads.
#[inline(always)]
#[tactic(auto, using(crate::proofs::Levels::steps, arch_defs::proofs::Shapes::few_levels))]
pub fn walk_noted<F: Fetch, N: Notes>(
    fetch: &F,
    root: u64,
    shape: Shape,
    va: u64,
    access: Access,
    notes: &mut N,
) -> WalkEnd
    requires root { root < 2 ^ 44 }
    requires backed { F.is_backed fetch.now }
    ensures end { result ≡ walk (F.reading fetch.now) root shape va access }
    ensures fits { EndFits (levels shape) result }
    ensures more { Within (N.held notes.old) (N.held notes.new) }
    ensures recent { Within (N.recent notes.old) (N.recent notes.new) }
    ensures noted { (frames : Frames) → Within (N.recent notes.new) frames
        → Each (LiesIn frames) (path (F.reading fetch.now) root shape va access) }
{
    if !is_canonical(shape, va) {
        return WalkEnd::PageFault;
    }
    let mut table = root;
    let mut level = levels(shape);
    while level > 0 {
        level -= 1;
        let place = place_of(shape, level, table, va);
        match visit(fetch, level, place, access, notes) {
            Visit::Below(frame) => table = frame,
            Visit::Last(word) => return last_end(shape, level, access, word),
            Visit::Unread(trap) => {
                return unread_end(shape, level, table, va, trap);
            }
        }
    }
    WalkEnd::PageFault
}

/// Walks the table whose root is this frame, for an access at an address.
#[inline(always)]
pub fn walk<F: Fetch>(fetch: &F, root: u64, shape: Shape, va: u64, access: Access) -> WalkEnd
    requires root { root < 2 ^ 44 }
    requires backed { F.is_backed fetch.now }
    ensures end { result ≡ walk (F.reading fetch.now) root shape va access }
    ensures fits { EndFits (levels shape) result }
{
    walk_noted(fetch, root, shape, va, access, &mut ())
}
