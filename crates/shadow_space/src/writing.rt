// Entries of the tables of a space, in memory.

ghost use Rattle.std.specs.Prelude.{◌≡◌, ◌≢◌, ◌+◌, ◌-◌, ◌*◌, ◌/◌, ◌<◌, ◌≤◌, ◌^◌, false, length, slice_index};
ghost use Rattle.arch_defs.specs.CachedEntries.{CanFill, is_device};
ghost use Rattle.arch_defs.specs.Memory.{block_size, ram_base};
ghost use Rattle.shadow_space.specs.Held.{HasDoubleword, HasFree, IsCounting, departed, table_entered, entered_frame, held_in};
ghost use Rattle.shadow_space.specs.Leaves.{frame_of_ram, leaf_parts, leaf_word};
ghost use Rattle.shadow_space.specs.Trees.{most_tables};
ghost use Rattle.stage_walk.specs.Ends.{PteFits};
ghost use Rattle.table_words.specs.Entries.{named_frame};
ghost use Rattle.table_words.specs.Words.{changed, doubleword_at};

use crate::devices::is_device;
use crate::frames::TableFrames;
use arch_defs::{Entry, FRAME_SIZE, Part, Pte};
use phys_mem::{PhysMem, RAM_BASE};
use stage_walk::{leaf_to, pointer_to, pte_of, pte_word};
use table_words::{doubleword_at, set_word};

/// Where a space's tables lie: its root, of four frames, and that many others from a first one on.
#[derive(Clone, Copy, PartialEq, Eq)]
pub struct Tables {
    pub root: u64,
    pub first: u64,
    pub count: u64,
}

/// The leaf that an entry is folded into. One of the device page has none.
pub fn leaf_word(part: &Part, entry: &Entry) -> u64
    requires { CanFill part.now.blocks entry.now }
    ensures { result ≡ leaf_word part.now.blocks entry.now }
{
    if is_device(entry) {
        0
    } else {
        pte_word(&leaf_parts(part, entry))
    }
}

// The parts of the leaf of an entry of RAM.
#[tactic(auto, using(crate::proofs::Reachable::is_of_ram))]
fn leaf_parts(part: &Part, entry: &Entry) -> Pte
    requires fills { CanFill part.now.blocks entry.now }
    requires ram { is_device entry.now ≡ false }
    ensures parts { result ≡ leaf_parts part.now.blocks entry.now }
    ensures fits { PteFits result }
{
    leaf_to(host_frame(part, entry.frame), entry.r, entry.w, entry.x)
}

// The frame of machine memory that a frame of RAM is.
fn host_frame(part: &Part, frame: u64) -> u64
    requires from { ram_base ≤ frame * 4096 }
    requires to { frame * 4096 < ram_base + length part.now.blocks * block_size }
    ensures frame { result ≡ frame_of_ram part.now.blocks frame }
    ensures small { result < 2 ^ 44 }
{
    part.names_each_once();
    part.host_place(frame * FRAME_SIZE - RAM_BASE) / FRAME_SIZE
}

/// One more entry in the table that doubleword i points to. Where it points to none, a free frame becomes it.
/// Tells the frame of the table.
#[tactic(auto, unfolding(crate::specs::Held::table_entered, crate::specs::Held::entered_frame))]
pub fn enter_table(frames: &mut TableFrames, mem: &mut PhysMem, first: u64, i: u64) -> u64
    requires doubleword { HasDoubleword mem.old i }
    requires some { doubleword_at mem.old i ≢ 0
        → IsCounting frames.old first (named_frame (doubleword_at mem.old i)) }
    requires none { doubleword_at mem.old i ≡ 0 → HasFree frames.old first }
    ensures held { held_in frames.new mem.new ≡ table_entered first i (held_in frames.old mem.old) }
    ensures frame { result ≡ entered_frame first i (held_in frames.old mem.old) }
    ensures changed { changed mem.old mem.new ≤ 1 }
{
    let pointer = doubleword_at(mem, i);
    if pointer != 0 {
        let frame = pte_of(pointer).frame;
        frames.more((frame - first) as usize);
        return frame;
    }
    let frame = first + frames.open();
    set_word(mem, i, pte_word(&pointer_to(frame)));
    frame
}

/// One entry less in a frame's table, which doubleword i points to. A table without entries gives its frame
/// back.
#[tactic(auto, unfolding(crate::specs::Held::departed))]
pub fn leave_table(frames: &mut TableFrames, mem: &mut PhysMem, first: u64, i: u64, frame: u64)
    requires doubleword { HasDoubleword mem.old i }
    requires counting { IsCounting frames.old first frame }
    requires some { 0 < slice_index frames.old.counts (frame - first) }
    requires room { frames.old.left < most_tables }
    ensures held { held_in frames.new mem.new ≡ departed first i frame (held_in frames.old mem.old) }
    ensures changed { changed mem.old mem.new ≤ 1 }
{
    let j = (frame - first) as usize;
    if frames.counts[j] == 1 {
        frames.close(j);
        set_word(mem, i, 0);
    } else {
        frames.fewer(j);
    }
}
