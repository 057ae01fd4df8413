// A set of frames of machine memory. It may hold more frames than were added to it.

ghost use Rattle.std.specs.Prelude.{◌≡◌, ◌≢◌, ℕ, ◌%◌, ◌^◌, true, false, replicate};
ghost use Rattle.arch_defs.specs.Frames.{Within};
ghost use Rattle.translation_buffer.specs.Holding.{has_frame, has_recent, is_key, key_of};

use stage_walk::Notes;

// How many marks there are: a frame's mark is its number modulo this.
const MARKS: u64 = 4096;

// What stands at a mark where more than one frame was added.
const SEVERAL: u64 = u64::MAX;

/// A set of frames. At each mark stands the key of the frame that was added there, 0 where none was, and the
/// last number of 64 bits where more than one was. `recent` has the bits of the frames that were added since
/// the last `begin`; a frame's bit is that of its number modulo 64.
#[derive(Clone, Copy)]
pub struct FrameSet {
    held: [u64; 4096],
    recent: u64,
}

// The key of a frame: never 0, so that what is all 0 holds nothing.
#[inline]
fn key_of(frame: u64) -> u64
    ensures { result ≡ key_of frame }
{
    if frame < SEVERAL { frame + 1 } else { SEVERAL }
}

// Whether a frame is held where this stands at its mark.
#[inline]
fn is_key(key: u64, frame: u64) -> bool
    ensures { result ≡ is_key key frame }
{
    key == key_of(frame) || key == SEVERAL
}

// No frame at any mark.
#[inline]
fn no_keys() -> [u64; 4096]
    ensures { result ≡ replicate 4096 0 }
{
    [0; 4096]
}

// The word of which this bit alone is set, counted modulo 64.
fn bit_at(place: u64) -> u64
    ensures { result ≡ 2 ^ (place % 64) }
{
    1 << (place % 64)
}

impl FrameSet {
    /// The set that holds no frame.
    pub fn new() -> FrameSet
        ensures { (frame : ℕ) → has_frame result frame ≡ false }
    {
        FrameSet {
            held: no_keys(),
            recent: 0,
        }
    }

    /// Whether it holds a frame.
    #[inline]
    #[tactic(auto, using(crate::proofs::Holding::asking), unfolding(crate::specs::Holding::has_frame))]
    pub fn holds(&self, frame: u64) -> bool
        ensures { result ≡ has_frame self.now frame }
    {
        // Most frames that are asked for have a mark at which 0 stands.
        let key = self.held[(frame % MARKS) as usize];
        key != 0 && is_key(key, frame)
    }

    // Holds a frame whose key does not stand at its mark. A call would keep the loop of a walk from being
    // unrolled.
    #[inline(always)]
    #[tactic(auto, using(crate::proofs::Holding::joining))]
    fn hold_new(&mut self, frame: u64)
        ensures more { Within (has_frame self.old) (has_frame self.new) }
        ensures held { has_frame self.new frame ≡ true }
        ensures recent { self.new.recent ≡ self.old.recent }
    {
        let at = (frame % MARKS) as usize;
        self.held[at] = if self.held[at] == 0 {
            key_of(frame)
        } else {
            SEVERAL
        };
    }

    // Holds a frame from now on.
    #[inline(always)]
    #[tactic(auto, using(crate::proofs::Holding::held_already))]
    fn hold(&mut self, frame: u64)
        ensures more { Within (has_frame self.old) (has_frame self.new) }
        ensures held { has_frame self.new frame ≡ true }
        ensures recent { self.new.recent ≡ self.old.recent }
    {
        if self.held[(frame % MARKS) as usize] != key_of(frame) {
            self.hold_new(frame);
        }
    }

    /// Adds a frame.
    #[inline(always)]
    #[tactic(auto, using(crate::proofs::Recent::noting))]
    pub fn add(&mut self, frame: u64)
        ensures more { Within (has_frame self.old) (has_frame self.new) }
        ensures recent { Within (has_recent self.old) (has_recent self.new) }
        ensures added { has_recent self.new frame ≡ true }
    {
        self.hold(frame);
        self.recent |= bit_at(frame);
    }

    /// From here on counts anew which frames were added.
    #[inline]
    #[tactic(auto, using(crate::proofs::Recent::beginning))]
    pub fn begin(&mut self)
        ensures same { (frame : ℕ) → has_frame self.new frame ≡ has_frame self.old frame }
        ensures none { (frame : ℕ) → has_recent self.new frame ≡ false }
    {
        self.recent = 0;
    }

    /// The bits of the frames that were added since the last `begin`.
    #[inline]
    pub fn recent(&self) -> u64
        ensures { result ≡ self.now.recent }
    {
        self.recent
    }

    /// Takes out each frame that has this frame's mark.
    #[inline]
    #[tactic(auto, using(crate::proofs::Removing::removing))]
    pub fn remove(&mut self, frame: u64)
        ensures removed { (other : ℕ) → other % 4096 ≡ frame % 4096
            → has_frame self.new other ≡ false }
        ensures others { (other : ℕ) → other % 4096 ≢ frame % 4096
            → has_frame self.new other ≡ has_frame self.old other }
    {
        self.held[(frame % MARKS) as usize] = 0;
    }
}

impl Notes for FrameSet {
    ghost held = { λ set. has_frame set };

    ghost recent = { λ set. has_recent set };

    #[inline(always)]
    fn note(&mut self, frame: u64) {
        self.add(frame);
    }
}
