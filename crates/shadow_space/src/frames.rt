// The frames of a space's tables: which are free, and how many entries each of the others has.

ghost use Rattle.std.specs.Prelude.{◌≡◌, ℕ, ◌+◌, ◌-◌, ◌<◌, ◌≤◌, length, slice_index, slice_set};
ghost use Rattle.shadow_space.specs.Held.{HasMovedUp, IsKept, closed, fewer, more, next_free, opened};
ghost use Rattle.shadow_space.specs.Trees.{most_tables};
ghost use Rattle.guest_settings.specs.Limits.{most_entries};

use arch_defs::TABLES_PER_ENTRY;
use guest_settings::MOST_ENTRIES;

/// The most tables of a space below its root.
pub const MOST_TABLES: usize = TABLES_PER_ENTRY as usize * MOST_ENTRIES;

/// The frames for tables below the root, by their numbers from the first one on. The count of each is of the
/// entries of the space's list that its table is for; without a table it is zero, and the frame is free. The
/// first `left` of `free` are the free ones. `places` has for each entry of the list the frame of its leaf.
#[derive(Drop)]
pub struct TableFrames {
    pub counts: [u16; MOST_TABLES],
    pub free: [u16; MOST_TABLES],
    pub left: usize,
    pub places: [u16; MOST_ENTRIES],
}

impl TableFrames {
    /// The given number of free frames.
    pub fn new(count: usize) -> TableFrames
        requires { count ≤ most_tables }
        ensures { IsKept result count 0 }
    {
        let counts = no_counts();
        let free = numbers(count);
        let places = no_places();
        TableFrames {
            counts,
            free,
            left: count,
            places,
        }
    }

    /// One more entry in the table of a frame.
    pub fn more(&mut self, j: usize)
        requires inside { j < most_tables }
        requires few { slice_index self.old.counts j < 65535 }
        ensures { self.new ≡ more self.old j }
    {
        self.counts[j] += 1;
    }

    /// Takes the last free frame for a table with one entry, and answers its number.
    pub fn open(&mut self) -> u64
        requires some { 0 < self.old.left }
        requires most { self.old.left ≤ most_tables }
        requires inside { next_free self.old < most_tables }
        ensures number { result ≡ next_free self.old }
        ensures frames { self.new ≡ opened self.old }
    {
        let j = self.free[self.left - 1];
        self.counts[j as usize] = 1;
        self.left -= 1;
        j as u64
    }

    /// One entry less in the table of a frame, which has more than one.
    pub fn fewer(&mut self, j: usize)
        requires inside { j < most_tables }
        requires some { 0 < slice_index self.old.counts j }
        ensures { self.new ≡ fewer self.old j }
    {
        self.counts[j] -= 1;
    }

    /// Gives back the frame of a table whose last entry goes.
    pub fn close(&mut self, j: usize)
        requires inside { j < most_tables }
        requires room { self.old.left < most_tables }
        ensures { self.new ≡ closed self.old j }
    {
        self.counts[j] = 0;
        self.free[self.left] = j as u16;
        self.left += 1;
    }

    /// The frame of the leaf of entry i.
    pub fn place(&self, i: usize) -> u64
        requires { i < most_entries }
        ensures { result ≡ slice_index self.now.places i }
    {
        self.places[i] as u64
    }

    /// Sets the frame of the leaf of entry i.
    pub fn set_place(&mut self, i: usize, j: u64)
        requires inside { i < most_entries }
        requires small { j < most_tables }
        ensures { self.new ≡ record self.old { places = slice_set self.old.places i j } }
    {
        self.places[i] = j as u16;
    }

    /// Forgets the frame of entry i of that many; those behind it move up.
    pub fn drop_place(&mut self, i: usize, count: usize)
        requires inside { i < count }
        requires few { count ≤ most_entries }
        ensures rest { self.new ≡ record self.old { places = self.new.places } }
        ensures places { HasMovedUp self.old.places self.new.places i count }
    {
        self.places.copy_within(i + 1..count, i);
    }
}

fn no_counts() -> [u16; MOST_TABLES]
    ensures size { length result ≡ most_tables }
    ensures zeros { (i : ℕ) → slice_index result i ≡ 0 }
{
    [0; MOST_TABLES]
}

fn no_places() -> [u16; MOST_ENTRIES]
    ensures { length result ≡ most_entries }
{
    [0; MOST_ENTRIES]
}

// The numbers below this one, the greatest first.
fn numbers(count: usize) -> [u16; MOST_TABLES]
    requires { count ≤ most_tables }
    ensures size { length result ≡ most_tables }
    ensures numbers { (i : ℕ) → i < count → slice_index result i ≡ count - (i + 1) }
{
    let mut numbers = [0u16; MOST_TABLES];
    for i in 0..count {
        numbers[i] = (count - 1 - i) as u16;
    }
    numbers
}
