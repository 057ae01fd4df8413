// Doublewords of machine memory.

ghost use Rattle.std.specs.Prelude.{◌≡◌, ◌+◌, ◌*◌, ◌<◌, ◌≤◌, ◌^◌, length};
ghost use Rattle.table_words.specs.Words.{changed, doubleword_at, with_word};

use phys_mem::PhysMem;

/// The doubleword with this number.
pub fn doubleword_at(mem: &PhysMem, i: u64) -> u64
    requires inside { 8 * i + 8 ≤ length mem.now }
    requires small { i < 2 ^ 60 }
    ensures { result ≡ doubleword_at mem.now i }
{
    mem.load(8 * i, 8)
}

/// Writes the doubleword with this number.
#[tactic(auto, using(crate::proofs::Words::changed_one))]
pub fn set_word(mem: &mut PhysMem, i: u64, value: u64)
    requires inside { 8 * i + 8 ≤ length mem.old }
    requires small { i < 2 ^ 60 }
    ensures memory { mem.new ≡ with_word mem.old i value }
    ensures changed { changed mem.old mem.new ≤ 1 }
{
    mem.store(8 * i, 8, value);
}
