// A guest's RAM is its image, and zeros behind it.

ghost use Rattle.std.specs.Prelude.{◌≡◌, ◌*◌, ◌<◌, ◌≤◌, ◌↔◌, length, slice_index, take, drop, IsTrue};
ghost use Rattle.arch_defs.specs.Frames.{LieIn, Only, in_blocks};
ghost use Rattle.arch_defs.specs.Memory.{block_size, loaded, pasted, zeros};
ghost use Rattle.arch_defs.specs.Ram.{ram_of};

use arch_defs::{BLOCK_SIZE, Part};
use phys_mem::PhysMem;

/// Whether an image fits into the RAM of a part.
pub fn fits(part: &Part, image: &[u8]) -> bool
    ensures { IsTrue result ↔ (length image.now ≤ length part.now.blocks * block_size) }
{
    image.len() as u64 <= part.ram_size()
}

/// Makes the RAM of a part the image, and zeros behind it. No byte outside its blocks changes.
pub fn load(mem: &mut PhysMem, part: &Part, image: &[u8])
    requires fits { length image.now ≤ length part.now.blocks * block_size }
    requires inside { LieIn (in_blocks part.now.blocks) (length mem.old) }
    ensures ram { ram_of part.now.blocks mem.new ≡ loaded (length part.now.blocks * block_size) image.now }
    ensures only { Only (in_blocks part.now.blocks) mem.old mem.new }
{
    clear(mem, part);
    load_over_zeros(mem, part, image);
}

/// The same where the RAM is zeros: what lies behind the image is not written again.
pub fn load_over_zeros(mem: &mut PhysMem, part: &Part, image: &[u8])
    requires fits { length image.now ≤ length part.now.blocks * block_size }
    requires inside { LieIn (in_blocks part.now.blocks) (length mem.old) }
    requires zeros { ram_of part.now.blocks mem.old ≡ zeros (length part.now.blocks * block_size) }
    ensures ram { ram_of part.now.blocks mem.new ≡ loaded (length part.now.blocks * block_size) image.now }
    ensures only { Only (in_blocks part.now.blocks) mem.old mem.new }
{
    for i in 0..part.blocks().len() {
        load_block(mem, part, i as u64, image);
    }
}

// Fills the RAM of a part with zeros.
fn clear(mem: &mut PhysMem, part: &Part)
    requires { LieIn (in_blocks part.now.blocks) (length mem.old) }
    ensures ram { ram_of part.now.blocks mem.new ≡ zeros (length part.now.blocks * block_size) }
    ensures only { Only (in_blocks part.now.blocks) mem.old mem.new }
{
    for i in 0..part.blocks().len() {
        clear_block(mem, part, i as u64);
    }
}

// Where a block of RAM begins in memory.
fn place_of(part: &Part, i: u64) -> u64
    requires { i < length part.now.blocks }
    ensures { result ≡ slice_index part.now.blocks i * block_size }
{
    part.blocks()[i as usize] as u64 * BLOCK_SIZE
}

// Makes a block of RAM zeros.
fn clear_block(mem: &mut PhysMem, part: &Part, i: u64)
    requires block { i < length part.now.blocks }
    requires inside { LieIn (in_blocks part.now.blocks) (length mem.old) }
    ensures ram { ram_of part.now.blocks mem.new
        ≡ pasted (ram_of part.now.blocks mem.old) (i * block_size) (zeros block_size) }
    ensures only { Only (in_blocks part.now.blocks) mem.old mem.new }
{
    part.names_each_once();
    mem.clear(place_of(part, i), BLOCK_SIZE);
}

// Lays what a block of RAM is to be of an image over it, where it is zeros.
fn load_block(mem: &mut PhysMem, part: &Part, i: u64, image: &[u8])
    requires block { i < length part.now.blocks }
    requires inside { LieIn (in_blocks part.now.blocks) (length mem.old) }
    ensures ram { ram_of part.now.blocks mem.new ≡ pasted (ram_of part.now.blocks mem.old) (i * block_size)
        (take block_size (drop (i * block_size) image.now)) }
    ensures only { Only (in_blocks part.now.blocks) mem.old mem.new }
{
    part.names_each_once();
    let piece = piece_of(image, i as usize * BLOCK_SIZE as usize, BLOCK_SIZE as usize);
    mem.copy_in(place_of(part, i), piece);
}

// At most that many bytes of an image from a place on.
#[tactic(auto, using(crate::proofs::Pieces::cut))]
fn piece_of(image: &[u8], from: usize, most: usize) -> &[u8]
    ensures piece { result.now ≡ take most (drop from image.now) }
    ensures short { length result.now ≤ most }
{
    let rest = &image[from.min(image.len())..];
    &rest[..most.min(rest.len())]
}
