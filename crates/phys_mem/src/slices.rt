// Numbers and pieces in slices of bytes.

ghost use Rattle.std.specs.Prelude.{◌≡◌, ℕ, ◌+◌, ◌≤◌, length, take, drop};
ghost use Rattle.std.specs.List.{copy_within};
ghost use Rattle.byteorder.specs.Endian.{little_bytes};
ghost use Rattle.arch_defs.specs.Memory.{load, pasted, zeros};
ghost use Rattle.phys_mem.specs.MemoryBytes.{IsWidth};

use byteorder::{ByteOrder, LittleEndian};

/// The number of the first `width` bytes.
#[inline]
pub fn number(bytes: &[u8], width: u8) -> u64
    requires width { IsWidth width }
    requires inside { width ≤ length bytes.now }
    ensures { result ≡ load bytes.now 0 width }
{
    match width {
        1 => bytes[0] as u64,
        2 => LittleEndian::read_u16(bytes) as u64,
        4 => LittleEndian::read_u32(bytes) as u64,
        _ => LittleEndian::read_u64(bytes),
    }
}

/// The eight bytes of a value, the lowest first.
#[inline]
#[tactic(auto, using(crate::proofs::Places::fronts))]
pub fn bytes_of(value: u64) -> [u8; 8]
    ensures bytes { result ≡ little_bytes 8 value }
    ensures fronts { (n : ℕ) → n ≤ 8 → take n result ≡ little_bytes n value }
{
    let mut bytes = [0u8; 8];
    LittleEndian::write_u64(&mut bytes, value);
    bytes
}

/// Lays a piece over the bytes from a place on.
#[inline]
pub fn paste(bytes: &mut [u8], at: usize, piece: &[u8])
    requires { at + length piece.now ≤ length bytes.old }
    ensures { bytes.new ≡ pasted bytes.old at piece.now }
{
    bytes[at..at + piece.len()].copy_from_slice(piece);
}

/// Fills that many bytes from a place on with zeros.
#[tactic(auto, unfolding(arch_defs::specs::Memory::zeros))]
pub fn clear(bytes: &mut [u8], at: usize, count: usize)
    requires { at + count ≤ length bytes.old }
    ensures { bytes.new ≡ pasted bytes.old at (zeros count) }
{
    bytes[at..at + count].fill(0);
}

/// Lays that many frames from one on over as many others.
pub fn copy_frames(frames: &mut [[u8; 4096]], from: usize, to: usize, count: usize)
    requires from { from + count ≤ length frames.old }
    requires to { to + count ≤ length frames.old }
    ensures frames { frames.new ≡ copy_within frames.old from (from + count) to }
    ensures size { length frames.new ≡ length frames.old }
{
    frames.copy_within(from..from + count, to);
}
