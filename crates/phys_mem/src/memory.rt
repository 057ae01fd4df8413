// Machine memory.

ghost use Rattle.std.specs.Prelude.{◌≡◌, ℕ, ◌+◌, ◌*◌, ◌%◌, ◌<◌, ◌≤◌, ⊤, length, IfOk};
ghost use Rattle.byteorder.specs.Endian.{little_bytes};
ghost use Rattle.arch_defs.specs.Frames.{most_frames};
ghost use Rattle.arch_defs.specs.Memory.{block_size, load, machine_memory, pasted, zeros};
ghost use Rattle.phys_mem.specs.MemoryBytes.{IsWhole, IsWidth, is_inside, number_at, block_of, bytes_with, frame_of};

use crate::accesses::Mem;
use crate::slices::{bytes_of, clear, copy_frames, number, paste};
use arch_defs::{BLOCK_FRAMES, BLOCK_SIZE, FRAME_SIZE};
use byteorder::{ByteOrder, LittleEndian};
use no_memory::NoMemory;
use std::alloc::Global;
use std::cmp::min;
use std::marker::Model;

/// Machine memory: whole frames of bytes, which contracts see as the list of the bytes.
#[derive(Drop)]
pub struct PhysMem {
    frames: Vec<[u8; 4096]>,
}

impl Model for PhysMem {
    ghost use Rattle.std.specs.Prelude.{ℕ, ◌≤◌, List, vec_len};
    ghost use Rattle.std.specs.List.{concat};
    ghost use Rattle.arch_defs.specs.Frames.{most_frames};
    ghost use Rattle.phys_mem.specs.MemoryBytes.{AreWhole};

    ghost Value = { List ℕ };

    ghost view = { λ m. concat m.frames.items };

    ghost invariant = { λ m. AreWhole 4096 m.frames.items × (vec_len m.frames ≤ most_frames) };
}

impl PhysMem {
    /// The given number of frames of zeros.
    #[tactic(auto, unfolding(arch_defs::specs::Memory::zeros))]
    pub fn new(alloc: Global, frames: u64) -> Result<PhysMem, NoMemory>
        requires some { 1 ≤ frames }
        requires most { frames ≤ most_frames }
        ensures { IfOk result (λ m. m ≡ zeros (frames * 4096)) }
    {
        Ok(PhysMem {
            frames: vec![in alloc; [0; 4096]; frames as usize]?,
        })
    }

    /// How many bytes there are.
    pub fn size(&self) -> u64
        ensures size { result ≡ length self.now }
        ensures whole { result % 4096 ≡ 0 }
        ensures most { result ≤ most_frames * 4096 }
    {
        self.bytes().len() as u64
    }

    /// It is of whole frames.
    #[inline(always)]
    pub fn is_whole(&self)
        ensures { IsWhole (machine_memory self.now) }
    {
        let _ = self.size();
    }

    /// The number of `width` bytes at a place that is a multiple of it, little endian.
    #[inline]
    #[tactic(auto, using(crate::proofs::Places::fits))]
    pub fn load(&self, at: u64, width: u8) -> u64
        requires width { IsWidth width }
        requires inside { at < length self.now }
        requires aligned { at % width ≡ 0 }
        ensures { result ≡ load self.now at width }
    {
        number(&self.bytes()[at as usize..], width)
    }

    /// The word of four bytes at a place that is a multiple of 4, little endian.
    #[inline]
    pub fn load_word(&self, at: u64) -> u32
        requires inside { at < length self.now }
        requires aligned { at % 4 ≡ 0 }
        ensures { result ≡ load self.now at 4 }
    {
        LittleEndian::read_u32(&self.bytes()[at as usize..])
    }

    /// Writes the low `width` bytes of a value at a place that is a multiple of it, little endian.
    #[inline]
    #[tactic(auto, using(crate::proofs::Places::in_frame))]
    pub fn store(&mut self, at: u64, width: u8, value: u64)
        requires width { IsWidth width }
        requires inside { at < length self.old }
        requires aligned { at % width ≡ 0 }
        ensures { self.new ≡ pasted self.old at (little_bytes width value) }
    {
        let piece = bytes_of(value);
        match width {
            1 => self.paste_within(at, &piece[..1]),
            2 => self.paste_within(at, &piece[..2]),
            4 => self.paste_within(at, &piece[..4]),
            _ => self.paste_within(at, &piece),
        }
    }

    /// The bytes of a frame.
    pub fn frame(&self, n: u64) -> &[u8]
        requires { n * 4096 + 4096 ≤ length self.now }
        ensures { result.now ≡ frame_of n self.now }
    {
        &self.frames[n as usize]
    }

    /// The bytes of a block.
    pub fn block(&self, n: u64) -> &[u8]
        requires { n * block_size + block_size ≤ length self.now }
        ensures { result.now ≡ block_of n self.now }
    {
        let bytes = self.bytes();
        let start = (n * BLOCK_SIZE) as usize;
        &bytes[start..start + BLOCK_SIZE as usize]
    }

    /// Fills a frame with zeros.
    pub fn zero_frame(&mut self, n: u64)
        requires { n * 4096 + 4096 ≤ length self.old }
        ensures { self.new ≡ pasted self.old (n * 4096) (zeros 4096) }
    {
        clear(&mut self.frames[n as usize], 0, FRAME_SIZE as usize);
    }

    /// Fills a frame with the bytes of another one.
    pub fn copy_frame(&mut self, from: u64, to: u64)
        requires from { from * 4096 + 4096 ≤ length self.old }
        requires to { to * 4096 + 4096 ≤ length self.old }
        ensures { self.new ≡ pasted self.old (to * 4096) (frame_of from self.old) }
    {
        self.frames[to as usize] = self.frames[from as usize];
    }

    /// Fills a block with zeros.
    pub fn zero_block(&mut self, n: u64)
        requires { n * block_size + block_size ≤ length self.old }
        ensures { self.new ≡ pasted self.old (n * block_size) (zeros block_size) }
    {
        let _ = &self.frames;
        self.clear(n * BLOCK_SIZE, BLOCK_SIZE);
    }

    /// Fills a block with the bytes of another one.
    pub fn copy_block(&mut self, from: u64, to: u64)
        requires from { from * block_size + block_size ≤ length self.old }
        requires to { to * block_size + block_size ≤ length self.old }
        ensures { self.new ≡ pasted self.old (to * block_size) (block_of from self.old) }
    {
        let count = BLOCK_FRAMES as usize;
        let frames = self.frames.as_mut_slice();
        copy_frames(frames, from as usize * count, to as usize * count, count);
    }

    /// Fills that many bytes from a place on with zeros.
    pub fn clear(&mut self, at: u64, count: u64)
        requires { at + count ≤ length self.old }
        ensures { self.new ≡ pasted self.old at (zeros count) }
    {
        let _ = &self.frames;
        let mut done = 0;
        while done < count {
            let place = at + done;
            let part = min(FRAME_SIZE - place % FRAME_SIZE, count - done);
            self.clear_within(place, part);
            done += part;
        }
    }

    /// Lays bytes over those from a place on.
    pub fn copy_in(&mut self, at: u64, bytes: &[u8])
        requires { at + length bytes.now ≤ length self.old }
        ensures { self.new ≡ pasted self.old at bytes.now }
    {
        let _ = &self.frames;
        let mut done = 0;
        while done < bytes.len() {
            let place = at + done as u64;
            let part = min(
                (FRAME_SIZE - place % FRAME_SIZE) as usize,
                bytes.len() - done,
            );
            self.paste_within(place, &bytes[done..done + part]);
            done += part;
        }
    }

    // All bytes.
    #[inline]
    #[tactic(auto, using(std::proofs::lemmas::List::Concat::concat_is))]
    fn bytes(&self) -> &[u8]
        ensures bytes { result.now ≡ self.now }
        ensures whole { length result.now % 4096 ≡ 0 }
        ensures most { length result.now ≤ most_frames * 4096 }
    {
        self.frames.as_flattened()
    }

    // Fills that many bytes of one frame with zeros.
    fn clear_within(&mut self, at: u64, count: u64)
        requires inside { at < length self.old }
        requires one_frame { at % 4096 + count ≤ 4096 }
        ensures { self.new ≡ pasted self.old at (zeros count) }
    {
        clear(
            &mut self.frames[(at / FRAME_SIZE) as usize],
            (at % FRAME_SIZE) as usize,
            count as usize,
        );
    }

    // Lays bytes over those of one frame.
    #[inline]
    fn paste_within(&mut self, at: u64, bytes: &[u8])
        requires inside { at < length self.old }
        requires one_frame { at % 4096 + length bytes.now ≤ 4096 }
        ensures { self.new ≡ pasted self.old at bytes.now }
    {
        paste(
            &mut self.frames[(at / FRAME_SIZE) as usize],
            (at % FRAME_SIZE) as usize,
            bytes,
        );
    }
}

// Machine memory has base 0.
impl Mem for PhysMem {
    ghost memory = { machine_memory };

    ghost is_backed = { λ _. ⊤ };

    ghost keeps = { λ _ _. ⊤ };

    #[tactic(auto, using(crate::proofs::Places::fits))]
    fn get(&self, at: u64, width: u8) -> Option<u64> {
        if at < self.size() {
            Some(self.load(at, width))
        } else {
            None
        }
    }

    #[tactic(auto, using(crate::proofs::Places::fits))]
    fn set(&mut self, at: u64, width: u8, value: u64) -> bool {
        if at < self.size() {
            self.store(at, width, value);
            true
        } else {
            false
        }
    }
}
