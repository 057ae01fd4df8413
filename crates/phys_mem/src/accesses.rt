// What is read and written as memory is.

ghost use Rattle.std.specs.Prelude.{◌≡◌, ◌%◌};
ghost use Rattle.arch_defs.specs.Memory.{Memory};
ghost use Rattle.phys_mem.specs.MemoryBytes.{IsWhole, IsWidth, is_inside, number_at, bytes_with};

/// Memory: bytes from a base on, read and written little endian.
pub trait Mem {
    // The bytes, and the address of the first one.
    ghost memory: { Self → Memory };

    // What it stands on is there: so of a view, whose places lie in memory.
    ghost is_backed: { Self → Type 0 };

    // What a write leaves as it was, beside the base and the other bytes.
    ghost keeps: { Self → Self → Type 0 };

    /// The number of that many bytes at a place, or none exactly where they are not all in memory, which is
    /// of whole frames.
    fn get(&self, at: u64, width: u8) -> Option<u64>
        requires width { IsWidth width }
        requires aligned { at % width ≡ 0 }
        requires backed { is_backed self.now }
        ensures number { result ≡ number_at (memory self.now) at width }
        ensures whole { IsWhole (memory self.now) };

    /// Writes the low bytes of a value to a place, and tells whether they are all in memory. Where they
    /// are not, nothing changes.
    fn set(&mut self, at: u64, width: u8, value: u64) -> bool
        requires width { IsWidth width }
        requires aligned { at % width ≡ 0 }
        requires backed { is_backed self.old }
        ensures inside { result ≡ is_inside (memory self.old) at width }
        ensures bytes { (memory self.new).bytes ≡ bytes_with (memory self.old) at width value }
        ensures base { (memory self.new).base ≡ (memory self.old).base }
        ensures backed { is_backed self.new }
        ensures keeps { keeps self.old self.new };
}
