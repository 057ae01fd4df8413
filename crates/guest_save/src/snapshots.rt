// Machines that can be written.

ghost use Rattle.std.specs.Prelude.{◌≡◌, ◌*◌, ◌<◌, drop, length, take};
ghost use Rattle.std.specs.List.{slice_index_or};
ghost use Rattle.arch_defs.specs.Memory.{block_size};
ghost use Rattle.arch_defs.specs.Spaces.{Space};
ghost use Rattle.guest_save.specs.Headers.{blocks_of, header_of};
ghost use Rattle.machine_defs.specs.Machine.{Machine};

use crate::headers::Header;
use arch_defs::{Entry, FirstEntry, GuestRoot};

/// A machine that can be written, seen by its parts.
pub trait Snapshot {
    ghost machine: { Self → Machine };

    /// Its sizes, its progress, and the state of its hart without first-stage translations.
    fn header(&self) -> Header
        ensures { result ≡ header_of (machine self.now) };

    /// The bytes of its console.
    fn console(&self) -> &[u8]
        ensures { result.now ≡ (machine self.now).platform.console.bytes };

    /// Its unread inputs, each a moment and a byte.
    fn inputs(&self) -> &[(u64, u8)]
        ensures { result.now ≡ (machine self.now).platform.console.inputs };

    /// How many spaces it has.
    fn held(&self) -> u64
        ensures { result ≡ length (machine self.now).spaces };

    /// The key of a space, counted from the front.
    fn key(&self, space: u64) -> GuestRoot
        requires { space < length (machine self.now).spaces }
        ensures { (d : Space) → result ≡ (slice_index_or (machine self.now).spaces space d).key };

    /// How many entries a space has.
    fn len(&self, space: u64) -> u64
        requires { space < length (machine self.now).spaces }
        ensures { (d : Space) → result ≡ length (slice_index_or (machine self.now).spaces space d).entries };

    /// An entry of a space, counted from the oldest.
    fn entry(&self, space: u64, place: u64) -> Entry
        requires space { space < length (machine self.now).spaces }
        requires place { (d : Space)
            → place < length (slice_index_or (machine self.now).spaces space d).entries }
        ensures { (d : Space) → result
            ≡ slice_index_or (slice_index_or (machine self.now).spaces space d).entries place result };

    /// Its first-stage translations, oldest first.
    fn first(&self) -> &[FirstEntry]
        ensures { result.now ≡ (machine self.now).platform.virt.first };

    /// A block of its RAM.
    fn block(&self, number: u64) -> &[u8]
        requires { number < blocks_of (machine self.now) }
        ensures { result.now ≡ take block_size (drop (number * block_size) (machine self.now).ram) };
}
