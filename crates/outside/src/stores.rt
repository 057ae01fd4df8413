// What a command reads files from.

ghost use Rattle.std.specs.Prelude.{◌≡◌, ℕ, ◌≤◌, ◌++◌, List, length, Option, option_map, IfOk, IsErrOf};
ghost use Rattle.outside.specs.Files.{Files, GivesFile};
ghost use Rattle.outside.specs.Asks.{Ask, told};
ghost use Rattle.outside.specs.Faults.{Rose};

use std::alloc::Global;
use thiserror::Error;

/// Why a store gave no bytes.
#[derive(Clone, Copy, Debug, PartialEq, Eq, Error)]
pub enum StoreFault {
    #[error("out of memory")]
    NoMemory,
    #[error("the file could not be read")]
    Failed,
}

/// Named files that can be read.
pub trait Store {
    // What each name stands for; none where the store tells nothing of content.
    ghost files: { Self → Option Files };

    // The reads asked for, oldest first; none where the store doesn't tell them.
    ghost asked: { Self → Option (List Ask) };

    ghost faults: { Self → ℕ };

    /// Reads the first `most` bytes of the named file, or all where it is shorter.
    fn read(&mut self, alloc: Global, name: &str, most: u64) -> Result<Vec<u8>, StoreFault>
        ensures bytes { IfOk result (λ v. GivesFile (files self.old) name.now most v.items) }
        ensures short { IfOk result (λ v. length v.items ≤ most) }
        ensures stays { files self.new ≡ files self.old }
        ensures asked { asked self.new
            ≡ option_map (λ reads. reads ++ told name.now most result) (asked self.old) }
        ensures cause { IsErrOf result StoreFault.Failed → Rose (faults self.old) (faults self.new) }
        ensures count { faults self.old ≤ faults self.new };
}
