// Reads that are counted.

ghost use Rattle.std.specs.Prelude.{◌≡◌, ◌+◌, ◌<◌, ◌≤◌, ◌∷◌, [], Some, length, IfOk};
ghost use Rattle.outside.specs.Files.{Files};
ghost use Rattle.nesthv_top.specs.declared.ends.LoadEnd.TheVariants.{NoMemory};
ghost use Rattle.nesthv_top.specs.Contents.{content};
ghost use Rattle.nesthv_top.specs.Ends.{Leaves};
ghost use Rattle.nesthv_top.specs.Reads.{ask};
ghost use Rattle.nesthv_top.specs.Steps.{ReadAs};

use crate::ends::LoadEnd;
use outside::{Store, StoreFault};
use std::alloc::Global;

/// How many reads a command has made.
#[derive(Drop)]
pub struct Reads {
    made: u64,
}

impl Reads {
    /// None yet.
    pub fn new() -> Reads
        ensures { result.made ≡ 0 }
    {
        Reads { made: 0 }
    }

    /// The first `most` bytes of a file, or all where it is shorter.
    pub fn read<S: Store>(
        &mut self,
        alloc: Global,
        store: &mut S,
        name: &str,
        most: u64,
    ) -> Result<Vec<u8>, LoadEnd>
        requires few { self.old.made < 64 }
        ensures bytes { (files : Files) → S.files store.old ≡ Some files
            → IfOk result (λ v. v.items ≡ content files name.now most) }
        ensures short { IfOk result (λ v. length v.items ≤ most) }
        ensures read { ReadAs (ask name.now most) self.old.made (S.asked store.old) result
            self.new.made (S.asked store.new) }
        ensures leaves { Leaves S.Store 1 result store.old store.new self.old.made self.new.made }
    {
        match store.read(alloc, name, most) {
            Ok(bytes) => {
                self.made += 1;
                Ok(bytes)
            }
            Err(StoreFault::Failed) => Err(LoadEnd::ReadFault(self.made + 1)),
            Err(StoreFault::NoMemory) => Err(self.no_memory()),
        }
    }

    /// Memory ran out after the reads that were made.
    pub fn no_memory(&self) -> LoadEnd
        ensures { result ≡ NoMemory self.now.made }
    {
        LoadEnd::NoMemory(self.made)
    }
}
