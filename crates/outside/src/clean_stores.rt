// A store in memory that never fails.

ghost use Rattle.std.specs.Prelude.{◌≡◌, [], ◌∷◌, take, Some, None, unwrap_or, OnOk, OnErr, IfOk, IfErr};
ghost use Rattle.outside.specs.CleanStores.{clean_files_of};
ghost use Rattle.outside.specs.Named.{content_of};

use crate::named::{NamedFiles, front};
use crate::stores::{Store, StoreFault};
use no_memory::NoMemory;
use std::alloc::Global;
use std::marker::Model;

/// A store in memory that never fails. A name outside it reads as no bytes.
#[derive(Drop)]
pub struct CleanStore {
    files: NamedFiles,
}

impl Model for CleanStore {
    ghost use Rattle.std.specs.Prelude.{ℕ, List};

    ghost Value = { List (List ℕ × List ℕ) };

    ghost view = { λ s. s.files };
}

impl CleanStore {
    /// A store without a file.
    pub fn new(alloc: Global) -> CleanStore
        ensures { result ≡ [] }
    {
        CleanStore {
            files: NamedFiles::new(alloc),
        }
    }

    /// Adds a file, which takes the place of an earlier one with its name.
    pub fn insert(&mut self, name: &str, bytes: &[u8]) -> Result<(), NoMemory>
        ensures ok { OnOk result (self.new ≡ (name.now, bytes.now) ∷ self.old) }
        ensures err { OnErr result (self.new ≡ self.old) }
    {
        self.files.insert(name, bytes)
    }
}

impl Store for CleanStore {
    ghost files = { λ s. Some (clean_files_of s) };

    ghost asked = { λ _. None };

    ghost faults = { λ _. 0 };

    fn read(&mut self, alloc: Global, name: &str, most: u64) -> Result<Vec<u8>, StoreFault>
        ensures gives { IfOk result (λ v. v.items ≡ take most (unwrap_or (content_of self.old name.now) [])) }
        ensures only_memory { IfErr result (λ e. e ≡ StoreFault.NoMemory) }
        ensures same { self.new ≡ self.old }
    {
        let bytes = self.files.get(name).unwrap_or(&[]);
        match front(alloc, bytes, most) {
            Ok(given) => Ok(given),
            Err(NoMemory) => Err(StoreFault::NoMemory),
        }
    }
}
