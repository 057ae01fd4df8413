// A store in memory that tells what it was asked for.

ghost use Rattle.std.specs.Prelude.{◌≡◌, ◌≤◌, [], ◌∷◌, ◌++◌, Some, OnOk, OnErr};
ghost use Rattle.outside.specs.Asks.{told};

use crate::named::{NamedFiles, front};
use crate::stores::{Store, StoreFault};
use crate::words::Word;
use no_memory::NoMemory;
use std::alloc::Global;
use std::marker::Model;

/// A read that a store was asked for.
#[derive(Drop)]
pub struct Asked {
    name: Word,
    most: u64,
    failed: bool,
}

impl Model for Asked {
    ghost use Rattle.outside.specs.Asks.{Ask};

    ghost Value = { Ask };

    ghost view = { λ a. record { name = a.name; most = a.most; failed = a.failed } };
}

impl Asked {
    /// The name of the file that was asked for.
    pub fn name(&self) -> &str
        ensures { result.now ≡ self.now.name }
    {
        self.name.as_str()
    }

    /// The number of bytes that were asked for at most.
    pub fn most(&self) -> u64
        ensures { result ≡ self.now.most }
    {
        self.most
    }

    /// Whether the read answered `StoreFault::Failed`.
    pub fn failed(&self) -> bool
        ensures { result ≡ self.now.failed }
    {
        self.failed
    }
}

/// A store in memory. A name outside it is a fault, and it tells the reads asked for.
#[derive(Drop)]
pub struct MapStore {
    files: NamedFiles,
    failing: Vec<u64>,
    asked: Vec<Asked>,
    faults: u64,
}

impl Model for MapStore {
    ghost use Rattle.outside.specs.MapStores.{StoreState};

    ghost Value = { StoreState };

    ghost view = { λ s. record {
      files = s.files;
      failing = s.failing.items;
      asked = s.asked.items;
      faults = s.faults;
    } };
}

impl MapStore {
    ghost use Rattle.outside.specs.MapStores.{empty_store};

    /// A store without a file, which was asked for nothing.
    pub fn new(alloc: Global) -> MapStore
        ensures { result ≡ empty_store }
    {
        MapStore {
            files: NamedFiles::new(alloc),
            failing: Vec::new(alloc),
            asked: Vec::new(alloc),
            faults: 0,
        }
    }

    /// Adds a file, which takes the place of an earlier one with its name.
    pub fn insert(&mut self, name: &str, bytes: &[u8]) -> Result<(), NoMemory>
        ensures ok { OnOk result
            (self.new ≡ record self.old { files = (name.now, bytes.now) ∷ self.old.files }) }
        ensures err { OnErr result (self.new ≡ self.old) }
    {
        self.files.insert(name, bytes)
    }

    /// Lets the read with this number fail. The first has number 1, and one that found no memory has
    /// none.
    pub fn fail_at(&mut self, call: u64) -> Result<(), NoMemory>
        ensures ok { OnOk result
            (self.new ≡ record self.old { failing = self.old.failing ++ call ∷ [] }) }
        ensures err { OnErr result (self.new ≡ self.old) }
    {
        self.failing.push(call)?;
        Ok(())
    }

    /// The reads asked for, oldest first.
    pub fn asked(&self) -> &[Asked]
        ensures { result.now ≡ self.now.asked }
    {
        self.asked.as_slice()
    }

    /// The count of its faults.
    pub fn faults(&self) -> u64
        ensures { result ≡ self.now.faults }
    {
        self.faults
    }
}

impl MapStore {
    ghost use Rattle.outside.specs.MapStores.{read_answer, fails_next, Answers};

    fn fails_next(&self) -> bool
        ensures { result ≡ fails_next self.now }
    {
        let call = self.asked.len() as u64 + 1;
        self.failing.iter().any(|&failing| failing == call)
    }

    fn answer(&self, alloc: Global, name: &str, most: u64) -> Result<Vec<u8>, StoreFault>
        ensures { Answers result (read_answer self.now name.now most) }
    {
        if self.fails_next() {
            return Err(StoreFault::Failed);
        }
        let Some(bytes) = self.files.get(name) else {
            return Err(StoreFault::Failed);
        };
        match front(alloc, bytes, most) {
            Ok(given) => Ok(given),
            Err(NoMemory) => Err(StoreFault::NoMemory),
        }
    }
}

impl Store for MapStore {
    ghost use Rattle.outside.specs.MapStores.{files_of, read_answer, faults_after, Answers};

    ghost files = { λ s. Some (files_of s.files) };

    ghost asked = { λ s. Some s.asked };

    ghost faults = { λ s. s.faults };

    fn read(&mut self, alloc: Global, name: &str, most: u64) -> Result<Vec<u8>, StoreFault>
        ensures count { self.old.faults ≤ self.new.faults }
        ensures answer { Answers result (read_answer self.old name.now most) }
        ensures leaves { self.new ≡ record self.old {
          asked = self.old.asked ++ told name.now most result;
          faults = faults_after self.old.faults result;
        } }
    {
        let Ok(word) = Word::new(alloc, name) else {
            return Err(StoreFault::NoMemory);
        };
        let Ok(()) = self.asked.reserve(1) else {
            return Err(StoreFault::NoMemory);
        };
        let answer = self.answer(alloc, name, most);
        match answer {
            Err(StoreFault::NoMemory) => Err(StoreFault::NoMemory),
            Err(StoreFault::Failed) => {
                self.asked.push_reserved(Asked {
                    name: word,
                    most,
                    failed: true,
                });
                self.faults = self.faults.saturating_add(1);
                Err(StoreFault::Failed)
            }
            Ok(bytes) => {
                self.asked.push_reserved(Asked {
                    name: word,
                    most,
                    failed: false,
                });
                Ok(bytes)
            }
        }
    }
}
