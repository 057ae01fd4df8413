// The files of a case as a store, of which a read can fail.

ghost use Rattle.std.specs.Prelude.{◌≤◌, length, None, IfOk};

use crate::files::Files;
use crate::numbers::Numbers;
use no_memory::NoMemory;
use outside::{Store, StoreFault};
use std::alloc::Global;

/// A read that fails, one that finds no memory, and one that gives another file than the one that is asked
/// for; and whether the count of faults stands at its end. Read 0 is none.
#[derive(Clone, Copy)]
pub struct StoreScript<'a> {
    failing: u64,
    wanting: u64,
    giving: u64,
    given: &'a [u8],
    is_full: bool,
}

impl<'a> StoreScript<'a> {
    /// The next script.
    pub fn of(numbers: &mut Numbers<'a>) -> StoreScript<'a> {
        StoreScript {
            failing: numbers.next(),
            wanting: numbers.next(),
            giving: numbers.next(),
            given: numbers.string(),
            is_full: numbers.flag(),
        }
    }
}

/// A store that tells the reads asked for, as text.
#[derive(Drop)]
pub struct ScriptedStore<'f, 'a> {
    files: &'f Files<'a>,
    script: StoreScript<'a>,
    reads: u64,
    faults: u64,
    asked: String,
}

impl<'f, 'a> ScriptedStore<'f, 'a> {
    pub fn new(
        alloc: Global,
        files: &'f Files<'a>,
        script: StoreScript<'a>,
    ) -> ScriptedStore<'f, 'a> {
        ScriptedStore {
            files,
            script,
            reads: 0,
            faults: if script.is_full { u64::MAX } else { 0 },
            asked: String::new(alloc),
        }
    }

    pub fn reads(&self) -> u64 {
        self.reads
    }

    /// The name and the number of bytes of each read, one a line.
    pub fn into_asked(self) -> String {
        self.asked
    }

    fn file(&self, name: &str) -> Option<&[u8]> {
        if self.reads == self.script.failing {
            None
        } else if self.reads == self.script.giving {
            self.files.given(self.script.given)
        } else {
            self.files.given(name.as_bytes())
        }
    }
}

impl Store for ScriptedStore<'_, '_> {
    ghost files = { λ _. None };

    ghost asked = { λ _. None };

    ghost faults = { λ s. s.faults };

    fn read(&mut self, alloc: Global, name: &str, most: u64) -> Result<Vec<u8>, StoreFault> {
        self.reads = self.reads.saturating_add(1);
        let noted = writeln!(self.asked, "asked {name} {most}");
        if noted.is_err() || self.reads == self.script.wanting {
            return Err(StoreFault::NoMemory);
        }
        match self.file(name) {
            Some(bytes) => match front(alloc, bytes, most) {
                Ok(given) => Ok(given),
                Err(NoMemory) => Err(StoreFault::NoMemory),
            },
            None => {
                self.faults = self.faults.saturating_add(1);
                Err(StoreFault::Failed)
            }
        }
    }
}

// At most that many of these bytes.
fn front(alloc: Global, bytes: &[u8], most: u64) -> Result<Vec<u8>, NoMemory>
    ensures { IfOk result (λ v. length v.items ≤ most) }
{
    let count = (bytes.len() as u64).min(most) as usize;
    Ok(Vec::from_slice(alloc, &bytes[..count])?)
}
