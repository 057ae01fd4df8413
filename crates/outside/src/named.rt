// Files in memory by their names.

ghost use Rattle.std.specs.Prelude.{◌≡◌, [], ◌∷◌, take, option_map, OnOk, OnErr, IfOk};
ghost use Rattle.outside.specs.Named.{content_of};

use crate::words::Word;
use no_memory::NoMemory;
use std::alloc::Global;
use std::marker::Model;

#[derive(Debug, Drop)]
struct Entry {
    name: Word,
    bytes: Vec<u8>,
}

impl Model for Entry {
    ghost use Rattle.std.specs.Prelude.{ℕ, List};

    ghost Value = { List ℕ × List ℕ };

    ghost view = { λ e. (e.name, e.bytes.items) };
}

/// Files with their names, the newest first.
#[derive(Debug, Drop)]
pub(crate) struct NamedFiles {
    entries: Vec<Entry>,
}

impl Model for NamedFiles {
    ghost use Rattle.std.specs.Prelude.{ℕ, List};

    ghost Value = { List (List ℕ × List ℕ) };

    ghost view = { λ f. f.entries.items };
}

impl NamedFiles {
    pub(crate) fn new(alloc: Global) -> NamedFiles
        ensures { result ≡ [] }
    {
        NamedFiles {
            entries: Vec::new(alloc),
        }
    }

    /// Adds a file, which takes the place of an earlier one with its name.
    pub(crate) fn insert(&mut self, name: &str, bytes: &[u8]) -> Result<(), NoMemory>
        ensures ok { OnOk result (self.new ≡ (name.now, bytes.now) ∷ self.old) }
        ensures err { OnErr result (self.new ≡ self.old) }
    {
        let alloc = *self.entries.allocator();
        let entry = Entry {
            name: Word::new(alloc, name)?,
            bytes: Vec::from_slice(alloc, bytes)?,
        };
        self.entries.insert(0, entry)?;
        Ok(())
    }

    pub(crate) fn get(&self, name: &str) -> Option<&[u8]>
        ensures { option_map (λ b. b.now) result ≡ content_of self.now name.now }
    {
        self.entries
            .iter()
            .find(|e| e.name.as_str() == name)
            .map(|e| e.bytes.as_slice())
    }
}

/// A copy of the first `most` bytes, or of all where there are fewer.
pub(crate) fn front(alloc: Global, bytes: &[u8], most: u64) -> Result<Vec<u8>, NoMemory>
    ensures { IfOk result (λ v. v.items ≡ take most bytes.now) }
{
    let given = bytes.len().min(most as usize);
    Ok(Vec::from_slice(alloc, &bytes[..given])?)
}
