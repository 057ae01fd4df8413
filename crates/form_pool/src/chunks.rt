// Chunks of bytes, by their numbers.

ghost use Rattle.std.specs.Prelude.{◌≡◌, ◌<◌, ◌∷◌, [], ◌++◌, length, IfOk, IfSome, OnOk, OnErr};
ghost use Rattle.std.specs.List.{slice_index_or};
ghost use Rattle.form_pool.specs.Forms.{AreStillThere, IsNumberOf};

use no_memory::NoMemory;
use std::alloc::Global;
use std::marker::Model;

// The bytes of a chunk.
#[derive(Drop)]
struct Chunk {
    bytes: Vec<u8>,
}

impl Model for Chunk {
    ghost use Rattle.std.specs.Prelude.{ℕ, List};

    ghost Value = { List ℕ };

    ghost view = { λ chunk. chunk.bytes.items };
}

/// Chunks of bytes, which contracts see as their list.
#[derive(Drop)]
pub struct Chunks {
    list: Vec<Chunk>,
}

impl Model for Chunks {
    ghost use Rattle.std.specs.Prelude.{ℕ, List};

    ghost Value = { List (List ℕ) };

    ghost view = { λ chunks. chunks.list.items };
}

impl Chunks {
    /// None.
    pub fn new(alloc: Global) -> Chunks
        ensures { result ≡ [] }
    {
        Chunks {
            list: Vec::new(alloc),
        }
    }

    /// The bytes of the chunk of this number.
    pub fn bytes(&self, number: usize) -> &[u8]
        requires { number < length self.now }
        ensures { result.now ≡ slice_index_or self.now number [] }
    {
        let chunk = &self.list[number];
        chunk.bytes.as_slice()
    }

    // This number, if there is one, and its chunk has these bytes.
    fn if_of(&self, number: Option<usize>, bytes: &[u8]) -> Option<usize>
        ensures { IfSome result (λ n. IsNumberOf self.now bytes.now n) }
    {
        let n = number?;
        if n < self.list.len() && self.bytes(n) == bytes {
            Some(n)
        } else {
            None
        }
    }

    // Adds a chunk of these bytes.
    fn add(&mut self, alloc: Global, bytes: &[u8]) -> Result<usize, NoMemory>
        ensures number { IfOk result (λ n. n ≡ length self.old) }
        ensures ok { OnOk result (self.new ≡ self.old ++ bytes.now ∷ []) }
        ensures err { OnErr result (self.new ≡ self.old) }
    {
        let chunk = Chunk {
            bytes: Vec::from_slice(alloc, bytes)?,
        };
        let number = self.list.len();
        self.list.push(chunk)?;
        Ok(number)
    }

    /// The number of a chunk of these bytes: one of the two that may be it, else that of a new one.
    #[tactic(auto, using(crate::proofs::Sharing::chunks_added))]
    pub fn number_of(
        &mut self,
        alloc: Global,
        first: Option<usize>,
        second: Option<usize>,
        bytes: &[u8],
    ) -> Result<usize, NoMemory>
        ensures number { IfOk result (λ n. IsNumberOf self.new bytes.now n) }
        ensures stays { AreStillThere self.old self.new }
    {
        if let Some(n) = self.if_of(first, bytes) {
            return Ok(n);
        }
        match self.if_of(second, bytes) {
            Some(n) => Ok(n),
            None => self.add(alloc, bytes),
        }
    }
}
