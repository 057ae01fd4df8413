// Forms that share chunks.

ghost use Rattle.std.specs.Prelude.{◌≡◌, ◌<◌, ◌≤◌, ◌∷◌, [], ◌++◌, is_ok, length, OnOk, OnErr};
ghost use Rattle.std.specs.List.{slice_index_or};
ghost use Rattle.outside.specs.Faults.{one_more};
ghost use Rattle.outside.specs.Pieces.{Puts};
ghost use Rattle.form_pool.specs.Forms.{no_forms, with_lengths};

use crate::chunks::Chunks;
use crate::trails::Trail;
use no_memory::NoMemory;
use outside::{Sink, SinkFault};
use std::alloc::Global;
use std::marker::Model;

// How many bytes a chunk has at most: those of a frame, since a run changes RAM by few frames.
const CHUNK_BYTES: usize = 4096;

// The bytes of a block. A piece of whole blocks is RAM, of which each form has as much.
const BLOCK_BYTES: usize = 2_097_152;

// A form, by the numbers of its chunks.
#[derive(Drop)]
struct Numbers {
    list: Vec<usize>,
}

impl Model for Numbers {
    ghost use Rattle.std.specs.Prelude.{ℕ, List};

    ghost Value = { List ℕ };

    ghost view = { λ numbers. numbers.list.items };
}

/// Forms that are kept, and a partial one: a sink, whose pieces make it. What two forms have alike is kept
/// once. Out of memory counts as a fault of a put.
#[derive(Drop)]
pub struct FormPool {
    alloc: Global,
    chunks: Chunks,
    kept: Vec<Numbers>,
    partial: Vec<usize>,
    trail: Trail,
    faults: u64,
}

impl Model for FormPool {
    ghost use Rattle.form_pool.specs.Forms.{Forms};

    ghost Value = { Forms };

    ghost use Rattle.form_pool.specs.View.{forms_of, HasChunks};

    ghost view = { forms_of };

    ghost invariant = { HasChunks };
}

impl FormPool {
    /// No form, and a partial one without a byte.
    #[tactic(auto, using(crate::proofs::Sharing::none_numbered))]
    pub fn new(alloc: Global) -> FormPool
        ensures { result ≡ no_forms }
    {
        FormPool {
            alloc,
            chunks: Chunks::new(alloc),
            kept: Vec::new(alloc),
            partial: Vec::new(alloc),
            trail: Trail::new(alloc),
            faults: 0,
        }
    }

    /// How many forms are kept.
    pub fn count(&self) -> usize
        ensures { result ≡ length self.now.kept }
    {
        self.kept.len()
    }

    /// Begins the partial form anew.
    #[tactic(auto, using(crate::proofs::Sharing::none_numbered))]
    pub fn restart(&mut self)
        ensures { self.new ≡ record self.old { partial = [] } }
    {
        self.partial.clear();
        self.trail.restart();
    }

    /// Keeps the partial form, behind those that are kept. Out of memory, nothing changes.
    #[tactic(auto, using(crate::proofs::Sharing::forms_shared))]
    pub fn keep(&mut self) -> Result<(), NoMemory>
        ensures ok { OnOk result
            (self.new ≡ record self.old { kept = self.old.kept ++ self.old.partial ∷ []; partial = [] }) }
        ensures err { OnErr result (self.new ≡ self.old) }
    {
        let list = Vec::from_slice(self.alloc, self.partial.as_slice())?;
        self.kept.push(Numbers { list })?;
        self.partial.clear();
        Ok(())
    }

    /// Writes a form that is kept, by its number, in place of what stood in `out`.
    pub fn write(&self, number: usize, out: &mut Vec<u8>) -> Result<(), NoMemory>
        requires { number < length self.now.kept }
        ensures { OnOk result (out.new.items ≡ slice_index_or self.now.kept number []) }
    {
        out.clear();
        let form = &self.kept[number];
        for i in 0..form.list.len() {
            let chunk = form.list[i];
            out.extend_from_slice(self.chunks.bytes(chunk))?;
        }
        Ok(())
    }

    // Appends a chunk to the partial form; one of RAM where `is_ram` says so.
    #[tactic(auto, using(crate::proofs::Sharing::forms_shared))]
    fn appended(&mut self, is_ram: bool, bytes: &[u8]) -> Result<(), NoMemory>
        ensures ok { OnOk result (self.new ≡ record self.old { partial = self.old.partial ++ bytes.now }) }
        ensures err { OnErr result (self.new ≡ self.old) }
    {
        let guess = if is_ram { self.trail.guess() } else { None };
        let last = self.partial.last().copied();
        let number = self.chunks.number_of(self.alloc, guess, last, bytes)?;
        self.partial.push(number)?;
        if is_ram {
            self.trail.note(number);
        }
        Ok(())
    }

    // The same, where out of memory is a fault.
    fn append(&mut self, is_ram: bool, bytes: &[u8]) -> Result<(), SinkFault>
        ensures ok { OnOk result (self.new ≡ record self.old { partial = self.old.partial ++ bytes.now }) }
        ensures err { OnErr result (self.new ≡ record self.old { faults = one_more self.old.faults }) }
        ensures count { self.old.faults ≤ self.new.faults }
    {
        match self.appended(is_ram, bytes) {
            Ok(()) => Ok(()),
            Err(NoMemory) => {
                self.faults = self.faults.saturating_add(1);
                Err(SinkFault::Failed)
            }
        }
    }
}

impl Sink for FormPool {
    ghost stands_for = { λ forms bytes. forms.partial ≡ bytes };

    ghost took = { λ _ _. ⊥ };

    ghost faults = { λ forms. forms.faults };

    // The forms that are kept, each behind its length, so that these numbers tell them.
    ghost made_with = { λ forms. with_lengths forms.kept };

    #[tactic(auto, using(crate::proofs::Pieces::taken_more))]
    fn put(&mut self, piece: &[u8]) -> Result<(), SinkFault> {
        let is_ram = piece.len() % BLOCK_BYTES == 0;
        let mut done = 0;
        while done < piece.len() {
            let size = CHUNK_BYTES.min(piece.len() - done);
            self.append(is_ram, &piece[done..done + size])?;
            done += size;
        }
        Ok(())
    }
}
