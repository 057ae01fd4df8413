// The words that a process is given.

ghost use Rattle.std.specs.Prelude.{◌≡◌, List, Option, None, ℕ, option_map, IfOk};
ghost use Rattle.outside.specs.Arguments.{word_of, IsArgument, IsWord, AreWords};

use crate::words::Word;
use no_memory::NoMemory;
use std::alloc::Global;
use std::env::FillError;
use std::rt::Env;

/// The arguments of a process.
pub trait Arguments {
    // All of them in order, the program's name first; none where they aren't told.
    ghost given: { Self → Option (List (List ℕ)) };

    /// The bytes of the argument of this number, from 0, if there are that many arguments.
    fn argument(&self, alloc: Global, i: usize) -> Result<Option<Vec<u8>>, NoMemory>
        ensures { IfOk result (λ bytes. IsArgument (given self.now) i (option_map (λ v. v.items) bytes)) };
}

/// All arguments as words. One that is not UTF-8 becomes the empty word.
#[tactic(auto, using(crate::proofs::ArgumentList::words_more, crate::proofs::ArgumentList::words_done))]
pub fn words_of<A: Arguments>(arguments: &A, alloc: Global) -> Result<Vec<Word>, NoMemory>
    ensures { IfOk result (λ words. AreWords (A.given arguments.now) words.items) }
{
    let mut words = Vec::new(alloc);
    for i in 0..usize::MAX {
        match word_at(arguments, alloc, i)? {
            Some(word) => words.push(word)?,
            None => return Ok(words),
        }
    }
    Err(NoMemory)
}

fn word_at<A: Arguments>(arguments: &A, alloc: Global, i: usize) -> Result<Option<Word>, NoMemory>
    ensures { IfOk result (λ word. IsWord (A.given arguments.now) i word) }
{
    match arguments.argument(alloc, i)? {
        Some(bytes) => Ok(Some(word_of(alloc, bytes.as_slice())?)),
        None => Ok(None),
    }
}

#[tactic(auto, using(crate::proofs::ArgumentList::word_texts))]
fn word_of(alloc: Global, bytes: &[u8]) -> Result<Word, NoMemory>
    ensures { IfOk result (λ word. word ≡ word_of bytes.now) }
{
    match str::from_utf8(bytes) {
        Ok(text) => Word::new(alloc, text),
        Err(_) => Word::new(alloc, ""),
    }
}

/// The arguments of the process that runs. Which they are is not told.
#[derive(Drop)]
pub struct ProcessArguments<'a, R> {
    rt: &'a R,
}

impl<'a, R> ProcessArguments<'a, R> {
    pub fn new(rt: &'a R) -> ProcessArguments<'a, R> {
        ProcessArguments { rt }
    }
}

// How many bytes the first buffer for an argument has.
const FIRST_ROOM: usize = 256;

impl<'a, R: Env> Arguments for ProcessArguments<'a, R> {
    ghost given = { λ _. None };

    // The buffer is doubled until the argument fits.
    fn argument(&self, alloc: Global, i: usize) -> Result<Option<Vec<u8>>, NoMemory> {
        let mut room = FIRST_ROOM;
        for _ in 0..usize::BITS {
            let mut buffer = Vec::from_elem(alloc, 0, room)?;
            match self.rt.arg(i, buffer.as_mut_slice()) {
                Ok(length) => {
                    buffer.truncate(length);
                    return Ok(Some(buffer));
                }
                Err(FillError::NotPresent) => return Ok(None),
                Err(FillError::TooLong) => room = room.saturating_mul(2),
            }
        }
        Err(NoMemory)
    }
}
