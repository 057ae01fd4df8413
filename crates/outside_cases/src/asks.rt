// What a case asks of a program, and what each of its runs must leave.

use crate::connections::{Course, Talk};
use crate::numbers::Numbers;
use crate::sinks::StreamScript;
use crate::stores::StoreScript;
use no_memory::NoMemory;
use outside::Word;
use std::alloc::Global;
use std::str;

/// Which program is asked.
#[derive(Clone, Copy)]
pub enum Program {
    Nesthv,
    Debugger,
    Log,
}

impl Program {
    fn of(numbers: &mut Numbers<'_>) -> Program {
        match numbers.next() {
            0 => Program::Nesthv,
            1 => Program::Debugger,
            _ => Program::Log,
        }
    }
}

/// What is asked: the words, what fails, and what all of its runs share.
#[derive(Drop)]
pub struct Ask<'a> {
    pub program: Program,
    has_words: bool,
    words: Vec<&'a [u8]>,
    pub store: StoreScript<'a>,
    pub out: StreamScript,
    pub err: StreamScript,
    pub description: &'a [u8],
    pub talk: Talk<'a>,
    /// What the configurations of its runs end with.
    pub tail: &'a [u8],
    /// Whether what the first run puts on `out` is the file `saved` from then on.
    pub is_kept: bool,
}

impl<'a> Ask<'a> {
    /// The next ask.
    pub fn of(alloc: Global, numbers: &mut Numbers<'a>) -> Ask<'a> {
        Ask {
            program: Program::of(numbers),
            has_words: numbers.flag(),
            words: numbers.listed_strings(alloc),
            store: StoreScript::of(numbers),
            out: StreamScript::of(numbers),
            err: StreamScript::of(numbers),
            description: numbers.string(),
            talk: Talk::of(alloc, numbers),
            tail: numbers.string(),
            is_kept: numbers.flag(),
        }
    }

    /// The words, if there is memory for them.
    pub fn words(&self, alloc: Global) -> Result<Vec<Word>, NoMemory> {
        if self.has_words {
            words_of(alloc, self.words.as_slice())
        } else {
            Err(NoMemory)
        }
    }
}

fn words_of(alloc: Global, texts: &[&[u8]]) -> Result<Vec<Word>, NoMemory> {
    let mut words = Vec::new(alloc);
    for text in texts {
        words.push(Word::new(alloc, str::from_utf8(text).unwrap_or(""))?)?;
    }
    Ok(words)
}

/// What a stream must have been given: a front of these bytes, of a length in these bounds, or, where that is
/// not known, the same as in the first run.
#[derive(Clone, Copy)]
pub struct WantedBytes<'a> {
    pub is_known: bool,
    pub bytes: &'a [u8],
    pub least: usize,
    pub most: usize,
}

/// A run: the start of its configuration, how its streams go, and how it must end.
#[derive(Clone, Copy)]
pub struct Run<'a> {
    pub head: &'a [u8],
    pub course: Course,
    /// How many bytes `out` takes before it closes.
    pub room: usize,
    pub status: u64,
    pub err: &'a [u8],
    pub out: WantedBytes<'a>,
    /// The reads that must have been asked for, as text; not told where it is empty.
    pub asked: &'a [u8],
}

impl<'a> Run<'a> {
    /// The next run.
    pub fn of(numbers: &mut Numbers<'a>) -> Run<'a> {
        Run {
            head: numbers.string(),
            course: Course::of(numbers),
            room: numbers.bound(),
            status: numbers.next(),
            err: numbers.string(),
            out: WantedBytes {
                is_known: numbers.flag(),
                bytes: numbers.string(),
                least: numbers.next() as usize,
                most: numbers.next() as usize,
            },
            asked: numbers.string(),
        }
    }
}
