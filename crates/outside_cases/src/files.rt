// The files of a case.

use crate::numbers::Numbers;
use std::alloc::Global;
use work_images::noise;

// The bounds of what `noise` draws.
const SEEDS: u64 = 0x8000_0000;

const MOST_NOISE: u64 = 2_093_056;

#[derive(Drop)]
struct File<'a> {
    name: &'a [u8],
    bytes: Vec<u8>,
}

/// The files of a case, the one at hand last.
#[derive(Drop)]
pub struct Files<'a> {
    alloc: Global,
    all: Vec<File<'a>>,
    // What the saves of the case have written.
    saves: Vec<Vec<u8>>,
    // What `k` gives.
    configuration: Vec<u8>,
    /// Whether every other name gives an empty file.
    pub is_complete: bool,
    /// Whether there was no memory for one of them.
    pub lacks_memory: bool,
}

impl<'a> Files<'a> {
    /// No files.
    pub fn new(alloc: Global) -> Files<'a> {
        Files {
            alloc,
            all: Vec::new(alloc),
            saves: Vec::new(alloc),
            configuration: Vec::new(alloc),
            is_complete: false,
            lacks_memory: false,
        }
    }

    /// What a read of this name gives, or none where that fails.
    pub fn given(&self, name: &[u8]) -> Option<&[u8]> {
        if name == b"k".as_slice() {
            return Some(self.configuration.as_slice());
        }
        let mut given: Option<&[u8]> = if self.is_complete { Some(&[]) } else { None };
        for file in self.all.as_slice() {
            if file.name == name {
                given = Some(file.bytes.as_slice());
            }
        }
        given
    }

    /// Sets what `k` gives, in two parts.
    pub fn configure(&mut self, head: &[u8], tail: &[u8]) {
        self.configuration.clear();
        self.lacks_memory |= self.configuration.extend_from_slice(head).is_err();
        self.lacks_memory |= self.configuration.extend_from_slice(tail).is_err();
    }

    /// Begins a file.
    pub fn begin(&mut self, name: &'a [u8]) {
        let bytes = Vec::new(self.alloc);
        self.lacks_memory |= self.all.push(File { name, bytes }).is_err();
    }

    /// Appends to the file at hand.
    pub fn append(&mut self, bytes: &[u8]) {
        if let Some(file) = self.all.last_mut() {
            self.lacks_memory |= file.bytes.extend_from_slice(bytes).is_err();
        }
    }

    /// Appends noise to the file at hand.
    pub fn append_noise(&mut self, numbers: &mut Numbers<'a>) {
        let seed = numbers.next() % SEEDS;
        let length = numbers.next().min(MOST_NOISE);
        match noise(self.alloc, seed, length) {
            Ok(bytes) => self.append(bytes.as_slice()),
            Err(_) => self.lacks_memory = true,
        }
    }

    /// Appends a byte to the file at hand, a number of times.
    pub fn repeat(&mut self, numbers: &mut Numbers<'a>) {
        let byte = (numbers.next() % 0x100) as u8;
        let times = numbers.next() as usize;
        if let Some(file) = self.all.last_mut() {
            let length = file.bytes.len().saturating_add(times);
            self.lacks_memory |= file.bytes.resize(length, byte).is_err();
        }
    }

    /// Keeps what a save has written.
    pub fn keep(&mut self, bytes: Vec<u8>) {
        self.lacks_memory |= self.saves.push(bytes).is_err();
    }

    /// Appends the bytes from one place to another of what a save has written to the file at hand, as far as
    /// there are some.
    pub fn append_saved(&mut self, numbers: &mut Numbers<'a>) {
        let save = numbers.next() as usize;
        let start = numbers.next() as usize;
        let end = numbers.bound();
        if let (Some(saved), Some(file)) = (self.saves.get(save), self.all.last_mut()) {
            let end = end.min(saved.len());
            let part = &saved.as_slice()[start.min(end)..end];
            self.lacks_memory |= file.bytes.extend_from_slice(part).is_err();
        }
    }
}
