// What a file of data says, in order.

use crate::sums::sum;
use std::alloc::Global;

// How many bytes the sum of a file has, and a number at most.
const NUMBER: usize = 8;

// How many times a piece of a string comes at most.
const MOST_TIMES: u64 = 0x10_0000;

/// A file of data: strings of bytes, and then numbers. It keeps its first fault, and goes on with 0.
#[derive(Clone, Copy)]
pub struct Numbers<'a> {
    rest: &'a [u8],
    strings: &'a [Vec<u8>],
    is_damaged: bool,
}

impl<'a> Numbers<'a> {
    /// The numbers of a file, which begins with the sum of what follows.
    pub fn new(file: &'a [u8]) -> Numbers<'a> {
        let (first, body) = file.split_at(NUMBER.min(file.len()));
        let is_damaged = little(first) != sum(body);
        Numbers {
            rest: if is_damaged { &[] } else { body },
            strings: &[],
            is_damaged,
        }
    }

    /// The strings that follow, each in pieces that come a number of times.
    pub fn strings(&mut self, alloc: Global) -> Vec<Vec<u8>> {
        let mut strings = Vec::new(alloc);
        for _ in 0..self.count() {
            let mut string = Vec::new(alloc);
            for _ in 0..self.count() {
                self.push_piece(&mut string);
            }
            self.is_damaged |= strings.push(string).is_err();
        }
        strings
    }

    fn push_piece(&mut self, string: &mut Vec<u8>) {
        let length = self.next() as usize;
        let piece = self.front(length);
        for _ in 0..self.next().min(MOST_TIMES) {
            self.is_damaged |= string.extend_from_slice(piece).is_err();
        }
    }

    /// The numbers behind these strings, which may have been damaged.
    pub fn behind(rest: &'a [u8], strings: &'a [Vec<u8>], is_damaged: bool) -> Numbers<'a> {
        Numbers {
            rest,
            strings,
            is_damaged,
        }
    }

    /// What is left.
    pub fn rest(&self) -> &'a [u8] {
        self.rest
    }

    /// Whether there is a fault.
    pub fn is_damaged(&self) -> bool {
        self.is_damaged
    }

    /// Keeps a fault.
    pub fn fail(&mut self) {
        self.is_damaged = true;
    }

    // The next bytes, if there are that many.
    fn front(&mut self, length: usize) -> &'a [u8] {
        let (front, rest) = self.rest.split_at(length.min(self.rest.len()));
        self.is_damaged |= front.len() < length;
        self.rest = rest;
        front
    }

    /// The next number: how many bytes it has, and these.
    pub fn next(&mut self) -> u64 {
        let length = little(self.front(1)) as usize;
        self.is_damaged |= length > NUMBER;
        little(self.front(length.min(NUMBER)))
    }

    pub fn flag(&mut self) -> bool {
        self.next() != 0
    }

    /// One more than a bound, or 0 where there is none.
    pub fn bound(&mut self) -> usize {
        match self.next() {
            0 => usize::MAX,
            more => (more as usize).saturating_sub(1),
        }
    }

    /// How many things follow, of which each has a byte or more.
    pub fn count(&mut self) -> usize {
        let count = self.next() as usize;
        self.is_damaged |= count > self.rest.len();
        count.min(self.rest.len())
    }

    /// The string of the next number.
    pub fn string(&mut self) -> &'a [u8] {
        let index = self.next() as usize;
        self.is_damaged |= index >= self.strings.len();
        match self.strings.get(index) {
            Some(string) => string.as_slice(),
            None => &[],
        }
    }

    /// The strings that follow.
    pub fn listed_strings(&mut self, alloc: Global) -> Vec<&'a [u8]> {
        let mut listed = Vec::new(alloc);
        for _ in 0..self.count() {
            let string = self.string();
            self.is_damaged |= listed.push(string).is_err();
        }
        listed
    }

    /// The numbers that follow.
    pub fn listed(&mut self, alloc: Global) -> Vec<usize> {
        let mut listed = Vec::new(alloc);
        for _ in 0..self.count() {
            let number = self.next() as usize;
            self.is_damaged |= listed.push(number).is_err();
        }
        listed
    }
}

// The number in little endian.
fn little(bytes: &[u8]) -> u64 {
    let mut number: u64 = 0;
    for byte in bytes.iter().rev() {
        number = number.wrapping_mul(0x100) | u64::from(*byte);
    }
    number
}
