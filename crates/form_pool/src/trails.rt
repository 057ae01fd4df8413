// Which chunks the blocks of RAM had last.

use std::alloc::Global;

/// The numbers of the chunks that the blocks of the form before had, in order, and how many chunks of blocks
/// the present form has so far. It says where to look first, so nothing that is proved rests on it.
#[derive(Drop)]
pub struct Trail {
    numbers: Vec<usize>,
    place: usize,
}

impl Trail {
    /// No form yet.
    pub fn new(alloc: Global) -> Trail {
        Trail {
            numbers: Vec::new(alloc),
            place: 0,
        }
    }

    /// A new form begins.
    pub fn restart(&mut self) {
        self.place = 0;
    }

    /// The chunk that stood here in the form before.
    pub fn guess(&self) -> Option<usize> {
        self.numbers.get(self.place).copied()
    }

    /// The present form has this chunk here. Out of memory, it is not noted.
    pub fn note(&mut self, number: usize) {
        if self.place < self.numbers.len() {
            self.numbers[self.place] = number;
        } else {
            let _ = self.numbers.push(number);
        }
        self.place = self.place.saturating_add(1);
    }
}
