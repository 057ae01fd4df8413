// The console of a guest.

ghost use Rattle.std.specs.Prelude.{◌≡◌, ◌≢◌, ◌↔◌, ◌<◌, ◌≤◌, [], ◌∷◌, ◌++◌, true, false, length, not, All, IfOk, IsTrue};
ghost use Rattle.arch_defs.specs.Consoles.{has_room};
ghost use Rattle.guest_settings.specs.Inputs.{AreInputs};
ghost use Rattle.arch_defs.specs.Inputs.{arrived_byte, has_input, next_input, unread_after};

use no_memory::NoMemory;
use std::alloc::Global;
use std::marker::Model;

/// The bytes that a guest has put, and its inputs: bytes that are there for it, each from a moment of its
/// clock on. All room is taken when it is made: no other call takes memory.
#[derive(Drop)]
pub struct Console {
    bytes: Vec<u8>,
    room: u64,
    inputs: Vec<(u64, u8)>,
    // How many of the inputs have been read.
    read: usize,
}

impl Model for Console {
    ghost use Rattle.arch_defs.specs.Consoles.{ConsoleState};

    ghost Value = { ConsoleState };

    ghost use Rattle.console_dev.specs.View.{IsSound, console_state};

    ghost view = { console_state };

    ghost invariant = { IsSound };
}

impl Console {
    /// An empty console with room for that many bytes, and these inputs, all unread. An input is a pair of a
    /// moment and a byte.
    ///
    /// # Errors
    ///
    /// Out of memory.
    pub fn new(alloc: Global, room: u64, inputs: Vec<(u64, u8)>) -> Result<Console, NoMemory>
        requires inputs { AreInputs inputs.items }
        ensures { IfOk result (λ c. c ≡ record { bytes = []; room = room; inputs = inputs.items }) }
    {
        Console::resume(alloc, room, &[], inputs)
    }

    /// A console with room for that many bytes, which has these already, and these inputs, all unread: one
    /// that goes on from there.
    ///
    /// # Errors
    ///
    /// Out of memory.
    pub fn resume(
        alloc: Global,
        room: u64,
        bytes: &[u8],
        inputs: Vec<(u64, u8)>,
    ) -> Result<Console, NoMemory>
        requires room { length bytes.now ≤ room }
        requires inputs { AreInputs inputs.items }
        ensures { IfOk result (λ c. c ≡ record { bytes = bytes.now; room = room; inputs = inputs.items }) }
    {
        let mut put = Vec::with_capacity(alloc, room as usize)?;
        put.extend_from_slice(bytes)?;
        Ok(Console {
            bytes: put,
            room,
            inputs,
            read: 0,
        })
    }

    /// Puts a byte, if there is room for it. Else the byte is dropped, and the answer is false.
    pub fn put(&mut self, byte: u8) -> bool
        ensures room { result ≡ has_room self.old }
        ensures put { result ≡ true → self.new ≡ record self.old { bytes = self.old.bytes ++ byte ∷ [] } }
        ensures full { result ≢ true → self.new ≡ self.old }
    {
        if self.has_room() {
            self.bytes.push_reserved(byte);
            true
        } else {
            false
        }
    }

    /// Reads the first unread input whose moment has come by this clock, if there is one.
    pub fn get(&mut self, clock: u64) -> Option<u8>
        ensures byte { result ≡ arrived_byte self.old.inputs clock }
        ensures read { self.new ≡ record self.old { inputs = unread_after self.old.inputs clock } }
        ensures none { (result ≡ None) ↔ All (λ input. clock < input.0) self.old.inputs }
    {
        match self.unread().first() {
            Some(&(moment, byte)) if moment <= clock => {
                self.read += 1;
                Some(byte)
            }
            _ => None,
        }
    }

    /// The moment of the first unread input; none where all are read.
    pub fn next(&self) -> Option<u64>
        ensures { result ≡ next_input self.now.inputs }
    {
        match self.unread().first() {
            Some(&(moment, _)) => Some(moment),
            None => None,
        }
    }

    /// Whether an unread input's moment has come by this clock.
    pub fn has_input(&self, clock: u64) -> bool
        ensures first { result ≡ has_input self.now.inputs clock }
        ensures none { (result ≡ false) ↔ All (λ input. clock < input.0) self.now.inputs }
    {
        match self.unread().first() {
            Some(&(moment, _)) => moment <= clock,
            None => false,
        }
    }

    // Whether there is room for another byte.
    fn has_room(&self) -> bool
        ensures { result ≡ has_room self.now }
    {
        (self.bytes.len() as u64) < self.room
    }

    /// Whether there is no room for another byte.
    pub fn is_full(&self) -> bool
        ensures full { IsTrue result ↔ (length self.now.bytes ≡ self.now.room) }
        ensures room { result ≡ not (has_room self.now) }
    {
        self.bytes.len() as u64 == self.room
    }

    /// How many bytes may be put.
    pub fn room(&self) -> u64
        ensures { result ≡ self.now.room }
    {
        self.room
    }

    /// The bytes that were put.
    pub fn bytes(&self) -> &[u8]
        ensures bytes { result.now ≡ self.now.bytes }
        ensures within { length result.now ≤ self.now.room }
    {
        self.bytes.as_slice()
    }

    /// The inputs that are unread, in the order of their moments: such as a console may be given.
    pub fn unread(&self) -> &[(u64, u8)]
        ensures inputs { result.now ≡ self.now.inputs }
        ensures given { AreInputs result.now }
    {
        &self.inputs.as_slice()[self.read..]
    }
}
