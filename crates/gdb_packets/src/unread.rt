// Bytes that have come and are not read yet.

ghost use Rattle.std.specs.Prelude.{◌≡◌, ◌++◌, ◌<◌, ◌≤◌, ◌^◌, [], length, option_map, IfOk, OnErr, OnOk};
ghost use Rattle.gdb_packets.specs.Frames.{message_in};
ghost use Rattle.gdb_packets.specs.Streams.{behind};

use crate::messages::{Beginning, Message, begin_with};
use no_memory::NoMemory;
use std::alloc::Global;
use std::marker::Model;

/// Bytes that have come and are not read yet. Of a packet that is cut it keeps how far its closing was
/// searched for, so that no byte is searched twice, in whatever pieces the packet comes.
#[derive(Drop)]
pub struct Unread {
    bytes: Vec<u8>,
    start: usize,
    searched: usize,
}

impl Model for Unread {
    ghost use Rattle.std.specs.Prelude.{ℕ, List, ◌≤◌, drop, vec_len};
    ghost use Rattle.gdb_packets.specs.Frames.{body_length};

    ghost Value = { List ℕ };

    ghost view = { λ u. drop u.start u.bytes.items };

    // No byte behind the first that was searched is a closing.
    ghost invariant = { λ u. (u.start ≤ vec_len u.bytes)
        × (u.searched ≤ body_length (drop 1 (drop u.start u.bytes.items))) };
}

impl Unread {
    /// No bytes.
    pub fn new(alloc: Global) -> Unread
        ensures { result ≡ [] }
    {
        Unread {
            bytes: Vec::new(alloc),
            start: 0,
            searched: 0,
        }
    }

    /// How many bytes there are.
    pub fn len(&self) -> usize
        ensures { result ≡ length self.now }
    {
        self.bytes.len() - self.start
    }

    // Gives back the memory of bytes that are read.
    fn forget_read(&mut self) -> Result<(), NoMemory>
        ensures { self.new ≡ self.old }
    {
        if self.start > 0 {
            let alloc = *self.bytes.allocator();
            self.bytes = Vec::from_slice(alloc, &self.bytes[self.start..])?;
            self.start = 0;
        }
        Ok(())
    }

    /// Adds a piece that has come.
    #[tactic(auto, using(crate::proofs::Searches::searched_more))]
    pub fn add(&mut self, piece: &[u8]) -> Result<(), NoMemory>
        ensures ok { OnOk result (self.new ≡ self.old ++ piece.now) }
        ensures err { OnErr result (self.new ≡ self.old) }
    {
        self.forget_read()?;
        self.bytes.extend_from_slice(piece)?;
        Ok(())
    }

    /// Takes the message that the bytes begin with; nothing where there is none, or where it is cut. It may
    /// answer out of memory, and then nothing is taken.
    #[tactic(auto, using(crate::proofs::Searches::whole_within))]
    pub fn next(&mut self, alloc: Global) -> Result<Option<Message>, NoMemory>
        requires { length self.old < 2 ^ 62 }
        ensures message { IfOk result (λ message.
            message ≡ option_map (λ received. received.message) (message_in self.old)) }
        ensures rest { OnOk result (self.new ≡ behind (message_in self.old) self.old) }
        ensures err { OnErr result (self.new ≡ self.old) }
    {
        match begin_with(alloc, &self.bytes[self.start..], self.searched)? {
            Beginning::Cut(searched) => {
                self.searched = searched;
                Ok(None)
            }
            Beginning::Whole(received) => {
                self.start += received.length;
                self.searched = 0;
                Ok(Some(received.message))
            }
        }
    }
}
