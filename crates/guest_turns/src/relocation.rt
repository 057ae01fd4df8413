// Moves of blocks.

ghost use Rattle.std.specs.Prelude.{◌≡◌, ◌+◌, ◌^◌, ◌<◌, [], ◌∷◌, length};
ghost use Rattle.arch_defs.specs.Frames.{Apart, LieIn, in_blocks};
ghost use Rattle.arch_defs.specs.Layouts.{named_by};
ghost use Rattle.guest_turns.specs.Hosting.{IsHosted};
ghost use Rattle.guest_turns.specs.Moves.{IsShifted};

use block_moves::move_block;
use guest_exit::Guest;
use phys_mem::PhysMem;
use std::marker::Model;
use thiserror::Error;

/// Why a block was not moved.
#[derive(Clone, Copy, Debug, PartialEq, Eq, Error)]
pub enum MoveFault {
    #[error("no block is free")]
    NoSpare,
}

/// How many blocks were moved. Only the host raises it, and there is no way to copy it.
#[derive(Drop)]
pub struct Moves {
    count: u64,
}

impl Model for Moves {
    ghost use Rattle.std.specs.Prelude.{ℕ};

    ghost Value = { ℕ };

    ghost view = { λ m. m.count };
}

impl Moves {
    /// None.
    pub fn new() -> Moves
        ensures { result ≡ 0 }
    {
        Moves { count: 0 }
    }

    /// How many there were.
    pub fn count(&self) -> u64
        ensures { result ≡ self.now }
    {
        self.count
    }

    // One more.
    pub(crate) fn raise(&mut self)
        requires { self.old < 2 ^ 62 }
        ensures { self.new ≡ self.old + 1 }
    {
        self.count += 1;
    }
}

/// Moves block `i` of a guest to the block `to` of machine memory, which no frame of its part is in. Its lone
/// machine is the same.
pub fn shift(guest: &mut Guest, memory: &mut PhysMem, i: usize, to: u32)
    requires hosted { IsHosted guest.old memory.old }
    requires index { i < length guest.old.part.blocks }
    requires free { Apart (in_blocks (to ∷ [])) (named_by guest.old.part) }
    requires lies { LieIn (in_blocks (to ∷ [])) (length memory.old) }
    ensures shifted { IsShifted guest.old memory.old i to guest.new memory.new }
{
    let part = move_block(memory, &guest.part, &mut guest.pool, i, to);
    part.names_each_once();
    guest.part = part;
}
