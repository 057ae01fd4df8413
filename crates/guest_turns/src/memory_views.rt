// A guest in machine memory, as a machine that can be written.

ghost use Rattle.std.specs.Prelude.{◌≡◌, ◌*◌, ◌^◌, ◌<◌, ◌≤◌, length, slice_index};
ghost use Rattle.std.specs.List.{sum_by};
ghost use Rattle.arch_defs.specs.Memory.{block_size};
ghost use Rattle.guest_exit.specs.View.{machine_of};
ghost use Rattle.guest_save.specs.Headers.{blocks_of};
ghost use Rattle.guest_save.specs.Savable.{IsSavable};
ghost use Rattle.guest_turns.specs.Hosting.{IsHosted};
ghost use Rattle.guest_turns.specs.Saving.{MayBeSaved};

use arch_defs::{Entry, FirstBuffer, FirstEntry, GuestRoot};
use guest_exit::Guest;
use guest_save::{Header, Snapshot, numbers_fit};
use phys_mem::{BLOCK_SIZE, PhysMem};
use std::marker::Model;

/// A guest with the memory that it is in, which contracts see as its lone machine.
#[derive(Drop)]
pub struct MemoryView<'a> {
    guest: &'a Guest,
    memory: &'a PhysMem,
}

impl<'a> Model for MemoryView<'a> {
    ghost use Rattle.machine_defs.specs.Machine.{Machine};
    ghost use Rattle.guest_exit.specs.View.{machine_of};
    ghost use Rattle.guest_turns.specs.Hosting.{IsHosted};

    ghost Value = { Machine };

    ghost view = { λ v. machine_of v.guest.now v.memory.now };

    ghost invariant = { λ v. IsHosted v.guest.now v.memory.now };
}

impl<'a> MemoryView<'a> {
    /// A guest in the memory that has its part.
    pub fn of(guest: &'a Guest, memory: &'a PhysMem) -> MemoryView<'a>
        requires { IsHosted guest.now memory.now }
        ensures { result ≡ machine_of guest.now memory.now }
    {
        MemoryView { guest, memory }
    }

    /// The machine can be saved, where it has what a host does not keep of it.
    pub fn can_be_saved(&self)
        ensures { MayBeSaved self.now → IsSavable self.now }
    {
        numbers_fit(self.header());
        let console = &self.guest.console;
        let _put = console.bytes();
        let _unread = console.unread();
    }

    /// How many translations of the second stage it has cached.
    #[tactic(auto, using(crate::proofs::SpaceCounts::all_counted))]
    pub fn second_count(&self) -> u64
        ensures { result ≡ sum_by (λ space. length space.entries) self.now.spaces }
    {
        self.has_few_cached();
        let mut count = 0;
        for space in 0..self.held() {
            count += self.len(space);
        }
        count
    }

    // They are few.
    fn has_few_cached(&self)
        ensures { sum_by (λ space. length space.entries) self.now.spaces ≤ 2 ^ 24 }
    {
        let _ = &self.guest;
    }

    /// The byte at an offset into its RAM.
    pub fn byte(&self, offset: u64) -> u8
        requires { offset < length self.now.ram }
        ensures { result ≡ slice_index self.now.ram offset }
    {
        self.has_whole_blocks();
        self.block(offset / BLOCK_SIZE)[(offset % BLOCK_SIZE) as usize]
    }

    /// Its RAM is of whole blocks.
    pub fn has_whole_blocks(&self)
        ensures { length self.now.ram ≡ blocks_of self.now * block_size }
    {
        let _ = &self.guest;
    }
}

impl Snapshot for MemoryView<'_> {
    ghost machine = { λ m. m };

    #[tactic(auto, using(crate::proofs::ShownBlocks::header_shown))]
    fn header(&self) -> Header {
        let guest = self.guest;
        let mut state = guest.virt;
        state.first = FirstBuffer::new();
        Header {
            blocks: guest.part.blocks().len() as u64,
            spaces: guest.pool.room(),
            entries: guest.pool.most(),
            console: guest.console.room(),
            status: guest.status,
            steps: guest.steps,
            time: guest.clock.now(),
            timer: guest.clock.timer(),
            state,
            device: guest.device,
        }
    }

    fn console(&self) -> &[u8] {
        self.guest.console.bytes()
    }

    fn inputs(&self) -> &[(u64, u8)] {
        self.guest.console.unread()
    }

    fn held(&self) -> u64 {
        self.guest.pool.held()
    }

    fn key(&self, space: u64) -> GuestRoot {
        self.guest.pool.key(space).root()
    }

    fn len(&self, space: u64) -> u64 {
        self.guest.pool.len(space)
    }

    fn entry(&self, space: u64, place: u64) -> Entry {
        self.guest.pool.entry(space, place)
    }

    fn first(&self) -> &[FirstEntry] {
        self.guest.virt.first.as_slice()
    }

    fn block(&self, number: u64) -> &[u8] {
        let block = self.guest.part.blocks()[number as usize];
        self.memory.block(block as u64)
    }
}
