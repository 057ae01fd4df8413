// One guest on the hart, as what runs a machine.

ghost use Rattle.std.specs.Prelude.{◌≡◌, ◌↔◌, ◌/◌, ◌<◌, ◌≤◌, ◌∷◌, [], IfOk, IsTrue, ℕ, false};
ghost use Rattle.arch_defs.specs.Frames.{most_frames};
ghost use Rattle.frame_split.specs.Shares.{frames_with};
ghost use Rattle.guest_save.specs.Reading.{machine_in};
ghost use Rattle.guest_turns.specs.Hosted.{is_set, machine_at};
ghost use Rattle.guest_turns.specs.Sources.{machine_of_source, need_of_source, IsBootableSource};
ghost use Rattle.debug_runs.specs.HostRuns.{HasOne, IsForm};

use arch_defs::{Access, Virtual};
use form_pool::FormPool;
use guest_save::{SaveEnd, Snapshot, read, reading_is_exact};
use guest_turns::{Host, Source, turns_count_alike};
use machine_defs::{Name, Status};
use no_memory::NoMemory;
use phys_mem::{BLOCK_SIZE, RAM_BASE};
use run_positions::Runner;
use rv64_hart::Tally;
use std::alloc::Global;
use std::marker::Model;

/// A host of one guest, which contracts see as the guest's lone machine.
#[derive(Drop)]
pub struct HostRun {
    host: Host,
}

impl Model for HostRun {
    ghost use Rattle.debug_runs.specs.HostRuns.{HasOne};
    ghost use Rattle.guest_turns.specs.Hosted.{machine_at};
    ghost use Rattle.machine_defs.specs.Machine.{Machine};

    ghost Value = { Machine };

    ghost view = { λ run. machine_at run.host.machines 0 };

    ghost invariant = { λ run. HasOne run.host };
}

impl HostRun {
    /// The guest of a source, alone.
    pub fn new(alloc: Global, source: Source) -> Result<HostRun, NoMemory>
        requires { IsBootableSource source }
        ensures { IfOk result (λ run. run ≡ machine_of_source source) }
    {
        Ok(HostRun {
            host: booted(alloc, source)?,
        })
    }
}

// A guest alone needs no more frames than machine memory has.
fn needs_few_frames(source: &Source)
    requires { IsBootableSource source.now }
    ensures { frames_with (need_of_source source.now ∷ []) 0 ≤ most_frames }
{
    let _frames = source.need().frames();
}

/// A host of the guest of a source alone.
pub fn booted(alloc: Global, source: Source) -> Result<Host, NoMemory>
    requires { IsBootableSource source }
    ensures machines { IfOk result (λ host. host.machines ≡ machine_of_source source ∷ []) }
    ensures active { IfOk result (λ host. (g : ℕ) → is_set host.retired g ≡ false) }
{
    needs_few_frames(&source);
    let mut sources = Vec::new(alloc);
    sources.push(source)?;
    Host::boot_from(alloc, sources, 0)
}

// Whether the block of an offset into RAM is one of that many.
fn is_backed(offset: u64, blocks: u64) -> bool
    ensures { IsTrue result ↔ (offset / 2097152 < blocks) }
{
    offset / BLOCK_SIZE < blocks
}

impl Runner for HostRun {
    ghost machine = { λ run. run };

    ghost is_form = { IsForm };

    ghost machine_in = { machine_in };

    // The tally is new, so that it has room for each turn.
    fn run(&mut self, k: u64) {
        turns_count_alike();
        self.host.rooms_are_small();
        self.host.turn(0, k, &mut Tally::new());
    }

    fn steps(&self) -> u64 {
        self.host.steps(0)
    }

    fn status(&self) -> Status {
        self.host.status(0)
    }

    fn state(&self) -> &Virtual {
        self.host.state(0)
    }

    #[tactic(auto, using(crate::proofs::OneGuest::bytes_of_ram))]
    fn byte(&self, offset: u64) -> u8 {
        let view = self.host.view(0);
        view.has_whole_blocks();
        if is_backed(offset, view.header().blocks) {
            view.byte(offset)
        } else {
            0
        }
    }

    fn offset(&mut self, va: u64) -> Option<u64> {
        match self.host.place(0, va, Access::Load) {
            Some(place) => Some(place - RAM_BASE),
            None => None,
        }
    }

    fn keep(&self, forms: &mut FormPool) -> Result<(), NoMemory> {
        reading_is_exact();
        self.host.can_be_saved(0);
        match self.host.save(0, forms) {
            Ok(()) => Ok(()),
            Err(_) => Err(NoMemory),
        }
    }

    fn bring_back(&mut self, alloc: Global, form: &[u8]) -> Result<(), NoMemory> {
        match read(alloc, form) {
            Ok(saved) => {
                saved.can_be_saved();
                let name = Name::from_vec(Vec::new(alloc));
                self.host = booted(alloc, Source::Kept(name, saved))?;
                Ok(())
            }
            Err(SaveEnd::NoMemory) => Err(NoMemory),
            Err(SaveEnd::Bad) => unreachable!(),
        }
    }
}
