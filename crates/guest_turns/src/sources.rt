// Where guests come from.

ghost use Rattle.std.specs.Prelude.{◌≡◌, ◌*◌, ◌≤◌, length, map, IfOk};
ghost use Rattle.arch_defs.specs.Memory.{block_size, loaded};
ghost use Rattle.guest_turns.specs.Sources.{IsBootableSource, blocks_of_source, machine_of_source, need_of_source};
ghost use Rattle.guest_turns.specs.declared.sources.Source.TheVariants.{Fresh};

use arch_defs::Need;
use guest_save::Saved;
use guest_settings::Name;
use machine_defs::GuestSpec;
use no_memory::NoMemory;
use std::alloc::Global;

/// Where a guest comes from: from what it is given, or, with its name, from a machine that was saved.
#[derive(Drop)]
pub enum Source {
    Fresh(GuestSpec),
    Kept(Name, Saved),
}

impl Source {
    /// What the guest needs of machine memory.
    pub fn need(&self) -> Need
        ensures { result ≡ need_of_source self.now }
    {
        match self {
            Source::Fresh(spec) => spec.need(),
            Source::Kept(_, saved) => saved.need(),
        }
    }

    /// The bytes that its RAM begins with, behind which it is zeros.
    #[tactic(auto, using(crate::proofs::Savables::fresh_ram, crate::proofs::Savables::kept_fits, crate::proofs::Savables::kept_ram))]
    pub(crate) fn image(&self) -> &[u8]
        requires { IsBootableSource self.now }
        ensures fits { length result.now ≤ blocks_of_source self.now * block_size }
        ensures ram { loaded (blocks_of_source self.now * block_size) result.now
            ≡ (machine_of_source self.now).ram }
    {
        match self {
            Source::Fresh(spec) => spec.image.as_slice(),
            Source::Kept(_, saved) => saved.ram(),
        }
    }
}

/// Guests from what they are given.
pub fn fresh_sources(alloc: Global, specs: Vec<GuestSpec>) -> Result<Vec<Source>, NoMemory>
    ensures { IfOk result (λ sources. sources.items ≡ map Fresh specs.items) }
{
    let mut sources = Vec::with_capacity(alloc, specs.len())?;
    for spec in specs {
        sources.push(Source::Fresh(spec))?;
    }
    Ok(sources)
}
