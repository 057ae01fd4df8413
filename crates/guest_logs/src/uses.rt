// What a guest's next step uses of what is cached, and what its tables give now.

ghost use Rattle.std.specs.Prelude.{◌≡◌};
ghost use Rattle.arch_defs.specs.Memory.{ram_memory};
ghost use Rattle.arch_defs.specs.Spaces.{front};
ghost use Rattle.cached_uses.specs.StepUses.{step_uses};
ghost use Rattle.run_log.specs.Stale.{leaf_now};

use arrayvec::ArrayVec;
use cached_uses::{leaf_by_tables, step_uses};
use guest_exit::Guest;
use guest_turns::Question;
use log_lines::Leaf;
use op_defs::DataAccess;
use phys_mem::Ram;
use run_log::Use;

/// By which cached translations the next step goes, whose instruction wants this access to data.
#[derive(Drop)]
pub struct NextUses {
    pub wanted: Option<DataAccess>,
}

impl Question for NextUses {
    type Answer = ArrayVec<Use, 10>;

    ghost answers = { λ asked m uses. uses.items
        ≡ step_uses m.platform.virt (front m.spaces) (ram_memory m.ram) asked.wanted };

    fn answer(&self, guest: &Guest, ram: &Ram<'_>, answer: &mut ArrayVec<Use, 10>) {
        step_uses(
            answer,
            &guest.virt,
            guest.pool.front_entries(),
            ram,
            self.wanted,
        );
    }
}

/// What the tables give now for the access of a use.
#[derive(Drop)]
pub struct LeafNow<'a> {
    pub used: &'a Use,
}

impl Question for LeafNow<'_> {
    type Answer = Option<Leaf>;

    ghost answers = { λ asked m leaf. leaf ≡ leaf_now m asked.used.now };

    fn answer(&self, guest: &Guest, ram: &Ram<'_>, answer: &mut Option<Leaf>) {
        *answer = leaf_by_tables(guest.device, &guest.virt, ram, self.used);
    }
}
