// A guest on the hart.

ghost use Rattle.std.specs.Prelude.{◌≡◌, ◌+◌, ◌^◌, ◌<◌};
ghost use Rattle.arch_defs.specs.Traps.{is_virtual};
ghost use Rattle.arch_defs.specs.WalkedEntries.{folds};
ghost use Rattle.machine_defs.specs.Machine.{made_by, ticked, with_pending_lines};
ghost use Rattle.guest_exit.specs.HartEntry.{moved, taken_back};
ghost use Rattle.guest_exit.specs.Steps.{HasRoomForSteps, HasStepped};
ghost use Rattle.guest_exit.specs.View.{KeepsSpaces, platform_of};

use arch_defs::{HartState, Part, Virtual};
use console_dev::Console;
use machine_defs::Status;
use shadow_pool::Pool;
use virtual_timer::Clock;
use world_switch::{fix_up, save};

/// What the host keeps of a guest beside the bytes of machine memory, which has its RAM and its tables.
/// Contracts see it with the RAM as the lone machine.
#[derive(Drop)]
pub struct Guest {
    pub part: Part,
    pub virt: Virtual,
    pub pool: Pool,
    pub clock: Clock,
    pub console: Console,
    pub status: Status,
    pub steps: u64,
    pub device: bool,
}

impl Guest {
    /// Sets the registers that the clock sets: the pending timer and external interrupt of sip, and time
    /// (Privileged Architecture 20211203, 4.1.3).
    pub fn set_pending_lines(&mut self)
        ensures platform { platform_of self.new ≡ with_pending_lines (platform_of self.old) }
        ensures stays { (self.new.status ≡ self.old.status) × (self.new.steps ≡ self.old.steps)
            × (self.new.clock ≡ self.old.clock) }
        ensures keeps { KeepsSpaces self.old self.new }
    {
        let time = self.clock.now();
        self.virt.csrs.sip.timer = self.clock.due();
        self.virt.csrs.sip.external = self.console.has_input(time);
        self.virt.csrs.time = time;
    }

    /// A step has been made, which was not a wait.
    pub(crate) fn tick(&mut self)
        requires clock { self.old.clock.time < 2 ^ 63 }
        requires steps { self.old.steps < 2 ^ 61 }
        ensures platform { platform_of self.new ≡ ticked (platform_of self.old) }
        ensures goes { HasStepped 1 self.old self.new }
    {
        self.clock.step();
        self.count();
    }

    /// A step has been made, after which the clock is where it is now.
    pub(crate) fn count(&mut self)
        requires steps { self.old.steps < 2 ^ 61 }
        ensures platform { platform_of self.new ≡ made_by (platform_of self.old) self.old.clock.time }
        ensures made { self.new.steps ≡ self.old.steps + 1 }
        ensures clock { self.new.clock ≡ self.old.clock }
        ensures status { self.new.status ≡ self.old.status }
        ensures keeps { KeepsSpaces self.old self.new }
    {
        self.steps += 1;
        self.set_pending_lines();
    }

    /// The hart has made `taken` steps for the guest, and the last was a trap into VS if `trapped` is set.
    /// After none of them the guest has what the hart has for it.
    #[inline(always)]
    pub(crate) fn take_steps(&mut self, hart: &HartState, trapped: bool, taken: u64)
        requires room { HasRoomForSteps taken self.old }
        requires current { with_pending_lines (platform_of self.old) ≡ platform_of self.old }
        requires none { taken ≡ 0 → platform_of self.old ≡ moved (platform_of self.old)
            (taken_back self.old.part hart.now.virt trapped self.old.virt) taken }
        ensures platform { platform_of self.new ≡ moved (platform_of self.old)
            (taken_back self.old.part hart.now.virt trapped self.old.virt) taken }
        ensures current { with_pending_lines (platform_of self.new) ≡ platform_of self.new }
        ensures goes { HasStepped taken self.old self.new }
    {
        if taken == 0 {
            return;
        }
        take_back(hart, &self.part, trapped, &mut self.virt);
        self.clock.advance(taken);
        self.steps += taken;
        self.set_pending_lines();
    }
}

// Gives the guest that has this part what the hart has for it, after a run whose last step was a trap into VS
// or was not. Such a trap from V = 0 is one into HS, which sets more than the hart has for the guest.
#[inline(always)]
fn take_back(hart: &HartState, part: &Part, trapped: bool, virt: &mut Virtual)
    ensures { virt.new ≡ taken_back part.now hart.now.virt trapped virt.old }
{
    let into_hs = trapped && !virt.mode.is_virtual();
    save(hart, part, virt);
    if into_hs {
        fix_up(virt);
    }
}

/// Whether a state's accesses go by cached translations: with V = 1, while hgatp names a table.
pub(crate) fn folds(virt: &Virtual) -> bool
    ensures { result ≡ folds virt.now }
{
    virt.mode.is_virtual() && virt.csrs.hgatp.is_table()
}
