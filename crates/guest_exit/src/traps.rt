// Traps that the host takes for a guest.

ghost use Rattle.std.specs.Prelude.{◌≡◌};
ghost use Rattle.arch_defs.specs.Traps.{entered_by_trap, target};

use arch_defs::{Level, Trap, Virtual};
use trap_delegation::{enter_hs, enter_vs, target};

/// Takes a trap where it goes: into the guest's VS if that is delegated with V = 1, or into its HS
/// (Privileged Architecture 20211203, 8.2.2 and 8.6.2). Answers where it went.
#[tactic(auto, unfolding(arch_defs::specs::Traps::target))]
pub fn take(virt: &mut Virtual, trap: &Trap) -> Level
    ensures enters { virt.new ≡ entered_by_trap virt.old trap.now }
    ensures level { result ≡ target virt.old.csrs virt.old.mode trap.now }
{
    let level = target(&virt.csrs, virt.mode, trap);
    match level {
        Level::HS => virt.mode = enter_hs(&mut virt.csrs, &mut virt.regs, virt.mode, trap),
        Level::VS => virt.mode = enter_vs(&mut virt.csrs, &mut virt.regs, virt.mode, trap),
    }
    level
}
