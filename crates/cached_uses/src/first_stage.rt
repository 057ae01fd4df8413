// The cached translation of the first stage that serves an access.

ghost use Rattle.std.specs.Prelude.{◌≡◌, ◌/◌, IfSome, find};
ghost use Rattle.arch_defs.specs.FirstEntries.{HasGuestFrame, is_first_of};
ghost use Rattle.arch_defs.specs.Translation.{privilege_of};
ghost use Rattle.machine_defs.specs.FirstLeaves.{tag_of};
ghost use Rattle.cached_uses.specs.Serving.{first_permitted, first_served};

use arch_defs::{Access, FirstEntry, SupervisorRoot, Virtual};
use stage_walk::permits_first;
use two_stage_walk::{privilege_of, supervisor_of};
use world_switch::tag_of;

// The one under a value of satp or vsatp.
fn served_under(virt: &Virtual, atp: &SupervisorRoot, va: u64, access: Access) -> Option<FirstEntry>
    ensures value { result ≡ first_permitted (privilege_of virt.now.csrs virt.now.mode) access
        (find (is_first_of (tag_of virt.now) atp.now (va / 4096)) virt.now.first) }
    ensures fits { IfSome result HasGuestFrame }
{
    match virt.first.entry_of(&tag_of(virt), atp, va / 4096) {
        Some(entry) => {
            if permits_first(privilege_of(&virt.csrs, virt.mode), access, &entry.leaf()) {
                Some(*entry)
            } else {
                None
            }
        }
        None => None,
    }
}

/// The cached translation of the first stage that serves an access at a virtual address, if there is one.
pub fn first_served(virt: &Virtual, va: u64, access: Access) -> Option<FirstEntry>
    ensures value { result ≡ first_served virt.now va access }
    ensures fits { IfSome result HasGuestFrame }
{
    let atp = supervisor_of(&virt.csrs, virt.mode).atp;
    match atp {
        SupervisorRoot::Bare => None,
        SupervisorRoot::Table { .. } => served_under(virt, &atp, va, access),
    }
}
