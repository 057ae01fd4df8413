// Where walks of a guest's tables place an access.

ghost use Rattle.std.specs.Prelude.{◌≡◌, IfSome};
ghost use Rattle.arch_defs.specs.Memory.{ram_memory};
ghost use Rattle.guest_exit.specs.View.{machine_of};
ghost use Rattle.guest_turns.specs.Hosting.{IsHosted};
ghost use Rattle.hlv_hsv.specs.Places.{hlv_place_in};
ghost use Rattle.machine_defs.specs.Lookups.{looked_up};
ghost use Rattle.two_stage_walk.specs.Places.{IsPlaceOf};

use arch_defs::Access;
use guest_exit::Guest;
use op_defs::DataAccess;
use phys_mem::{PhysMem, Ram};
use two_stage_walk::translate;

/// The physical address in RAM of an access of a guest by the walk of its present mode, if it has one.
pub fn place_in(memory: &mut PhysMem, guest: &Guest, va: u64, access: Access) -> Option<u64>
    requires { IsHosted guest.now memory.old }
    ensures place { result ≡ looked_up (machine_of guest.now memory.old) va access }
    ensures inside { IfSome result (λ place.
        IsPlaceOf (ram_memory (machine_of guest.now memory.old).ram) va place) }
    ensures stays { memory.new ≡ memory.old }
{
    let ram = Ram::new(memory, &guest.part);
    let csrs = &guest.virt.csrs;
    match translate(&ram, csrs, guest.virt.mode, va, access, false) {
        Ok(place) => Some(place),
        Err(_) => None,
    }
}

/// The physical address in RAM of the access of an HLV, HLVX or HSV of a guest, if it has one.
pub fn hlv_place_in(memory: &mut PhysMem, guest: &Guest, wanted: &DataAccess) -> Option<u64>
    requires { IsHosted guest.now memory.old }
    ensures place { result ≡ hlv_place_in (ram_memory (machine_of guest.now memory.old).ram)
        guest.now.virt.csrs wanted.now }
    ensures stays { memory.new ≡ memory.old }
{
    let ram = Ram::new(memory, &guest.part);
    hlv_hsv::place(&ram, &guest.virt.csrs, wanted)
}
