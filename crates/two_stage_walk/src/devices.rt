// Accesses to the device page.

ghost use Rattle.std.specs.Prelude.{◌≡◌};
ghost use Rattle.arch_defs.specs.Devices.{is_on_device};

use arch_defs::DEVICE_FRAME;

/// Whether a guest physical address is on the device page.
pub fn is_on_device(place: u64) -> bool
    ensures { result ≡ is_on_device place }
{
    place / 4096 == DEVICE_FRAME
}
