// Entries of the device page.

ghost use Rattle.std.specs.Prelude.{◌≡◌, Some};
ghost use Rattle.arch_defs.specs.CachedEntries.{device_by, is_device, leaf_of};

use arch_defs::{Access, DEVICE_FRAME, Entry, LeafPte};
use stage_walk::permits_second;

/// Whether an entry is of the device page.
pub fn is_device(entry: &Entry) -> bool
    ensures { result ≡ is_device entry.now }
{
    entry.frame == DEVICE_FRAME
}

/// Whether an access of a kind is on the device page under the entry of its page.
pub fn device_by(mxr: bool, kind: Access, entry: &Entry) -> bool
    ensures { result ≡ device_by mxr kind (Some entry.now) }
{
    permits_second(mxr, kind, &leaf_of(entry)) && is_device(entry)
}

// The leaf of 4 KiB that an entry stands for.
fn leaf_of(entry: &Entry) -> LeafPte
    ensures { result ≡ leaf_of entry.now }
{
    LeafPte {
        frame: entry.frame,
        level: 0,
        r: entry.r,
        w: entry.w,
        x: entry.x,
        u: true,
    }
}
