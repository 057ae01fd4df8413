// Uses of cached translations.

ghost use Rattle.std.specs.Prelude.{◌≡◌};
ghost use Rattle.run_log.specs.Stale.{cached_frame, has_another_frame, translation_of};

use crate::translations::{first_translation, second_translation};
use arch_defs::{Access, Entry, FirstEntry, GuestRoot};
use log_lines::{Leaf, Translation};

/// A cached translation of the first stage serves an access at a virtual address; one of the second an access
/// at a guest physical address.
#[derive(Clone, Copy)]
pub enum Use {
    First(FirstEntry, u64, Access),
    Second(Entry, u64, Access),
}

// What a buffer of uses holds before it is filled.
impl Default for Use {
    fn default() -> Use {
        let entry = Entry {
            page: 0,
            frame: 0,
            r: false,
            w: false,
            x: false,
            level: 0,
        };
        Use::Second(entry, 0, Access::Fetch)
    }
}

/// A used translation as the log names it, of the second stage for this hgatp.
pub fn translation_of(hgatp: GuestRoot, used: &Use) -> Translation
    ensures { result ≡ translation_of hgatp used.now }
{
    match used {
        Use::First(entry, ..) => first_translation(entry),
        Use::Second(entry, ..) => second_translation(hgatp, entry),
    }
}

fn cached_frame(used: &Use) -> u64
    ensures { result ≡ cached_frame used.now }
{
    match used {
        Use::First(entry, ..) => entry.frame,
        Use::Second(entry, ..) => entry.frame,
    }
}

/// Whether a use is stale, by the leaf that the tables give now.
pub fn is_stale(used: &Use, walked: &Option<Leaf>) -> bool
    ensures { result ≡ has_another_frame (cached_frame used.now) walked.now }
{
    match walked {
        Some(leaf) => leaf.frame != cached_frame(used),
        None => true,
    }
}
