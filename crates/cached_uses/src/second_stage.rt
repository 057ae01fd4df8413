// The cached translation of the second stage that serves an access.

ghost use Rattle.std.specs.Prelude.{◌≡◌, ◌+◌, ◌<◌, option_map};
ghost use Rattle.arrayvec.specs.ArrayVec.{array_vec_len};
ghost use Rattle.arch_defs.specs.CachedEntries.{entry_at, leaf_of};
ghost use Rattle.arch_defs.specs.WalkedEntries.{folds};
ghost use Rattle.run_log.specs.Uses.{second_uses};
ghost use Rattle.cached_uses.specs.Serving.{AddsUses, second_served};

use arch_defs::{Access, Entry, LeafPte, Virtual};
use arrayvec::ArrayVec;
use run_log::Use;
use stage_walk::permits_second;

/// The entry of a page.
pub fn entry_at(entries: &[Entry], page: u64) -> Option<&Entry>
    ensures { option_map (λ e. e.now) result ≡ entry_at page entries.now }
{
    entries.iter().find(|entry| entry.page == page)
}

/// The leaf of 4 KiB that an entry stands for.
pub fn leaf_of(entry: &Entry) -> LeafPte
    ensures { result ≡ leaf_of entry.now }
{
    LeafPte {
        frame: entry.frame,
        level: 0,
        r: entry.r,
        w: entry.w,
        x: entry.x,
        u: true,
    }
}

/// Whether a state's accesses go by cached translations of the second stage.
pub fn folds(virt: &Virtual) -> bool
    ensures { result ≡ folds virt.now }
{
    virt.mode.is_virtual() && virt.csrs.hgatp.is_table()
}

// The translation that serves an access at a guest physical address, if there is one.
fn second_served(virt: &Virtual, entries: &[Entry], address: u64, kind: Access) -> Option<Entry>
    ensures { result ≡ second_served virt.now entries.now address kind }
{
    if !folds(virt) {
        return None;
    }
    match entry_at(entries, address / 4096) {
        Some(entry) => {
            if permits_second(virt.csrs.hs.status.mxr, kind, &leaf_of(entry)) {
                Some(*entry)
            } else {
                None
            }
        }
        None => None,
    }
}

/// Adds the use of the second stage by an access at a guest physical address, if there is one.
#[tactic(auto, using(crate::proofs::Lists::second_rules))]
pub fn add_second(
    uses: &mut ArrayVec<Use, 10>,
    virt: &Virtual,
    entries: &[Entry],
    address: u64,
    kind: Access,
)
    requires { array_vec_len uses.old < 10 }
    ensures { AddsUses 1 uses.old uses.new (second_uses virt.now entries.now address kind) }
{
    match second_served(virt, entries, address, kind) {
        Some(entry) => uses.push(Use::Second(entry, address, kind)),
        None => {}
    }
}
