// Cached translations as the log names them.

ghost use Rattle.std.specs.Prelude.{◌≡◌};
ghost use Rattle.run_log.specs.Fills.{leaf_of_first, first_translation, hgatp_of, leaf_of_second, second_translation};

use arch_defs::{Entry, FirstEntry, GuestRoot, Tag};
use csr_file::satp_bits;
use log_lines::{Leaf, Stage, Translation};

/// The leaf of a cached translation of the second stage; each leaf of such a table has U.
pub fn leaf_of_second(entry: &Entry) -> Leaf
    ensures { result ≡ leaf_of_second entry.now }
{
    Leaf {
        frame: entry.frame,
        r: entry.r,
        w: entry.w,
        x: entry.x,
        u: true,
        level: entry.level,
    }
}

/// That of one of the first stage.
pub fn leaf_of_first(entry: &FirstEntry) -> Leaf
    ensures { result ≡ leaf_of_first entry.now }
{
    Leaf {
        frame: entry.frame,
        r: entry.r,
        w: entry.w,
        x: entry.x,
        u: entry.u,
        level: entry.level,
    }
}

// hgatp, where the accesses are with V = 1.
fn hgatp_of(tag: Tag) -> Option<u64>
    ensures { result ≡ hgatp_of tag }
{
    match tag {
        Tag::Flat => None,
        Tag::Nested(hgatp) => Some(hgatp.bits()),
    }
}

/// A cached translation of the second stage, for this hgatp.
pub fn second_translation(hgatp: GuestRoot, entry: &Entry) -> Translation
    ensures { result ≡ second_translation hgatp entry.now }
{
    Translation {
        stage: Stage::Second,
        hgatp: Some(hgatp.bits()),
        atp: None,
        page: entry.page,
        leaf: leaf_of_second(entry),
    }
}

/// One of the first stage.
pub fn first_translation(entry: &FirstEntry) -> Translation
    ensures { result ≡ first_translation entry.now }
{
    Translation {
        stage: Stage::First,
        hgatp: hgatp_of(entry.tag),
        atp: Some(satp_bits(entry.atp)),
        page: entry.page,
        leaf: leaf_of_first(entry),
    }
}
