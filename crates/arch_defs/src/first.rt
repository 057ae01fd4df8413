// Cached first-stage translations, and what a fence names of them.

ghost use Rattle.std.specs.Prelude.{◌≡◌, ◌/◌, ◌&&◌};
ghost use Rattle.arch_defs.specs.FirstEntries.{first_leaf, is_fence_for, is_first_of, is_tag, names_asid, names_first, names_first_of_guest, names_first_page};
ghost use Rattle.arch_defs.specs.Roots.{asid_of, is_atp};
ghost use Rattle.arch_defs.specs.Spaces.{names_vmid};
ghost use Rattle.arch_defs.specs.TableEntries.{span};

use crate::cached::Fence;
use crate::roots::{GuestRoot, SupervisorRoot};
use crate::walks::LeafPte;

/// For whom accesses are, by V and hgatp.
#[derive(Clone, Copy, PartialEq, Eq)]
pub enum Tag {
    /// With V = 0.
    Flat,
    /// With V = 1, under this hgatp.
    Nested(GuestRoot),
}

impl Tag {
    /// Whether `other` is the same: V, and with V = 1 hgatp as a whole.
    pub fn is_tag(self, other: Tag) -> bool
        ensures { result ≡ is_tag self other }
    {
        match (self, other) {
            (Tag::Flat, Tag::Flat) => true,
            (Tag::Nested(hgatp), Tag::Nested(other)) => hgatp.is_root(other),
            _ => false,
        }
    }

    // Whether a fence of the first stage, made for these accesses, is for those of `other`.
    fn is_fence_for(self, other: Tag) -> bool
        ensures { result ≡ is_fence_for self other }
    {
        match (self, other) {
            (Tag::Flat, Tag::Flat) => true,
            (Tag::Nested(hgatp), Tag::Nested(other)) => hgatp.vmid() == other.vmid(),
            _ => false,
        }
    }
}

/// A cached first-stage translation: for whose accesses it is, the whole of satp or vsatp, the virtual page
/// and its frame (addresses divided by 4,096), what the leaf permits (`w` is its W and D), and the level of
/// the leaf, 0 to 3.
#[derive(Clone, Copy, PartialEq, Eq)]
pub struct FirstEntry {
    pub tag: Tag,
    pub atp: SupervisorRoot,
    pub page: u64,
    pub frame: u64,
    pub r: bool,
    pub w: bool,
    pub x: bool,
    pub u: bool,
    pub level: u8,
}

// Whether a fence names a number: any, where it names none.
fn names(named: Option<u64>, number: u64) -> bool
    ensures { result ≡ names_vmid named number }
{
    match named {
        Some(named) => named == number,
        None => true,
    }
}

// The number of the span of a leaf of this level in which a page is.
#[tactic(auto, using(crate::proofs::Spans::far_span))]
fn span_of(page: u64, level: u8) -> u64
    ensures { result ≡ page / span level }
{
    if level < 8 {
        page >> (9 * level as u32)
    } else {
        0
    }
}

impl FirstEntry {
    /// The leaf that it stands for: of this one page, whatever the level of the leaf that it was filled from.
    pub fn leaf(&self) -> LeafPte
        ensures { result ≡ first_leaf self.now }
    {
        LeafPte {
            frame: self.frame,
            level: 0,
            r: self.r,
            w: self.w,
            x: self.x,
            u: self.u,
        }
    }

    // Whether it is for these accesses, and for satp or vsatp as a whole.
    #[inline(never)]
    fn is_for(&self, tag: &Tag, atp: &SupervisorRoot) -> bool
        ensures { result ≡ (is_tag self.now.tag tag.now && is_atp self.now.atp atp.now) }
    {
        self.tag.is_tag(*tag) && self.atp.is_root(*atp)
    }

    /// Whether it is the one of a page for these accesses, and for satp or vsatp as a whole. Most are of
    /// another page, so that is compared first.
    #[inline]
    pub fn is_of(&self, tag: &Tag, atp: &SupervisorRoot, page: u64) -> bool
        ensures { result ≡ is_first_of tag.now atp.now page self.now }
    {
        self.page == page && self.is_for(tag, atp)
    }

    // Whether a fence of the first stage names it by a page of the leaf that it was filled from.
    fn is_named_by_page(&self, page: Option<u64>) -> bool
        ensures { result ≡ names_first_page page self.now }
    {
        match page {
            Some(page) => span_of(self.page, self.level) == span_of(page, self.level),
            None => true,
        }
    }

    /// Whether a fence of the first stage, made for these accesses, names it.
    pub fn is_named(&self, tag: Tag, fence: &Fence) -> bool
        ensures { result ≡ names_first tag fence.now self.now }
    {
        tag.is_fence_for(self.tag)
            && names(fence.vmid, self.atp.asid())
            && self.is_named_by_page(fence.page)
    }

    /// Whether an HFENCE.GVMA names it: by its VMID alone.
    pub fn is_named_of_guest(&self, fence: &Fence) -> bool
        ensures { result ≡ names_first_of_guest fence.now self.now }
    {
        match self.tag {
            Tag::Flat => false,
            Tag::Nested(hgatp) => names(fence.vmid, hgatp.vmid()),
        }
    }
}
