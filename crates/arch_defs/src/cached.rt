// Cached translations, and what a fence names of them.

/// A cached second-stage translation: the guest physical page, the physical frame (addresses divided by
/// 4,096), what the leaf permits (`w` is its W and D), and the level of the leaf, 0 to 3.
#[derive(Clone, Copy, PartialEq, Eq)]
pub struct Entry {
    pub page: u64,
    pub frame: u64,
    pub r: bool,
    pub w: bool,
    pub x: bool,
    pub level: u8,
}

/// What an HFENCE.GVMA names: a VMID and a guest physical page (an address divided by 4,096), or all of them
/// where there is none (Privileged Architecture 20211203, 8.3.2). An SFENCE.VMA or an HFENCE.VVMA names an
/// ASID, in the place of the VMID, and a virtual page (4.2.1 and 8.3.1).
#[derive(Clone, Copy, PartialEq, Eq)]
pub struct Fence {
    pub vmid: Option<u64>,
    pub page: Option<u64>,
}
