// Table walks: the shapes of tables, entries in named parts, and how a walk ends.

ghost use Rattle.std.specs.Prelude.{◌≡◌};
ghost use Rattle.arch_defs.specs.Traps.{missing_place_fault};

use crate::modes::{Access, Mode, Trap};

/// The shape of a table: how many levels it has, how wide its root's index is, and which addresses it
/// translates (Privileged Architecture 20211203, 4.4, 4.5 and 8.5.1).
#[derive(Clone, Copy, PartialEq, Eq)]
pub enum Shape {
    Sv39,
    Sv48,
    Sv39x4,
    Sv48x4,
}

/// A table entry in named parts (Privileged Architecture 20211203, 4.3.1 and 4.4.1). The walker needs
/// neither G nor RSW.
#[derive(Clone, Copy, PartialEq, Eq)]
pub struct Pte {
    pub v: bool,
    pub r: bool,
    pub w: bool,
    pub x: bool,
    pub u: bool,
    pub a: bool,
    pub d: bool,
    /// The bits 63 to 54.
    pub reserved: u64,
    /// The physical page number, bits 53 to 10.
    pub frame: u64,
}

/// A leaf that a walk has found: the frame that it names (an address divided by 4,096), its level, and
/// what it permits. `w` is its W and D.
#[derive(Clone, Copy, PartialEq, Eq)]
pub struct LeafPte {
    pub frame: u64,
    pub level: u8,
    pub r: bool,
    pub w: bool,
    pub x: bool,
    pub u: bool,
}

/// How a walk ends.
#[derive(Clone, Copy, PartialEq, Eq)]
pub enum WalkEnd {
    /// At a leaf: its frame, its level, and its rights r, w, x and u, as in [`LeafPte`].
    Leaf(u64, u8, bool, bool, bool, bool),
    PageFault,
    /// The entry at this place could not be read, for this trap.
    FetchEnd(u64, Trap),
}

/// What a table entry says to a walk.
#[derive(Clone, Copy, PartialEq, Eq)]
pub enum Next {
    Ends(WalkEnd),
    /// It goes on in the table of this frame, one level below.
    Below(u64),
}

/// As whom an access is translated by a first stage: from user mode or not, and what SUM and MXR let it
/// do (Privileged Architecture 20211203, 4.1.1).
#[derive(Clone, Copy, PartialEq, Eq)]
pub struct Privilege {
    pub user: bool,
    pub sum: bool,
    pub mxr: bool,
}

/// An access for which the second stage has no place.
#[derive(Clone, Copy, PartialEq, Eq)]
pub struct MissingPlace {
    /// The guest physical address that has none.
    pub address: u64,
    /// What the access at that address is: the access itself, or the implicit read of a first-stage entry for
    /// it.
    pub kind: Access,
    /// The access that it serves, whose fault is taken.
    pub access: Access,
    /// The virtual address of that access.
    pub va: u64,
    /// The mode as which that access is made.
    pub mode: Mode,
}

impl MissingPlace {
    /// The access fault of the access that has no place.
    pub fn access_fault(&self) -> Trap
        ensures { result ≡ missing_place_fault self.now }
    {
        Trap::of_exception(self.mode, self.access.faults().access, self.va)
    }
}

/// What the first stage makes of a virtual address.
#[derive(Clone, Copy, PartialEq, Eq)]
pub enum Found {
    /// This guest physical address.
    Passes(u64),
    /// The table has no leaf for it that permits the access.
    PageFaults,
    /// The second stage has no place for the entry at this guest physical address.
    MissesEntry(u64),
}
