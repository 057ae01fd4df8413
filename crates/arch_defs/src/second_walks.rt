// How the walk of a second-stage table ends for an access.

use crate::walks::LeafPte;

/// What the walk of a second-stage table gives an access to a guest physical address (Privileged
/// Architecture 20211203, 8.5.1).
#[derive(Clone, Copy, PartialEq, Eq)]
pub enum SecondWalkEnd {
    /// A leaf that permits the access. Memory has the frame that the address is in under it.
    Leaf(LeafPte),
    /// A leaf that permits the access, under which the address is on the device page, which is outside
    /// memory.
    Device(LeafPte),
    /// The table has no leaf for the address, or it does not permit the access.
    GuestPageFault,
    /// An entry, or the frame under a leaf that permits the access, is outside memory.
    AccessFault,
}
