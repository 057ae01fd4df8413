// What the hart has for a guest.

use crate::first::Tag;
use crate::registers::Virtual;

/// What a hart has for a guest: registers, mode, reservation and cached first-stage translations as a
/// machine, the registers with values of its own; and for whom the guest's accesses are.
#[derive(Clone, Copy)]
pub struct HartState {
    pub virt: Virtual,
    pub tag: Tag,
}
