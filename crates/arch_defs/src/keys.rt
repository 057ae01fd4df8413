// The keys of spaces: values of hgatp, as numbers.

ghost use Rattle.std.specs.Prelude.{◌≡◌};
ghost use Rattle.arch_defs.specs.CsrBits.{guest_root_of, hgatp_bits};
ghost use Rattle.arch_defs.specs.Roots.{is_root, vmid_of};

use crate::roots::GuestRoot;
use std::marker::Model;

/// A value that hgatp can hold (Privileged Architecture 20211203, 8.2.10). Contracts see it as the root that
/// it names.
#[derive(Clone, Copy, PartialEq, Eq)]
pub struct Key(pub u64);

impl Model for Key {
    ghost use Rattle.std.specs.Prelude.{◌≡◌};
    ghost use Rattle.arch_defs.specs.declared.roots.GuestRoot.{GuestRoot};
    ghost use Rattle.arch_defs.specs.CsrBits.{guest_root_of, hgatp_bits};

    ghost Value = { GuestRoot };

    ghost view = { λ k. guest_root_of k.0 };

    ghost invariant = { λ k. hgatp_bits (guest_root_of k.0) ≡ k.0 };

    ghost inverse = { λ root. record { 0 = hgatp_bits root } };
}

impl Key {
    /// The value that hgatp holds after a write of `root`.
    #[tactic(auto, using(crate::proofs::HgatpValues::written_once))]
    pub fn of(root: GuestRoot) -> Key
        ensures { result ≡ guest_root_of (hgatp_bits root) }
    {
        Key(root.bits())
    }

    /// The value, as a number.
    pub fn value(self) -> u64
        ensures { result ≡ hgatp_bits self }
    {
        self.0
    }

    /// The root that it names.
    pub fn root(self) -> GuestRoot
        ensures { result ≡ self }
    {
        GuestRoot::of(self.0)
    }

    /// Whether `other` is the same value: MODE, VMID and PPN.
    #[tactic(auto, using(crate::proofs::HgatpValues::same_number))]
    pub fn is_key(self, other: Key) -> bool
        ensures { result ≡ is_root self other }
    {
        self.0 == other.0
    }

    /// Its VMID, 0 under Bare.
    pub fn vmid(self) -> u64
        ensures { result ≡ vmid_of self }
    {
        GuestRoot::of(self.0).vmid()
    }
}
