// What a guest is given.

ghost use Rattle.std.specs.Prelude.{◌≡◌};
ghost use Rattle.guest_settings.specs.Needs.{need_of};

use crate::Need;
use std::marker::Model;

/// A guest's name, as bytes.
#[derive(Drop)]
pub struct Name {
    bytes: Vec<u8>,
}

impl Model for Name {
    ghost use Rattle.std.specs.Prelude.{ℕ, List};

    ghost Value = { List ℕ };

    ghost view = { λ n. n.bytes.items };
}

impl Name {
    /// The name of these bytes.
    pub fn from_vec(bytes: Vec<u8>) -> Name
        ensures { result ≡ bytes.items }
    {
        Name { bytes }
    }

    /// The bytes of the name.
    pub fn as_slice(&self) -> &[u8]
        ensures { result.now ≡ self.now }
    {
        self.bytes.as_slice()
    }

    /// The bytes of the name, given back.
    pub fn into_vec(self) -> Vec<u8>
        ensures { result.items ≡ self }
    {
        let Name { bytes } = self;
        bytes
    }
}

/// An image's bytes.
#[derive(Drop)]
pub struct Bytes {
    items: Vec<u8>,
}

impl Model for Bytes {
    ghost use Rattle.std.specs.Prelude.{ℕ, List};

    ghost Value = { List ℕ };

    ghost view = { λ b. b.items.items };
}

impl Bytes {
    /// These bytes.
    pub fn from_vec(items: Vec<u8>) -> Bytes
        ensures { result ≡ items.items }
    {
        Bytes { items }
    }

    /// The bytes, lent.
    pub fn as_slice(&self) -> &[u8]
        ensures { result.now ≡ self.now }
    {
        self.items.as_slice()
    }

    /// The bytes, given back.
    pub fn into_vec(self) -> Vec<u8>
        ensures { result.items ≡ self }
    {
        let Bytes { items } = self;
        items
    }
}

/// Bytes that come to the guest's console, each with the moment of its clock from which on it is there.
#[derive(Drop)]
pub struct Inputs {
    pairs: Vec<(u64, u8)>,
}

impl Model for Inputs {
    ghost use Rattle.std.specs.Prelude.{ℕ, List};

    ghost Value = { List (ℕ × ℕ) };

    ghost view = { λ i. i.pairs.items };
}

impl Inputs {
    /// These pairs of a moment and a byte.
    pub fn from_vec(pairs: Vec<(u64, u8)>) -> Inputs
        ensures { result ≡ pairs.items }
    {
        Inputs { pairs }
    }

    /// The pairs, lent.
    pub fn as_slice(&self) -> &[(u64, u8)]
        ensures { result.now ≡ self.now }
    {
        self.pairs.as_slice()
    }

    /// The pairs, given back.
    pub fn into_vec(self) -> Vec<(u64, u8)>
        ensures { result.items ≡ self }
    {
        let Inputs { pairs } = self;
        pairs
    }
}

/// What a guest is made of: its name, its image, its RAM in blocks of 2,097,152 bytes, at most how many
/// cached spaces and entries in each, at most how many console bytes, its inputs, and whether it has the
/// device page.
#[derive(Drop)]
pub struct GuestSpec {
    pub name: Name,
    pub image: Bytes,
    pub blocks: u64,
    pub spaces: u64,
    pub entries: u64,
    pub console: u64,
    pub inputs: Inputs,
    pub device: bool,
}

impl GuestSpec {
    /// What the guest needs of machine memory.
    pub fn need(&self) -> Need
        ensures { result ≡ need_of self.now }
    {
        Need {
            blocks: self.blocks,
            spaces: self.spaces,
            entries: self.entries,
        }
    }
}
