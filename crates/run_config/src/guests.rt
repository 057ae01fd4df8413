//! The settings of a guest.

ghost use Rattle.std.specs.Prelude.{◌≡◌};

use guest_settings::{Inputs, Name};
use std::marker::Model;

/// The name of a file, as text.
#[derive(Drop)]
pub struct FileName {
    text: String,
}

impl Model for FileName {
    ghost use Rattle.std.specs.Prelude.{ℕ, List, string_bytes};

    ghost Value = { List ℕ };

    ghost view = { λ f. string_bytes f.text };
}

impl FileName {
    ghost use Rattle.std.specs.Prelude.{string_bytes};

    /// The name of this text.
    pub fn from_string(text: String) -> FileName
        ensures { result ≡ string_bytes text }
    {
        FileName { text }
    }

    /// The text of the name.
    pub fn as_str(&self) -> &str
        ensures { result.now ≡ self.now }
    {
        self.text.as_str()
    }
}

/// Where a guest's inputs come from.
#[derive(Drop)]
pub enum InputSource {
    /// These pairs of a moment and a byte.
    Pairs(Inputs),
    /// A file of records, which `inputs` reads.
    File(FileName),
}

/// What a configuration says of a fresh guest, one that begins at its start.
#[derive(Drop)]
pub struct FreshGuest {
    /// The name of the file that holds its image.
    pub image: FileName,
    /// Its RAM, in blocks of 2,097,152 bytes.
    pub blocks: u64,
    /// How many lists of cached second-stage translations it has.
    pub spaces: u64,
    /// How many entries each of those lists has.
    pub entries: u64,
    /// How many bytes its console keeps.
    pub console: u64,
    /// Whether it has the device page.
    pub device: bool,
    /// Where the bytes that come to its console are from.
    pub input: InputSource,
}

/// How a guest begins.
#[derive(Drop)]
pub enum Origin {
    /// At its start, by an image.
    Fresh(FreshGuest),
    /// Where it was saved: the name of the file that it goes on from.
    Saved(FileName),
}

/// What a configuration says of a guest.
#[derive(Drop)]
pub struct GuestSettings {
    /// What the report calls it: ASCII letters and digits.
    pub name: Name,
    /// How many times the quantum it has in each round.
    pub weight: u64,
    /// How it begins.
    pub origin: Origin,
}
