//! The tables of keys: which keys a guest and the document may have, and what the value of each may be.

ghost use Rattle.std.specs.Prelude.{◌≡◌};
ghost use Rattle.run_config.specs.Tables.{document_options, guest_table, optional_table};

use crate::formats::Format;
use crate::keys::ConfigKey;
use guest_settings::{LEAST_ENTRIES, MOST_BLOCKS, MOST_CONSOLE, MOST_ENTRIES, MOST_SPACES};

/// What a value may be.
#[derive(Clone, Copy)]
pub enum Kind {
    /// What tests of its own say.
    Own,
    /// Any text.
    AnyText,
    /// A text of at least and at most that many bytes.
    TextOf(usize, usize),
    /// An integer from the one on and at most the other.
    IntegerOf(u64, u64),
}

/// A key, and what its value may be.
#[derive(Clone, Copy)]
pub struct Row {
    pub key: ConfigKey,
    pub kind: Kind,
}

// No keys.
static NO_ROWS: [Row; 0] = [];

// The keys that a fresh guest must have.
static FRESH_ROWS: [Row; 6] = [
    Row {
        key: ConfigKey::Name,
        kind: Kind::AnyText,
    },
    Row {
        key: ConfigKey::Image,
        kind: Kind::TextOf(1, 255),
    },
    Row {
        key: ConfigKey::Blocks,
        kind: Kind::IntegerOf(1, MOST_BLOCKS as u64),
    },
    Row {
        key: ConfigKey::Spaces,
        kind: Kind::IntegerOf(1, MOST_SPACES as u64),
    },
    Row {
        key: ConfigKey::Entries,
        kind: Kind::IntegerOf(LEAST_ENTRIES as u64, MOST_ENTRIES as u64),
    },
    Row {
        key: ConfigKey::Console,
        kind: Kind::IntegerOf(0, MOST_CONSOLE as u64),
    },
];

// The keys that a resumed guest must have.
static RESUMED_ROWS: [Row; 2] = [
    Row {
        key: ConfigKey::Name,
        kind: Kind::AnyText,
    },
    Row {
        key: ConfigKey::Resume,
        kind: Kind::TextOf(1, 255),
    },
];

// The other keys that a fresh guest may have, in each format.
static FRESH_OPTIONS_ONE: [Row; 1] = [Row {
    key: ConfigKey::Input,
    kind: Kind::Own,
}];

static FRESH_OPTIONS_TWO: [Row; 3] = [
    Row {
        key: ConfigKey::Weight,
        kind: Kind::IntegerOf(1, 1000),
    },
    Row {
        key: ConfigKey::Device,
        kind: Kind::IntegerOf(0, 1),
    },
    Row {
        key: ConfigKey::Input,
        kind: Kind::Own,
    },
];

// The other key that a resumed guest may have, in format 2.
static RESUMED_OPTIONS: [Row; 1] = [Row {
    key: ConfigKey::Weight,
    kind: Kind::IntegerOf(1, 1000),
}];

/// The keys with tests of their own that the document may have.
pub static DOCUMENT_ROWS: [Row; 5] = [
    Row {
        key: ConfigKey::Format,
        kind: Kind::Own,
    },
    Row {
        key: ConfigKey::Guest,
        kind: Kind::Own,
    },
    Row {
        key: ConfigKey::Turns,
        kind: Kind::Own,
    },
    Row {
        key: ConfigKey::Quantum,
        kind: Kind::Own,
    },
    Row {
        key: ConfigKey::Rounds,
        kind: Kind::Own,
    },
];

// The other key that the document may have, in format 2.
static DOCUMENT_OPTIONS: [Row; 1] = [Row {
    key: ConfigKey::Spare,
    kind: Kind::IntegerOf(0, MOST_BLOCKS as u64),
}];

/// The keys that a guest must have, by whether it is resumed.
pub fn guest_rows(resumed: bool) -> &'static [Row]
    ensures { result.now ≡ guest_table resumed }
{
    if resumed { &RESUMED_ROWS } else { &FRESH_ROWS }
}

/// The other keys that a guest may have, by whether it is resumed.
pub fn guest_options(resumed: bool, format: Format) -> &'static [Row]
    ensures { result.now ≡ optional_table resumed format }
{
    match (resumed, format) {
        (false, Format::One) => &FRESH_OPTIONS_ONE,
        (false, Format::Two) => &FRESH_OPTIONS_TWO,
        (true, Format::One) => &NO_ROWS,
        (true, Format::Two) => &RESUMED_OPTIONS,
    }
}

/// The other keys that the document may have.
pub fn document_options(format: Format) -> &'static [Row]
    ensures { result.now ≡ document_options format }
{
    match format {
        Format::One => &NO_ROWS,
        Format::Two => &DOCUMENT_OPTIONS,
    }
}
