// The limits of guests.

/// How many guests a host has at most.
pub const MOST_GUESTS: usize = 16;

/// How many blocks of RAM a guest has at most.
pub const MOST_BLOCKS: usize = 32;

/// How many cached spaces a guest has at most.
pub const MOST_SPACES: usize = 8;

/// How many entries a cached space has at least.
pub const LEAST_ENTRIES: usize = 16;

/// How many entries a cached space has at most.
pub const MOST_ENTRIES: usize = 256;

/// How many bytes a guest's console keeps at most.
pub const MOST_CONSOLE: usize = 1_048_576;

/// How many inputs a guest has at most.
pub const MOST_INPUTS: usize = 65_536;
