// What a guest needs of machine memory.

ghost use Rattle.std.specs.Prelude.{◌≡◌, ◌≤◌};
ghost use Rattle.guest_settings.specs.Needs.{IsNeed, frames_needed, most_needed};

/// How many tables below its root a space has for each of its entries: an entry needs at most one on each
/// level below the root's.
pub const TABLES_PER_ENTRY: u64 = 3;

/// What a guest needs of machine memory: that many blocks for its RAM, and tables for that many cached
/// spaces of at most that many entries each.
#[derive(Clone, Copy, PartialEq, Eq)]
pub struct Need {
    pub blocks: u64,
    pub spaces: u64,
    pub entries: u64,
}

impl Need {
    /// How many frames of machine memory these are: 512 a block, 5 for the host table, and for each space
    /// 4 and `TABLES_PER_ENTRY` for each of its entries.
    pub fn frames(&self) -> u64
        requires { IsNeed self.now }
        ensures value { result ≡ frames_needed self.now }
        ensures most { result ≤ most_needed }
    {
        512 * self.blocks + 5 + self.spaces * (4 + TABLES_PER_ENTRY * self.entries)
    }
}
