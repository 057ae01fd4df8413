// The levels of a space's tables.

ghost use Rattle.std.specs.Prelude.{◌≡◌, ◌<◌, ◌≤◌, ◌^◌};
ghost use Rattle.arch_defs.specs.CachedEntries.{guest_page_bits};
ghost use Rattle.shadow_space.specs.Trees.{top};
ghost use Rattle.shadow_space.specs.Ways.{slot_of};

/// The level of the root.
pub const ROOT_LEVEL: usize = 3;

/// How many levels there are.
pub const LEVELS: usize = ROOT_LEVEL + 1;

/// Which entry of its table of a level is a page's. The root's index has what is left of the page.
pub fn slot_of(level: usize, page: u64) -> u64
    requires level { level ≤ top }
    requires page { page < 2 ^ guest_page_bits }
    ensures value { result ≡ slot_of level page }
    ensures small { result < 2048 }
{
    match level {
        0 => page % 512,
        1 => page / 512 % 512,
        2 => page / 262_144 % 512,
        _ => page / 134_217_728,
    }
}
