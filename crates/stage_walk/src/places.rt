// The places of entries, by the shape of the table.

ghost use Rattle.std.specs.Prelude.{◌≡◌, ◌+◌, ◌^◌, ◌<◌, ◌≤◌, ◌%◌};
ghost use Rattle.arch_defs.specs.declared.walks.WalkEnd.TheVariants.{FetchEnd};
ghost use Rattle.arch_defs.specs.Walk.{index_bits, is_canonical, levels, most_levels, place_of};
ghost use Rattle.stage_walk.specs.Ends.{EndFits};

use arch_defs::{Shape, Trap, WalkEnd};

/// How many levels a table has.
#[inline(always)]
pub fn levels(shape: Shape) -> u8
    ensures value { result ≡ levels shape }
    ensures few { result ≤ most_levels }
{
    match shape {
        Shape::Sv39 | Shape::Sv39x4 => 3,
        Shape::Sv48 | Shape::Sv48x4 => 4,
    }
}

// How many entries a table of this level has: 512, but for the root of Sv39x4 and of Sv48x4, which has 2,048.
#[inline(always)]
fn slots(shape: Shape, level: u8) -> u64
    requires { level < most_levels }
    ensures value { result ≡ 2 ^ index_bits shape level }
    ensures few { result ≤ 2048 }
    ensures some { 0 < result }
{
    match shape {
        Shape::Sv39 | Shape::Sv48 => 512,
        Shape::Sv39x4 | Shape::Sv48x4 => {
            if level + 1 == levels(shape) {
                2048
            } else {
                512
            }
        }
    }
}

/// The place of an address's entry in the table of a frame.
#[inline(always)]
pub fn place_of(shape: Shape, level: u8, table: u64, va: u64) -> u64
    requires level { level < most_levels }
    requires table { table < 2 ^ 44 }
    ensures value { result ≡ place_of shape level table va }
    ensures aligned { result % 8 ≡ 0 }
{
    let index = (va >> (12 + 9 * level as u32)) % slots(shape, level);
    4096 * table + 8 * index
}

/// How a walk ends at an entry that could not be read.
#[inline(always)]
#[tactic(auto, using(arch_defs::proofs::Shapes::few_levels))]
pub fn unread_end(shape: Shape, level: u8, table: u64, va: u64, trap: Trap) -> WalkEnd
    requires level { level < levels shape }
    requires table { table < 2 ^ 44 }
    ensures value { result ≡ FetchEnd (place_of shape level table va) trap }
    ensures fits { EndFits (levels shape) result }
{
    WalkEnd::FetchEnd(place_of(shape, level, table, va), trap)
}

/// Whether the upper bits of an address are as the shape wants them: Sv39 repeats bit 38, and Sv48 bit 47;
/// Sv39x4 has none above bit 40, and Sv48x4 none above bit 49.
#[inline(always)]
pub fn is_canonical(shape: Shape, va: u64) -> bool
    ensures { result ≡ is_canonical shape va }
{
    match shape {
        Shape::Sv39 => va < 0x40_0000_0000 || va >= 0xFFFF_FFC0_0000_0000,
        Shape::Sv48 => va < 0x8000_0000_0000 || va >= 0xFFFF_8000_0000_0000,
        Shape::Sv39x4 => va < 0x200_0000_0000,
        Shape::Sv48x4 => va < 0x4_0000_0000_0000,
    }
}
