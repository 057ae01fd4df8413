// The plan: all blocks first, then all roots, then all other tables, so that no frame is lost.

ghost use Rattle.std.specs.Prelude.{◌≡◌, ℕ, ◌+◌, ◌*◌, ◌<◌, ◌≤◌, ◌^◌, length, slice_index, IfOk, IfErr, IfSome};
ghost use Rattle.arch_defs.specs.Layouts.{NamesEachOnce, Meets};
ghost use Rattle.guest_settings.specs.Needs.{tables_for, IsNeed};
ghost use Rattle.frame_split.specs.Shares.{AreNeeds, BlocksLieBelow, CanBegin, Causes, HasRoomFor, IsOrdered, IsSharedOut, IsSplit, LiesBetween, after_need, blocks_of_all, frames_with, most_guest_tables, RootsLieFrom, roots_of_all, tables_of_all};

use crate::faults::PlanFault;
use arch_defs::{BLOCK_FRAMES, MOST_BLOCKS, MOST_FRAMES, Need, Part, TABLES_PER_ENTRY};
use std::alloc::Global;

/// The parts of guests, in their order, how many blocks they have, which is also the first spare block, and
/// the frames of machine memory that all lie in.
#[derive(Drop)]
pub struct Split {
    pub parts: Vec<Part>,
    pub blocks: u64,
    pub frames: u64,
}

/// The first free block, the first free frame for roots, and that for other tables.
#[derive(Clone, Copy)]
pub struct Free {
    block: u64,
    root: u64,
    table: u64,
}

// What all guests need.
#[derive(Clone, Copy)]
struct Totals {
    blocks: u64,
    roots: u64,
    tables: u64,
}

/// Shares out machine memory: each guest gets a part of the size that it needs, all blocks come first, then
/// that many spare blocks that are in no part, then all roots, then all other tables. It answers `TooMuch`,
/// with the sum, exactly where the needs and the spare blocks sum to more than 131,072 frames, and else may
/// answer `NoMemory`.
pub fn plan(alloc: Global, needs: &[Need], spare: u64) -> Result<Split, PlanFault>
    requires few { length needs.now ≤ 16 }
    requires needs { AreNeeds needs.now }
    requires spare { spare ≤ 32 }
    ensures shared { IfOk result (IsSharedOut needs.now spare) }
    ensures refused { IfErr result (λ fault. Causes fault (frames_with needs.now spare)) }
{
    let totals = all_needed(needs);
    let root = BLOCK_FRAMES * (totals.blocks + spare);
    let frames = root + 4 * totals.roots + totals.tables;
    if frames > MOST_FRAMES {
        return Err(PlanFault::TooMuch(frames));
    }
    let start = Free {
        block: 0,
        root,
        table: root + 4 * totals.roots,
    };
    match share(alloc, needs, start, frames) {
        Some(parts) => Ok(Split {
            parts,
            blocks: totals.blocks,
            frames,
        }),
        None => Err(PlanFault::NoMemory),
    }
}

// The blocks, roots and other table frames that all of them need.
fn all_needed(needs: &[Need]) -> Totals
    requires few { length needs.now ≤ 16 }
    requires needs { AreNeeds needs.now }
    ensures blocks { result.blocks ≡ blocks_of_all needs.now }
    ensures roots { result.roots ≡ roots_of_all needs.now }
    ensures tables { result.tables ≡ tables_of_all needs.now }
    ensures few { (result.blocks ≤ 512) × (result.roots ≤ 144) × (result.tables ≤ 16 * most_guest_tables) }
{
    let mut totals = Totals {
        blocks: 0,
        roots: 0,
        tables: 0,
    };
    for i in 0..needs.len() {
        totals = with_need(totals, &needs[i]);
    }
    totals
}

fn with_need(totals: Totals, need: &Need) -> Totals
    requires need { IsNeed need.now }
    requires room { (totals.blocks ≤ 2 ^ 32) × (totals.roots ≤ 2 ^ 32) × (totals.tables ≤ 2 ^ 32) }
    ensures blocks { result.blocks ≡ totals.blocks + need.now.blocks }
    ensures roots { result.roots ≡ totals.roots + (1 + need.now.spaces) }
    ensures tables { result.tables ≡ totals.tables + (1 + need.now.spaces * tables_for need.now.entries) }
    ensures few { (result.blocks ≤ totals.blocks + 32) × (result.roots ≤ totals.roots + 9)
        × (result.tables ≤ totals.tables + most_guest_tables) }
{
    Totals {
        blocks: totals.blocks + need.blocks,
        roots: totals.roots + 1 + need.spaces,
        tables: totals.tables + 1 + need.spaces * (TABLES_PER_ENTRY * need.entries),
    }
}

// The parts from these places on.
fn share(alloc: Global, needs: &[Need], start: Free, frames: u64) -> Option<Vec<Part>>
    requires needs { AreNeeds needs.now }
    requires room { HasRoomFor needs.now start frames }
    requires most { frames < 2 ^ 32 }
    ensures split { IfSome result (λ parts. IsSplit needs.now parts.items frames) }
    ensures blocks { IfSome result (λ parts. BlocksLieBelow (start.block + blocks_of_all needs.now)
        parts.items) }
    ensures roots { IfSome result (λ parts. RootsLieFrom start.root parts.items) }
{
    let Ok(mut parts) = Vec::with_capacity(alloc, needs.len()) else {
        return None;
    };
    let mut free = start;
    for i in 0..needs.len() {
        let need = needs[i];
        let part = part_at(&need, free);
        if parts.push(part).is_err() {
            return None;
        }
        free = after_need(&need, free);
    }
    Some(parts)
}

// Where to go on after a part.
fn after_need(need: &Need, free: Free) -> Free
    requires need { IsNeed need.now }
    requires room { (free.block ≤ 2 ^ 32) × (free.root ≤ 2 ^ 32) × (free.table ≤ 2 ^ 32) }
    ensures { result ≡ after_need need.now free }
{
    Free {
        block: free.block + need.blocks,
        root: free.root + 4 * (1 + need.spaces),
        table: free.table + (1 + need.spaces * (TABLES_PER_ENTRY * need.entries)),
    }
}

// The part of the next guest.
fn part_at(need: &Need, free: Free) -> Part
    requires need { IsNeed need.now }
    requires begin { CanBegin free }
    requires ordered { IsOrdered free (after_need need.now free) }
    ensures meets { Meets need.now result }
    ensures once { NamesEachOnce result }
    ensures between { LiesBetween free (after_need need.now free) result }
{
    let slots = numbers(free.block, need.blocks);
    let part = Part::new(
        &slots[..need.blocks as usize],
        free.root as u32,
        free.table as u32,
        need.spaces as u16,
        need.entries as u16,
    );
    part.names_each_once();
    part
}

// That many numbers from a first one on.
fn numbers(first: u64, count: u64) -> [u32; MOST_BLOCKS]
    requires most { count ≤ 32 }
    requires small { first + count ≤ 2 ^ 32 }
    ensures numbers { (i : ℕ) → i < count → slice_index result i ≡ first + i }
    ensures slots { length result ≡ 32 }
{
    let mut slots = [0; MOST_BLOCKS];
    for i in 0..count as usize {
        slots[i] = (first + i as u64) as u32;
    }
    slots
}
