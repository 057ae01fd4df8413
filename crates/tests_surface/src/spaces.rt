// A space of cached translations, folded into one table. Blocks 5 and 3 are outside the frames of these
// tests, which hold tables alone: the host's root from 0 on, the space's from 4 on, the host's other table at
// 8, and the space's from 9 on.

ghost use Rattle.std.specs.Prelude.{◌≡◌, ◌≤◌, ◌<◌, ◌*◌, ◌^◌, length, IfOk, IfSome};
ghost use Rattle.shadow_space.specs.Shadows.{Tidy};

use crate::machines::{SpaceInMemory, empty_space, part};
use crate::words::Words;
use arch_defs::{Access, Entry, Shape, WalkEnd};
use no_memory::NoMemory;
use phys_mem::PhysMem;
use shadow_space::Space;
use stage_walk::walk;
use std::alloc::Global;

const PAGE: Entry = Entry {
    page: 0x10,
    frame: 0x8_0003,
    r: true,
    w: false,
    x: false,
    level: 0,
};

// A space of sixteen entries.
fn of_sixteen(alloc: Global) -> Result<Option<SpaceInMemory>, NoMemory>
    ensures tidy { IfOk result (λ made. IfSome made (λ m. Tidy m.space m.mem)) }
    ensures blocks { IfOk result (λ made. IfSome made (λ m. length m.space.part.blocks ≡ 2)) }
{
    empty_space(alloc, &part(&[5, 3], 0, 8, 1, 16), 57, 16)
}

fn fill(space: &mut Space, mem: &mut PhysMem, page: u64)
    requires tidy { Tidy space.old mem.old }
    requires blocks { length space.old.part.blocks ≡ 2 }
    requires page { page < 2 ^ 38 }
    ensures tidy { Tidy space.new mem.new }
    ensures blocks { length space.new.part.blocks ≡ 2 }
{
    let entry = Entry {
        page,
        frame: 0x8_0003,
        r: true,
        w: false,
        x: false,
        level: 0,
    };
    space.fill(mem, entry);
}

// Spans of 262,144 pages, which have a table of level 1 each, or of 134,217,728, which have one of level 2.
#[derive(Clone, Copy)]
enum Span {
    Large,
    Huge,
}

fn first_page(span: Span, i: u64) -> u64
    requires { i ≤ 16 }
    ensures { result < 2 ^ 38 }
{
    match span {
        Span::Large => 0x4_0000 * i,
        Span::Huge => 0x800_0000 * i,
    }
}

// Fills the first page of each of the first sixteen spans.
fn fill_spans(space: &mut Space, mem: &mut PhysMem, span: Span)
    requires tidy { Tidy space.old mem.old }
    requires blocks { length space.old.part.blocks ≡ 2 }
    ensures tidy { Tidy space.new mem.new }
    ensures blocks { length space.new.part.blocks ≡ 2 }
{
    for i in 0..16 {
        fill(space, mem, first_page(span, i));
    }
}

// Whether the walk of the space's table has a leaf for a page.
fn has_leaf(mem: &PhysMem, page: u64) -> bool
    requires { page < 2 ^ 38 }
{
    match walk(&Words { mem }, 4, Shape::Sv48x4, page * 4096, Access::Load) {
        WalkEnd::Leaf(_frame, _level, _r, _w, _x, _u) => true,
        WalkEnd::PageFault => false,
        WalkEnd::FetchEnd(_place, _trap) => false,
    }
}

// The doublewords of memory.
fn words_of(alloc: Global, mem: &PhysMem) -> Result<Vec<u64>, NoMemory> {
    let count = mem.size() / 8;
    let mut words = Vec::with_capacity(alloc, count as usize)?;
    for i in 0..count {
        words.push(mem.load(8 * i, 8))?;
    }
    Ok(words)
}

// How many doublewords of memory differ from these.
fn differing(mem: &PhysMem, before: &[u64]) -> u64 {
    let mut differing = 0;
    for i in 0..mem.size() / 8 {
        if before.get(i as usize) != Some(&mem.load(8 * i, 8)) {
            differing += 1;
        }
    }
    differing
}

// Of sixteen pages in spans of their own the oldest goes for one more: whether it has a leaf then, and how
// many doublewords differ.
fn one_more(alloc: Global, span: Span, page: u64) -> Result<Option<(bool, u64)>, NoMemory>
    requires { page < 2 ^ 38 }
{
    let Some(SpaceInMemory { mut mem, mut space }) = of_sixteen(alloc)? else {
        return Ok(None);
    };
    fill_spans(&mut space, &mut mem, span);
    let before = words_of(alloc, &mem)?;
    fill(&mut space, &mut mem, page);
    Ok(Some((has_leaf(&mem, 0), differing(&mem, &before))))
}

// Three of each page's tables, since all share the root's entry.
#[test]
fn a_fill_of_one_page_more(rt: HostRuntime) {
    let made = one_more(rt.alloc(), Span::Large, 4_194_817).expect(&rt, "memory");
    assert!(rt; made == Some((false, 6)));
}

// Four of each page's tables: the pages share none, and differ in the index of each level.
#[test]
fn a_fill_of_one_page_of_another_region(rt: HostRuntime) {
    let made = one_more(rt.alloc(), Span::Huge, 0x8004_0201).expect(&rt, "memory");
    assert!(rt; made == Some((false, 8)));
}

// Two pages, one of which is cut, and then both are wiped.
fn cut_and_wiped(alloc: Global) -> Result<Option<[bool; 3]>, NoMemory> {
    let Some(SpaceInMemory { mut mem, mut space }) = of_sixteen(alloc)? else {
        return Ok(None);
    };
    fill(&mut space, &mut mem, 0x10);
    fill(&mut space, &mut mem, 0x20);
    let root: u64 = space.root();
    space.cut(&mut mem, 0x10u64);
    let cut = !has_leaf(&mem, 0x10) && has_leaf(&mem, 0x20);
    space.wipe(&mut mem);
    Ok(Some([root == 4, cut, has_leaf(&mem, 0x20)]))
}

#[test]
fn a_cut_and_a_wipe(rt: HostRuntime) {
    let made = cut_and_wiped(rt.alloc()).expect(&rt, "memory");
    assert!(rt; made == Some([true, true, false]));
}

// Whether a page has its leaf where block 7 is in the place of block 5.
fn moved(alloc: Global) -> Result<Option<bool>, NoMemory> {
    let before = part(&[5, 3], 0, 8, 1, 16);
    let after = part(&[7, 3], 0, 8, 1, 16);
    let Some(SpaceInMemory { mut mem, mut space }) = empty_space(alloc, &before, 57, 16)? else {
        return Ok(None);
    };
    space.fill(&mut mem, PAGE);
    space.moved(&mut mem, &after);
    Ok(Some(has_leaf(&mem, 0x10)))
}

#[test]
fn a_space_in_a_moved_part(rt: HostRuntime) {
    assert!(rt; moved(rt.alloc()).expect(&rt, "memory") == Some(true));
}
