// Spaces of cached translations by their pool. Blocks 5 and 3 are outside the frames of these tests, which
// hold tables alone: the host's root from 0 on, those of two spaces from 4 on, the host's other table at 12,
// and those of the spaces from 13 on.

ghost use Rattle.std.specs.Prelude.{◌≡◌, ◌<◌, length, IfOk, IfSome};
ghost use Rattle.shadow_pool.specs.Slots.{HasSpaceFor, TidyPool, spaces_of};

use crate::machines::{PoolInMemory, empty_pool, part};
use arch_defs::{Entry, Fence, GuestMode, GuestRoot, Key};
use no_memory::NoMemory;
use phys_mem::PhysMem;
use shadow_pool::Pool;
use std::alloc::Global;

// A pool of two spaces.
fn two_spaces(alloc: Global) -> Result<Option<PoolInMemory>, NoMemory>
    ensures tidy { IfOk result (λ made. IfSome made (λ m. TidyPool m.pool m.mem)) }
    ensures blocks { IfOk result (λ made. IfSome made (λ m. length m.pool.part.blocks ≡ 2)) }
{
    empty_pool(alloc, &part(&[5, 3], 0, 12, 2, 16), 109, 16)
}

fn key(vmid: u64) -> Key {
    Key::of(GuestRoot::Table {
        mode: GuestMode::Sv39x4,
        vmid,
        ppn: 0x8_0004,
    })
}

const PAGE: Entry = Entry {
    page: 0x10,
    frame: 0x8_0003,
    r: true,
    w: false,
    x: false,
    level: 0,
};

// Fills the page into the space of a value that is entered.
fn fill(machine: &mut PoolInMemory, key: Key)
    requires tidy { TidyPool machine.old.pool machine.old.mem }
    requires blocks { length machine.old.pool.part.blocks ≡ 2 }
    requires held { HasSpaceFor key (spaces_of machine.old.pool) }
    ensures tidy { TidyPool machine.new.pool machine.new.mem }
    ensures blocks { length machine.new.pool.part.blocks ≡ 2 }
{
    machine.pool.fill(&mut machine.mem, key, PAGE);
}

fn enter(machine: &mut PoolInMemory, key: Key)
    requires tidy { TidyPool machine.old.pool machine.old.mem }
    requires blocks { length machine.old.pool.part.blocks ≡ 2 }
    ensures tidy { TidyPool machine.new.pool machine.new.mem }
    ensures blocks { length machine.new.pool.part.blocks ≡ 2 }
    ensures held { HasSpaceFor key (spaces_of machine.new.pool) }
{
    let _root: u64 = machine.pool.enter(&mut machine.mem, key);
}

// Whether space i is for this value, with the page or without.
fn is_space(pool: &Pool, i: u64, key: Key, has_page: bool) -> bool {
    if i >= pool.held() {
        return false;
    }
    let held: Key = pool.key(i);
    let len: u64 = pool.len(i);
    held == key && len == has_page as u64 && (!has_page || has_the_page(pool, i))
}

fn has_the_page(pool: &Pool, i: u64) -> bool {
    if i >= pool.held() || pool.len(i) == 0 {
        return false;
    }
    let entry: Entry = pool.entry(i, 0);
    entry == PAGE
}

// Whether the spaces are those of these two values, the first of which or the second has the page.
fn has(pool: &Pool, first: (Key, bool), second: (Key, bool)) -> bool {
    pool.held() == 2 && is_space(pool, 0, first.0, first.1) && is_space(pool, 1, second.0, second.1)
}

// P with its page, then Q and P again; R drops Q, Q drops P, and P is empty when it comes again.
fn are_in_order(machine: &mut PoolInMemory, p: Key, q: Key, r: Key) -> [bool; 4]
    requires tidy { TidyPool machine.old.pool machine.old.mem }
    requires blocks { length machine.old.pool.part.blocks ≡ 2 }
{
    enter(machine, p);
    fill(machine, p);
    enter(machine, q);
    enter(machine, p);
    let first = has(&machine.pool, (p, true), (q, false));
    enter(machine, r);
    let second = has(&machine.pool, (r, false), (p, true));
    enter(machine, q);
    let third = has(&machine.pool, (q, false), (r, false));
    enter(machine, p);
    [
        first,
        second,
        third,
        has(&machine.pool, (p, false), (q, false)),
    ]
}

#[test]
fn two_spaces_in_order(rt: HostRuntime) {
    let made = two_spaces(rt.alloc()).expect(&rt, "memory");
    let mut machine = made.expect(&rt, "frames for the tables");
    assert!(rt; are_in_order(&mut machine, key(1), key(2), key(3)) == [true, true, true, true]);
}

// A fill into a space that is not in front, and a fence that names another VMID, and then its own.
fn fenced(machine: &mut PoolInMemory, p: Key, q: Key) -> [bool; 3]
    requires tidy { TidyPool machine.old.pool machine.old.mem }
    requires blocks { length machine.old.pool.part.blocks ≡ 2 }
{
    enter(machine, p);
    fill(machine, p);
    enter(machine, q);
    let filled = has(&machine.pool, (q, false), (p, true));
    machine.pool.fence(
        &mut machine.mem,
        Fence {
            vmid: Some(2),
            page: None,
        },
    );
    let kept = has(&machine.pool, (q, false), (p, true));
    machine.pool.fence(
        &mut machine.mem,
        Fence {
            vmid: Some(1),
            page: Some(0x10),
        },
    );
    [filled, kept, has(&machine.pool, (q, false), (p, false))]
}

#[test]
fn a_fence_of_a_pool(rt: HostRuntime) {
    let made = two_spaces(rt.alloc()).expect(&rt, "memory");
    let mut machine = made.expect(&rt, "frames for the tables");
    assert!(rt; fenced(&mut machine, key(1), key(2)) == [true, true, true]);
}

// Whether the page is still the space's where block 7 is in the place of block 5.
fn moved(alloc: Global) -> Result<Option<bool>, NoMemory> {
    let before = part(&[5, 3], 0, 12, 2, 16);
    let after = part(&[7, 3], 0, 12, 2, 16);
    let Some(mut machine) = empty_pool(alloc, &before, 109, 16)? else {
        return Ok(None);
    };
    let p = key(1);
    machine.pool.enter(&mut machine.mem, p);
    machine.pool.fill(&mut machine.mem, p, PAGE);
    machine.pool.moved(&mut machine.mem, &after);
    Ok(Some(is_space(&machine.pool, 0, p, true)))
}

#[test]
fn a_pool_in_a_moved_part(rt: HostRuntime) {
    assert!(rt; moved(rt.alloc()).expect(&rt, "memory") == Some(true));
}
