// Frames of machine memory: parts, host tables, and images in RAM.

ghost use Rattle.std.specs.Prelude.{◌≡◌, true};
ghost use Rattle.frame_split.specs.Shares.{AreNeeds};

use crate::machines::{memory, part};
use arch_defs::Part;
use frame_split::{Need, PlanFault, Split, plan};
use guest_loader::{fits, load};
use host_tables::{build, frame_of};
use phys_mem::PhysMem;
use std::alloc::Global;

const SMALL: Need = Need {
    blocks: 1,
    spaces: 1,
    entries: 16,
};

const LARGE: Need = Need {
    blocks: 32,
    spaces: 1,
    entries: 16,
};

// 512 frames of RAM, 5 of the host table, and 4 and 3 for each entry of the space.
#[test]
fn a_need(rt: HostRuntime) {
    let frames: u64 = SMALL.frames();
    assert!(rt; frames == 569);
}

// A refusal by its number and what it keeps.
fn told(fault: PlanFault) -> (u8, u64) {
    match fault {
        PlanFault::NoMemory => (0, 0),
        PlanFault::TooMuch(sum) => (1, sum),
    }
}

fn planned(alloc: Global, needs: &[Need]) -> Option<Result<u64, PlanFault>> {
    if needs.len() > 16 || !are_needs(needs) {
        return None;
    }
    let split: Result<Split, PlanFault> = plan(alloc, needs, 0u64);
    match split {
        Ok(
            Split {
                parts,
                blocks: _blocks,
                frames,
            },
        ) => {
            let parts: Vec<Part> = parts;
            if parts.len() == needs.len() {
                Some(Ok(frames))
            } else {
                None
            }
        }
        Err(fault) => Some(Err(fault)),
    }
}

// Whether these are needs within the limits.
fn are_needs(needs: &[Need]) -> bool
    ensures { result ≡ true → AreNeeds needs.now }
{
    for i in 0..needs.len() {
        let need = needs[i];
        if need.blocks > 32 || need.spaces > 8 || need.entries > 256 {
            return false;
        }
    }
    true
}

#[test]
fn plans(rt: HostRuntime) {
    let two = planned(rt.alloc(), &[SMALL, SMALL]);
    assert!(rt; two.map(|end| end.map_err(told)) == Some(Ok(1138)));
    let sixteen = planned(rt.alloc(), &[LARGE; 16]);
    assert!(rt; sixteen.map(|end| end.map_err(told)) == Some(Err((1, 263_056))));
}

// RAM of the blocks 2 and 0, in this order.
#[test]
fn frames_of_addresses(rt: HostRuntime) {
    let part: Part = part(&[2, 0], 512, 516, 0, 0);
    let first: Option<u64> = frame_of(&part, 0x8000_0000u64);
    assert!(rt; first == Some(1024));
    assert!(rt; frame_of(&part, 0x8020_0000) == Some(0));
    assert!(rt; frame_of(&part, 0x8040_0000) == None);
}

// The word of the root that leads to RAM, and the first byte of RAM.
fn set_up(memory: &mut PhysMem, part: &Part, image: &[u8]) -> Option<(u64, u64)> {
    let size = memory.size();
    if !part.lies_in(size) || size != 0x40_0000 {
        return None;
    }
    build(memory, part, part.blocks().len() as u64);
    let held: bool = fits(part, image);
    if !held {
        return None;
    }
    load(memory, part, image);
    let size = memory.size();
    if size != 0x40_0000 {
        return None;
    }
    Some((memory.load(0x20_0010, 8), memory.load(0, 8)))
}

#[test]
fn a_table_and_an_image(rt: HostRuntime) {
    let mut memory = memory(rt.alloc(), 1024).expect(&rt, "memory");
    let part = part(&[0], 512, 516, 0, 0);
    assert!(rt; set_up(&mut memory, &part, &[7]) == Some((0x8_1001, 7)));
}
