// Guests on one hart: how they are booted, turned, moved, retired and saved, and what goes on from a file.

ghost use Rattle.std.specs.Prelude.{◌≡◌, ◌≤◌, IfOk, IfSome};
ghost use Rattle.guest_settings.specs.Needs.{need_of};
ghost use Rattle.guest_turns.specs.Limits.{AreBootable, frames_for};
ghost use Rattle.machine_defs.specs.Bootable.{IsBootable};
ghost use Rattle.guest_turns.specs.Sources.{AreBootableSources, needs_of_sources};
ghost use Rattle.frame_split.specs.Shares.{frames_with};

use guest_save::{SaveEnd, Saved, read};
use guest_settings::{Bytes, GuestSpec, Inputs, Name, Need, Status};
use guest_turns::{Host, MoveFault, Moves, Source};
use no_memory::NoMemory;
use outside::{ListSink, SinkFault};
use rv64_hart::Tally;
use std::alloc::Global;

// Puts `A` and stops: addi x17, x0, 1; addi x10, x0, 65; ecall; addi x17, x0, 8; ecall.
const PUTS_A: [u8; 20] = [
    0x93, 0x08, 0x10, 0x00, 0x13, 0x05, 0x10, 0x04, 0x73, 0x00, 0x00, 0x00, 0x93, 0x08, 0x80, 0x00,
    0x73, 0x00, 0x00, 0x00,
];

// Jumps to itself: jal x0, 0.
const LOOPS: [u8; 20] = [
    0x6F, 0, 0, 0, 0, 0, 0, 0, 0, 0, 0, 0, 0, 0, 0, 0, 0, 0, 0, 0,
];

// A guest of one block.
fn guest(alloc: Global, image: &[u8; 20]) -> Result<GuestSpec, NoMemory>
    ensures bootable { IfOk result IsBootable }
    ensures need { IfOk result (λ spec. need_of spec ≡ record { blocks = 1; spaces = 1; entries = 16 }) }
{
    Ok(GuestSpec {
        name: Name::from_vec(Vec::from_slice(alloc, b"a")?),
        image: Bytes::from_vec(Vec::from_slice(alloc, image)?),
        blocks: 1,
        spaces: 1,
        entries: 16,
        console: 100,
        inputs: Inputs::from_vec(Vec::new(alloc)),
        device: false,
    })
}

// Two of them.
#[tactic(auto, using(crate::proofs::SurfaceGuests::two_boot, crate::proofs::SurfaceGuests::two_fit))]
fn two(alloc: Global, image: &[u8; 20]) -> Result<Vec<GuestSpec>, NoMemory>
    ensures bootable { IfOk result (λ guests. AreBootable guests.items) }
    ensures frames { IfOk result (λ guests. frames_for guests.items ≤ 1138) }
{
    let first = guest(alloc, image)?;
    let second = guest(alloc, image)?;
    Ok(vec![in alloc; first, second]?)
}

fn booted(alloc: Global, image: &[u8; 20]) -> Result<Host, NoMemory> {
    Host::boot(alloc, two(alloc, image)?)
}

fn booted_spare(alloc: Global, spare: u64) -> Result<Option<Host>, NoMemory> {
    if spare > 32 {
        return Ok(None);
    }
    Ok(Some(Host::boot_spare(alloc, two(alloc, &PUTS_A)?, spare)?))
}

// A turn of a guest.
fn turned(host: &mut Host, g: u32, k: u64, tally: &mut Tally) -> Option<u64> {
    host.rooms_are_small();
    if g >= host.count() || host.has_retired(g) || k > 10_000 || host.steps(g) > 1000 {
        return None;
    }
    if tally.entries() > 1000 || tally.taken() > 1000 {
        return None;
    }
    let made: u64 = host.turn(g, k, tally);
    Some(made)
}

// What is told of a guest.
fn told(host: &Host, g: u32) -> Option<(Status, u64)> {
    if g >= host.count() {
        return None;
    }
    let status: Status = host.status(g);
    let steps: u64 = host.steps(g);
    Some((status, steps))
}

fn has_put(host: &Host, g: u32, bytes: &[u8]) -> bool {
    if g >= host.count() {
        return false;
    }
    let console: &[u8] = host.console(g);
    console == bytes
}

#[test]
fn turns(rt: HostRuntime) {
    let mut host: Host = booted(rt.alloc(), &PUTS_A).expect(&rt, "memory");
    let mut tally: Tally = Tally::new();
    assert!(rt; turned(&mut host, 0, 10, &mut tally) == Some(5));
    assert!(rt; told(&host, 0) == Some((Status::Stopped, 5)));
    assert!(rt; has_put(&host, 0, b"A"));
    assert!(rt; told(&host, 1) == Some((Status::Running, 0)));
}

// Ten thousand steps at which nothing is due are one entry of the hart.
#[test]
fn a_calm_turn_enters_the_hart_once(rt: HostRuntime) {
    let mut host = booted(rt.alloc(), &LOOPS).expect(&rt, "memory");
    let mut tally = Tally::new();
    assert!(rt; turned(&mut host, 0, 10_000, &mut tally) == Some(10_000));
    assert!(rt; (tally.entries(), tally.taken()) == (1, 10_000));
}

// Whether a block of a guest moves; none where the call may not be made.
fn relocated(host: &mut Host, g: u32, block: u64, moves: &mut Moves) -> Option<bool> {
    if g >= host.count() || host.has_retired(g) || moves.count() > 1000 {
        return None;
    }
    if block >= host.blocks(g) {
        return None;
    }
    let end: Result<(), MoveFault> = host.relocate(g, block, moves);
    match end {
        Ok(()) => Some(true),
        Err(MoveFault::NoSpare) => Some(false),
    }
}

fn retired(host: &mut Host, g: u32) -> bool {
    if g >= host.count() || host.has_retired(g) {
        return false;
    }
    host.retire(g);
    true
}

// No block is free until the other guest retires.
#[test]
fn a_block_moves_when_another_guest_has_retired(rt: HostRuntime) {
    let mut host = booted(rt.alloc(), &PUTS_A).expect(&rt, "memory");
    let mut moves: Moves = Moves::new();
    assert!(rt; relocated(&mut host, 0, 0, &mut moves) == Some(false));
    assert!(rt; retired(&mut host, 1));
    assert!(rt; relocated(&mut host, 0, 0, &mut moves) == Some(true));
    let free: u64 = host.free_blocks();
    let count: u64 = moves.count();
    assert!(rt; (free, count) == (1, 1));
}

#[test]
fn spare_blocks(rt: HostRuntime) {
    let host = booted_spare(rt.alloc(), 2).expect(&rt, "memory");
    assert!(rt; host.map(|host| host.free_blocks()) == Some(2));
}

// What is saved of a guest.
fn saved(alloc: Global, host: &Host, g: u32) -> Result<Option<ListSink>, NoMemory> {
    if g >= host.count() || host.has_retired(g) {
        return Ok(None);
    }
    let mut sink = ListSink::new(alloc, 3_000_000)?;
    let end: Result<(), SinkFault> = host.save(g, &mut sink);
    match end {
        Ok(()) => Ok(Some(sink)),
        Err(_) => Ok(None),
    }
}

const NEED: Need = Need {
    blocks: 1,
    spaces: 1,
    entries: 16,
};

// The sources of one guest that goes on, if it needs what these do.
#[tactic(auto, using(crate::proofs::SurfaceGuests::one_boots, crate::proofs::SurfaceGuests::one_fits))]
fn kept(alloc: Global, saved: Saved) -> Result<Option<Vec<Source>>, NoMemory>
    ensures bootable { IfOk result (λ found. IfSome found (λ sources. AreBootableSources sources.items)) }
    ensures frames { IfOk result (λ found. IfSome found (λ sources.
        frames_with (needs_of_sources sources.items) 1 ≤ 1081)) }
{
    let need: Need = saved.need();
    if need != NEED {
        return Ok(None);
    }
    saved.can_be_saved();
    let name = Name::from_vec(Vec::from_slice(alloc, b"a")?);
    Ok(Some(vec![in alloc; Source::Kept(name, saved)]?))
}

// The host of a guest that goes on from these bytes.
fn resumed(alloc: Global, bytes: &[u8]) -> Result<Option<Host>, NoMemory> {
    let end: Result<Saved, SaveEnd> = read(alloc, bytes);
    let saved = match end {
        Ok(saved) => saved,
        Err(SaveEnd::Bad) => return Ok(None),
        Err(SaveEnd::NoMemory) => return Err(NoMemory),
    };
    match kept(alloc, saved)? {
        Some(sources) => Ok(Some(Host::boot_from(alloc, sources, 1u64)?)),
        None => Ok(None),
    }
}

// A guest at its start has 78 numbers of 8 bytes, and its RAM of 2,097,152 bytes.
#[test]
fn a_saved_guest(rt: HostRuntime) {
    let host = booted(rt.alloc(), &PUTS_A).expect(&rt, "memory");
    let sink = saved(rt.alloc(), &host, 0).expect(&rt, "memory");
    assert!(rt; sink.map(|sink| sink.bytes().len()) == Some(2_097_776));
}

#[test]
fn bytes_that_are_no_machine(rt: HostRuntime) {
    let host = resumed(rt.alloc(), b"NESTHV").expect(&rt, "memory");
    assert!(rt; host.is_none());
}

// A guest that goes on from its start beside a spare block.
#[test]
fn a_guest_that_goes_on(rt: HostRuntime) {
    let host = booted(rt.alloc(), &PUTS_A).expect(&rt, "memory");
    let kept = saved(rt.alloc(), &host, 0).expect(&rt, "memory");
    let sink = kept.expect(&rt, "a guest that can be saved");
    let gone_on = resumed(rt.alloc(), sink.bytes()).expect(&rt, "memory");
    assert!(rt; gone_on.map(|host| host.free_blocks()) == Some(1));
}

// The blocks of a fresh guest.
fn blocks_of(source: Source) -> Option<u64> {
    match source {
        Source::Fresh(spec) => Some(spec.blocks),
        Source::Kept(name, saved) => {
            let _kept: (Name, Saved) = (name, saved);
            None
        }
    }
}

#[test]
fn a_source(rt: HostRuntime) {
    let source = Source::Fresh(guest(rt.alloc(), &PUTS_A).expect(&rt, "memory"));
    let need: Need = source.need();
    assert!(rt; need.blocks == 1);
    assert!(rt; blocks_of(source) == Some(1));
}
