// What a run reads and writes: stores and sinks, sections and their comparison, words, generated images, and
// turns.

use guest_settings::{GuestSpec, Name, Status};
use no_memory::NoMemory;
use outside::{
    CleanSink, CleanStore, Connection, ListConnection, ListSink, MapStore, ReceiveFault, Sink,
    SinkFault, Store, StoreFault, Word,
};
use replay::{Compare, Verdict};
use report::{GuestLine, section};
use std::alloc::Global;
use turn_plan::Turns;
use work_images::{guests, noise};

// A refused read by a number.
fn told(fault: StoreFault) -> u8 {
    match fault {
        StoreFault::NoMemory => 0,
        StoreFault::Failed => 1,
    }
}

#[test]
fn a_store_of_files(rt: HostRuntime) {
    let alloc = rt.alloc();
    let mut store: MapStore = MapStore::new(alloc);
    store.insert("a", b"abc").expect(&rt, "memory");
    let read: Result<Vec<u8>, StoreFault> = store.read(alloc, "a", 2u64);
    assert!(rt; read.ok().map(|bytes| bytes.len()) == Some(2));
    assert!(rt; store.read(alloc, "b", 2).err().map(told) == Some(1));
}

// The second read fails, and is told.
#[test]
fn a_store_that_fails(rt: HostRuntime) {
    let alloc = rt.alloc();
    let mut store = MapStore::new(alloc);
    store.insert("a", b"abc").expect(&rt, "memory");
    store.fail_at(2u64).expect(&rt, "memory");
    assert!(rt; store.read(alloc, "a", 5).is_ok());
    assert!(rt; store.read(alloc, "a", 5).err().map(told) == Some(1));
    assert!(rt; store.asked().last().map(|asked| asked.failed()) == Some(true));
    assert!(rt; store.faults() == 1);
}

#[test]
fn a_store_without_faults(rt: HostRuntime) {
    let alloc = rt.alloc();
    let mut store: CleanStore = CleanStore::new(alloc);
    store.insert("a", b"abc").expect(&rt, "memory");
    let read = store.read(alloc, "a", 2);
    assert!(rt; read.ok().map(|bytes| bytes.len()) == Some(2));
    let other = store.read(alloc, "b", 2);
    assert!(rt; other.ok().map(|bytes| bytes.len()) == Some(0));
}

// A store that has no memory for any file: it has one call, and no other.
#[derive(Clone, Copy)]
struct NoRoom;

impl Store for NoRoom {
    ghost use Rattle.std.specs.Prelude.{None};

    ghost files = { λ _. None };

    ghost asked = { λ _. None };

    ghost faults = { λ _. 0 };

    fn read(&mut self, _alloc: Global, _name: &str, _most: u64) -> Result<Vec<u8>, StoreFault> {
        Err(StoreFault::NoMemory)
    }
}

#[test]
fn a_store_without_room(rt: HostRuntime) {
    let mut store = NoRoom;
    assert!(rt; store.read(rt.alloc(), "a", 2).err().map(told) == Some(0));
}

// A sink that takes all and tells nothing: it has one call, and no other.
#[derive(Clone, Copy)]
struct Takes;

impl Sink for Takes {
    ghost stands_for = { λ _ _. ⊥ };

    ghost took = { λ _ _. ⊥ };

    ghost faults = { λ _. 0 };

    fn put(&mut self, _piece: &[u8]) -> Result<(), SinkFault> {
        Ok(())
    }
}

#[test]
fn a_sink_that_takes_all(rt: HostRuntime) {
    let mut sink = Takes;
    assert!(rt; sink.put(b"a").is_ok());
}

// The one refusal of a put, by a number.
fn number_of(fault: SinkFault) -> u8 {
    match fault {
        SinkFault::Failed => 0,
    }
}

#[test]
fn a_sink_with_a_room(rt: HostRuntime) {
    let mut sink: ListSink = ListSink::new(rt.alloc(), 2).expect(&rt, "memory");
    let put: Result<(), SinkFault> = sink.put(b"a");
    assert!(rt; put.is_ok());
    assert!(rt; sink.put(b"bc").err().map(number_of) == Some(0));
    assert!(rt; sink.bytes() == b"ab".as_slice());
    let mut clean = CleanSink;
    assert!(rt; clean.put(b"a").is_ok());
}

// Of the piece of the second put a byte is taken.
#[test]
fn a_sink_that_fails(rt: HostRuntime) {
    let mut sink = ListSink::new(rt.alloc(), 9).expect(&rt, "memory");
    sink.fail_at(2u64, 1usize).expect(&rt, "memory");
    assert!(rt; sink.put(b"ab").is_ok());
    assert!(rt; sink.put(b"cd").is_err());
    assert!(rt; sink.bytes() == b"abc".as_slice());
    assert!(rt; sink.faults() == 1);
}

// Two bytes come at most at once, and the second read fails.
#[test]
fn a_connection(rt: HostRuntime) {
    let alloc = rt.alloc();
    let out = ListSink::new(alloc, 3).expect(&rt, "memory");
    let mut connection = ListConnection::new(alloc, b"abc", 2, 4, out).expect(&rt, "memory");
    connection.fail_at(2u64).expect(&rt, "memory");
    let mut room = [0; 3];
    assert!(rt; connection.receive(&mut room) == Ok(2));
    assert!(rt; connection.receive(&mut room) == Err(ReceiveFault::Failed));
    assert!(rt; connection.receive(&mut room) == Ok(1));
    assert!(rt; room.as_slice() == b"cb\0".as_slice());
    assert!(rt; connection.send(b"xy").is_ok());
    assert!(rt; connection.out().bytes() == b"xy".as_slice());
}

// A name of one letter.
fn name(alloc: Global) -> Result<Name, NoMemory> {
    Ok(Name::from_vec(vec![in alloc; b'a']?))
}

#[test]
fn a_section(rt: HostRuntime) {
    let name = name(rt.alloc()).expect(&rt, "memory");
    let mut sink = ListSink::new(rt.alloc(), 100).expect(&rt, "memory");
    let line = GuestLine {
        name: &name,
        status: Status::Stopped,
        steps: 5u64,
    };
    if name.as_slice().len() <= 32 {
        let put: Result<(), SinkFault> = section(&line, b"A", &mut sink);
        assert!(rt; put.is_ok());
    }
    assert!(rt; sink.bytes() == b"guest a stopped steps 5 bytes 1\nA\n".as_slice());
}

fn place_of(verdict: Verdict) -> Option<u64> {
    match verdict {
        Verdict::Same => None,
        Verdict::Differs(place) => Some(place),
    }
}

#[test]
fn a_comparison(rt: HostRuntime) {
    let mut same: Compare = Compare::new(b"ab");
    let _put = same.put(b"ab");
    assert!(rt; place_of(same.verdict()) == None);
    let mut other = Compare::new(b"ab");
    let _put = other.put(b"ac");
    assert!(rt; place_of(other.verdict()) == Some(1));
}

#[test]
fn a_word(rt: HostRuntime) {
    let word: Word = Word::new(rt.alloc(), "run").expect(&rt, "memory");
    assert!(rt; word.as_str() == "run");
}

// The first draws of the seed 0.
#[test]
fn noise_of_four_bytes(rt: HostRuntime) {
    let bytes: Vec<u8> = noise(rt.alloc(), 0u64, 4u64).expect(&rt, "memory");
    assert!(rt; bytes.as_slice() == [0x00, 0xDC, 0x04, 0x65].as_slice());
}

#[test]
fn generated_guests(rt: HostRuntime) {
    let made: Vec<GuestSpec> = guests(rt.alloc(), 0u64, 1u64).expect(&rt, "memory");
    assert!(rt; made.len() == 4);
}

#[test]
fn turns_of_rounds(rt: HostRuntime) {
    let turns: Turns = Turns::of_rounds(rt.alloc(), 2u64, 5u64, 1u64).expect(&rt, "memory");
    assert!(rt; turns.as_slice() == [(0, 5), (1, 5)].as_slice());
    let weighted: Turns = Turns::of_weights(rt.alloc(), &[2u64, 1u64], 5u64, 1u64).expect(
        &rt, "memory",
    );
    assert!(rt; weighted.as_slice() == [(0, 10), (1, 5)].as_slice());
}
