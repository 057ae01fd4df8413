// The whole program, by its words, its files and its streams.

use guest_turns::Moves;
use nesthv_top::nesthv;
use no_memory::NoMemory;
use outside::{ListSink, MapStore, Word};
use rv64_hart::Tally;
use std::alloc::Global;

const USAGE: &'static [u8] =
    b"nesthv: usage: run CONFIG | replay CONFIG REPORT | check CONFIG | work SEED SIZE \
    | save CONFIG GUEST\n";

// The status, and what is written on both streams.
#[derive(Drop)]
struct Left {
    status: u8,
    out: ListSink,
    err: ListSink,
}

fn words(alloc: Global, texts: &[&str]) -> Result<Vec<Word>, NoMemory> {
    let mut words = Vec::new(alloc);
    for &text in texts {
        words.push(Word::new(alloc, text)?)?;
    }
    Ok(words)
}

fn called(alloc: Global, texts: &[&str]) -> Result<Left, NoMemory> {
    let words = words(alloc, texts)?;
    let mut store = MapStore::new(alloc);
    let mut out = ListSink::new(alloc, 1000)?;
    let mut err = ListSink::new(alloc, 1000)?;
    let mut tally = Tally::new();
    let mut moves = Moves::new();
    let status: u8 = nesthv(
        alloc,
        words.as_slice(),
        &mut store,
        &mut out,
        &mut err,
        &mut tally,
        &mut moves,
    );
    Ok(Left { status, out, err })
}

#[test]
fn no_command(rt: HostRuntime) {
    let left = called(rt.alloc(), &["nesthv", "run"]).expect(&rt, "memory");
    assert!(rt; left.status == 1);
    assert!(rt; left.out.bytes() == b"".as_slice());
    assert!(rt; left.err.bytes() == USAGE);
}
