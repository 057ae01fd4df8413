// Makes the words, the files, the streams, the tally and the count of moves that the program takes, and ends
// with its answer.
#![tactic(auto)]

use guest_turns::Moves;
use nesthv_top::program;
use outside::{FileStore, ProcessArguments, StdSink, words_of};
use rv64_hart::Tally;
use std::process::ExitCode;

fn main(rt: HostRuntime) -> ExitCode {
    let words = words_of(&ProcessArguments::new(&rt), rt.alloc());
    let mut store = FileStore::new(&rt);
    let mut out = StdSink::new(rt.stdout());
    let mut err = StdSink::new(rt.stderr());
    let mut tally = Tally::new();
    let mut moves = Moves::new();
    ExitCode::from(program(
        rt.alloc(),
        words,
        &mut store,
        &mut out,
        &mut err,
        &mut tally,
        &mut moves,
    ))
}
