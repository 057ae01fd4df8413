// Makes the words, the files and the streams that the log takes, and ends with its answer.
#![tactic(auto)]

use outside::{FileStore, ProcessArguments, StdSink, words_of};
use std::process::ExitCode;
use trace_top::trace;

fn main(rt: HostRuntime) -> ExitCode {
    let words = words_of(&ProcessArguments::new(&rt), rt.alloc());
    let mut store = FileStore::new(&rt);
    let mut out = StdSink::new(rt.stdout());
    let mut err = StdSink::new(rt.stderr());
    ExitCode::from(trace(rt.alloc(), words, &mut store, &mut out, &mut err))
}
