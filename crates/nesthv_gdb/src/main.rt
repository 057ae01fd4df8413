// Makes the words, the files and the streams that the debugger takes, and ends with its answer.
#![tactic(auto)]

mod descriptions;

use descriptions::target_description;
use gdb_top::debug;
use outside::{FileStore, ProcessArguments, StdConnection, StdSink, words_of};
use std::process::ExitCode;

fn main(rt: HostRuntime) -> ExitCode {
    let (words, description) = match target_description(rt.alloc()) {
        Ok(text) => (words_of(&ProcessArguments::new(&rt), rt.alloc()), text),
        Err(no_memory) => (Err(no_memory), Vec::new(rt.alloc())),
    };
    let mut store = FileStore::new(&rt);
    let mut connection = StdConnection::new(rt.stdin(), rt.stdout());
    let mut err = StdSink::new(rt.stderr());
    ExitCode::from(debug(
        rt.alloc(),
        words,
        description.as_slice(),
        &mut store,
        &mut connection,
        &mut err,
    ))
}
