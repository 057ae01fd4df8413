// Asks the programs what the cases of some files of data say, over files and streams in memory that can fail in
// any way, and prints where the answers differ. Standard input has the names of the files.
#![tactic(auto)]

mod asks;
mod calls;
mod cases;
mod connections;
mod files;
mod numbers;
mod outcomes;
mod sinks;
mod stores;
mod sums;

use cases::told;
use std::rt::Files;
use std::{fs, io};

fn tell_file<R: Print + Files + AllocGlobal>(rt: &R, name: &str) -> io::Result<()> {
    match fs::read(rt, name) {
        Ok(bytes) => {
            let text = told(rt.alloc(), name, bytes.as_slice());
            print!(rt; "{text}")
        }
        Err(_) => println!(rt; "{name}: it cannot be read"),
    }
}

fn main(rt: HostRuntime) -> io::Result<()> {
    for name in rt.lines(rt.alloc()) {
        tell_file(&rt, name?.as_str())?;
    }
    Ok(())
}
