//! What a program reads from and writes to: named files and streams of bytes, real ones and ones in memory.
#![tactic(auto)]

pub use arguments::{Arguments, ProcessArguments, words_of};
pub use clean_sinks::CleanSink;
pub use clean_stores::CleanStore;
pub use connections::{Connection, Piece, ReceiveFault, Transfer};
pub use file_stores::FileStore;
pub use list_connections::{ListConnection, ReadMade};
pub use list_sinks::ListSink;
pub use map_stores::{Asked, MapStore};
pub use no_memory::NoMemory;
pub use sinks::{Sink, SinkFault};
pub use std_connections::StdConnection;
pub use std_sinks::StdSink;
pub use stores::{Store, StoreFault};
pub use words::Word;

mod arguments;
mod clean_sinks;
mod clean_stores;
mod connections;
mod file_stores;
mod list_connections;
mod list_sinks;
mod map_stores;
mod named;
mod sinks;
mod std_connections;
mod std_sinks;
mod stores;
mod words;
