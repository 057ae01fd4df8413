// What the system gives and takes: the words of a process, files and streams. No contract tells what they hold.

use outside::{
    Connection, FileStore, ProcessArguments, ReceiveFault, Sink, SinkFault, StdConnection, StdSink,
    Store, StoreFault, Word, words_of,
};
use std::alloc::Global;
use std::env::FillError;
use std::io;
use std::io::{ErrorKind, Read, Write};
use std::rt::Env;

// A process with these arguments.
#[derive(Drop)]
struct Given<'a> {
    arguments: &'a [&'a [u8]],
}

impl Env for Given<'_> {
    fn arg(&self, i: usize, buf: &mut [u8]) -> Result<usize, FillError> {
        let Some(bytes) = self.arguments.get(i) else {
            return Err(FillError::NotPresent);
        };
        if bytes.len() > buf.len() {
            return Err(FillError::TooLong);
        }
        buf[..bytes.len()].copy_from_slice(bytes);
        Ok(bytes.len())
    }

    fn var(&self, _name: &str, _buf: &mut [u8]) -> Result<usize, FillError> {
        Err(FillError::NotPresent)
    }

    fn var_at(&self, _i: usize, _buf: &mut [u8]) -> Result<usize, FillError> {
        Err(FillError::NotPresent)
    }
}

// Arguments and their words. An argument that is not a text is an empty word.
static ARGUMENTS: [&'static [u8]; 5] = [b"nesthv", b"", b"\xC3\xA4", b"a\xFFb", &[b'l'; 300]];

static TEXTS: [&'static [u8]; 5] = [b"nesthv", b"", b"\xC3\xA4", b"", &[b'l'; 300]];

fn are_texts(words: &[Word], texts: &[&[u8]]) -> bool {
    words.len() == texts.len()
        && words
            .iter()
            .zip(texts)
            .all(|(word, text)| word.as_str().as_bytes() == *text)
}

#[test]
fn each_argument_is_a_word(rt: HostRuntime) {
    let given = Given {
        arguments: &ARGUMENTS,
    };
    let words = words_of(&ProcessArguments::new(&given), rt.alloc()).expect(&rt, "memory");
    assert!(rt; are_texts(words.as_slice(), &TEXTS));
}

// A read of at most that many bytes, and the bytes that it gives: none where it fails.
#[derive(Clone, Copy)]
struct Request {
    name: &'static str,
    most: u64,
    wanted: Option<&'static [u8]>,
}

static REQUESTS: [Request; 3] = [
    Request {
        name: "surface.bin",
        most: 4,
        wanted: Some(b"0123"),
    },
    Request {
        name: "surface.bin",
        most: 65_537,
        wanted: Some(b"0123456789"),
    },
    Request {
        name: "surface-missing.bin",
        most: 4,
        wanted: None,
    },
];

fn is_answered<S: Store>(store: &mut S, alloc: Global, request: Request) -> bool {
    match store.read(alloc, request.name, request.most) {
        Ok(bytes) => request.wanted == Some(bytes.as_slice()),
        Err(fault) => fault == StoreFault::Failed && request.wanted.is_none(),
    }
}

// A file that is there, whole and in part, and one that is not.
#[test]
fn files(rt: HostRuntime) {
    std::fs::write(&rt, "surface.bin", b"0123456789").expect(&rt, "a file is written");
    let mut store = FileStore::new(&rt);
    for &request in &REQUESTS {
        assert!(rt; is_answered(&mut store, rt.alloc(), request));
    }
    assert!(rt; store.faults() == 1);
    assert!(rt; store.error() == Some(ErrorKind::NotFound));
    std::fs::remove_file(&rt, "surface.bin").expect(&rt, "the file is removed");
}

// A writer that takes that many bytes and then nothing.
#[derive(Drop)]
struct Narrow {
    left: usize,
}

impl Write for Narrow {
    fn write(&mut self, piece: &[u8]) -> io::Result<usize> {
        let taken = piece.len().min(self.left);
        self.left -= taken;
        Ok(taken)
    }

    fn flush(&mut self) -> io::Result<()> {
        Ok(())
    }
}

// A stream that takes nothing of a piece is a fault.
#[test]
fn a_stream_that_is_full(rt: HostRuntime) {
    let mut sink = StdSink::new(Narrow { left: 5 });
    assert!(rt; sink.put(b"abc").is_ok());
    assert!(rt; sink.put(b"def") == Err(SinkFault::Failed));
    assert!(rt; sink.put(b"").is_ok());
    assert!(rt; sink.faults() == 1);
    assert!(rt; StdSink::new(rt.stderr()).put(b"").is_ok());
}

// A reader whose first read is interrupted, whose second gives a byte, and whose later ones fail.
#[derive(Drop)]
struct Shaky {
    reads: u8,
}

impl Read for Shaky {
    fn read(&mut self, buf: &mut [u8]) -> io::Result<usize> {
        self.reads = self.reads.saturating_add(1);
        match self.reads {
            1 => Err(io::Error::from(ErrorKind::Interrupted)),
            2 if !buf.is_empty() => {
                buf[0] = b'a';
                Ok(1)
            }
            _ => Err(io::Error::from(ErrorKind::Other)),
        }
    }
}

#[test]
fn a_connection_that_fails(rt: HostRuntime) {
    let mut connection = StdConnection::new(Shaky { reads: 0 }, Narrow { left: 0 });
    let mut room = [0; 2];
    assert!(rt; connection.receive(&mut room) == Ok(1));
    assert!(rt; room.as_slice() == b"a\0".as_slice());
    assert!(rt; connection.receive(&mut room) == Err(ReceiveFault::Failed));
    assert!(rt; connection.send(b"x") == Err(SinkFault::Failed));
    assert!(rt; (connection.read_faults(), connection.write_faults()) == (1, 1));
}
