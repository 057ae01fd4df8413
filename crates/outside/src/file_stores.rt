// The files of the file system as a store.

ghost use Rattle.std.specs.Prelude.{◌≡◌, ◌≤◌, length, None, is_ok, IfOk, IsErrOf, if◌then◌else◌};
ghost use Rattle.outside.specs.Files.{GivesFile};
ghost use Rattle.outside.specs.Faults.{Rose, one_more};
ghost use Rattle.outside.specs.FileStores.{IsErrorOf};

use crate::stores::{Store, StoreFault};
use std::alloc::Global;
use std::io::{ErrorKind, Read};
use std::marker::Model;
use std::rt::Files;
use std::{fs, io};

/// The files of a file system. It tells nothing of their content.
#[derive(Drop)]
pub struct FileStore<'a, R> {
    rt: &'a R,
    faults: u64,
    error: Option<ErrorKind>,
}

impl<'a, R> Model for FileStore<'a, R> {
    ghost use Rattle.outside.specs.FileStores.{FileState};

    ghost Value = { FileState };

    ghost view = { λ s. record { faults = s.faults; error = s.error } };
}

impl<'a, R> FileStore<'a, R> {
    /// The files of the system, of which none was read.
    pub fn new(rt: &'a R) -> FileStore<'a, R>
        ensures { result ≡ record { faults = 0; error = None } }
    {
        FileStore {
            rt,
            faults: 0,
            error: None,
        }
    }

    /// The count of its faults.
    pub fn faults(&self) -> u64
        ensures { result ≡ self.now.faults }
    {
        self.faults
    }

    /// The kind of the system's error at the last read, if there was one.
    pub fn error(&self) -> Option<ErrorKind>
        ensures { result ≡ self.now.error }
    {
        self.error
    }
}

fn first_bytes<R: Files>(rt: &R, alloc: Global, name: &str, most: u64) -> io::Result<Vec<u8>>
    ensures { IfOk result (λ v. length v.items ≤ most) }
{
    let file = fs::open(rt, name)?;
    let mut bytes = Vec::new(alloc);
    file.take(most).read_to_end(&mut bytes)?;
    // Cuts nothing off, but no clause of `take` says so.
    bytes.truncate(most as usize);
    Ok(bytes)
}

impl<'a, R: Files> Store for FileStore<'a, R> {
    ghost files = { λ _. None };

    ghost asked = { λ _. None };

    ghost faults = { λ s. s.faults };

    fn read(&mut self, alloc: Global, name: &str, most: u64) -> Result<Vec<u8>, StoreFault>
        ensures bytes { IfOk result (λ v. GivesFile None name.now most v.items) }
        ensures short { IfOk result (λ v. length v.items ≤ most) }
        ensures cause { IsErrOf result StoreFault.Failed → Rose self.old.faults self.new.faults }
        ensures count { self.old.faults ≤ self.new.faults }
        ensures leaves { self.new.faults
            ≡ (if is_ok result then self.old.faults else one_more self.old.faults) }
        ensures error { IsErrorOf result self.new.error }
    {
        match first_bytes(self.rt, alloc, name, most) {
            Ok(bytes) => {
                self.error = None;
                Ok(bytes)
            }
            Err(error) => {
                self.error = Some(error.kind());
                self.faults = self.faults.saturating_add(1);
                if error.kind() == ErrorKind::OutOfMemory {
                    Err(StoreFault::NoMemory)
                } else {
                    Err(StoreFault::Failed)
                }
            }
        }
    }
}
