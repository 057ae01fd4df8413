// The streams of the process as sinks.

ghost use Rattle.std.specs.Prelude.{◌≡◌, ◌≤◌, is_ok, IfOk, OnOk, if◌then◌else◌};
ghost use Rattle.std.specs.Io.KnownBytes.{Appends};
ghost use Rattle.outside.specs.Faults.{one_more};

use crate::sinks::{Sink, SinkFault};
use std::io;
use std::io::Write;
use std::marker::Model;

/// A writer, such as standard output. It tells nothing of what was written.
#[derive(Drop)]
pub struct StdSink<W> {
    to: W,
    faults: u64,
}

impl<W> Model for StdSink<W> {
    ghost use Rattle.std.specs.Prelude.{ℕ};

    ghost Value = { W × ℕ };

    ghost view = { λ s. (s.to, s.faults) };
}

impl<W> StdSink<W> {
    /// A sink that writes to this writer.
    pub fn new(to: W) -> StdSink<W>
        ensures { result ≡ (to, 0) }
    {
        StdSink { to, faults: 0 }
    }

    /// The count of its faults.
    pub fn faults(&self) -> u64
        ensures { result ≡ self.now.1 }
    {
        self.faults
    }
}

fn write_through<W: Write>(to: &mut W, piece: &[u8]) -> io::Result<()>
    ensures { OnOk result (Appends (W.contents to.old) (W.contents to.new) piece.now) }
{
    to.write_all(piece)?;
    to.flush()
}

impl<W: Write> Sink for StdSink<W> {
    ghost stands_for = { λ _ _. ⊥ };

    ghost took = { λ _ _. ⊥ };

    ghost faults = { λ s. s.1 };

    fn put(&mut self, piece: &[u8]) -> Result<(), SinkFault>
        ensures count { self.old.1 ≤ self.new.1 }
        ensures leaves { self.new.1 ≡ (if is_ok result then self.old.1 else one_more self.old.1) }

        // Only where the writer tells its bytes, as one in memory does.
        ensures written { OnOk result (Appends (W.contents self.old.0) (W.contents self.new.0) piece.now) }
    {
        match write_through(&mut self.to, piece) {
            Ok(()) => Ok(()),
            Err(_) => {
                self.faults = self.faults.saturating_add(1);
                Err(SinkFault::Failed)
            }
        }
    }
}
