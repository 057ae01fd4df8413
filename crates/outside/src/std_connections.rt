// The streams of the process as a connection.

ghost use Rattle.std.specs.Prelude.{◌≡◌, ◌≤◌, length, None, is_ok, IfOk, OnOk, OnErr, if◌then◌else◌};
ghost use Rattle.std.specs.Io.KnownBytes.{Appends, Keeps};
ghost use Rattle.outside.specs.Connections.{GivesPiece};
ghost use Rattle.outside.specs.Faults.{one_more, CountsFaults};

use crate::connections::{Connection, ReceiveFault};
use crate::sinks::{Sink, SinkFault};
use crate::std_sinks::StdSink;
use std::io;
use std::io::{ErrorKind, Read, Write};
use std::marker::Model;

/// A reader and a writer, such as standard input and standard output. It tells nothing of what is
/// transferred.
#[derive(Drop)]
pub struct StdConnection<R, W> {
    from: R,
    to: StdSink<W>,
    read_faults: u64,
}

impl<R, W> Model for StdConnection<R, W> {
    ghost use Rattle.outside.specs.StdConnections.{ConnectionState};

    ghost Value = { ConnectionState R W };

    ghost view = { λ c. record {
      from = c.from;
      to = c.to.0;
      read_faults = c.read_faults;
      write_faults = c.to.1;
    } };
}

impl<R, W> StdConnection<R, W> {
    /// A connection that reads from the one and writes to the other.
    pub fn new(from: R, to: W) -> StdConnection<R, W>
        ensures { result ≡ record { from = from; to = to; read_faults = 0; write_faults = 0 } }
    {
        StdConnection {
            from,
            to: StdSink::new(to),
            read_faults: 0,
        }
    }

    /// The count of the faults of its reads.
    pub fn read_faults(&self) -> u64
        ensures { result ≡ self.now.read_faults }
    {
        self.read_faults
    }

    /// The count of the faults of its writes.
    pub fn write_faults(&self) -> u64
        ensures { result ≡ self.now.write_faults }
    {
        self.to.faults()
    }
}

// A read, made again as often as a signal has interrupted it.
#[tactic(auto, using(crate::proofs::Transfers::readings))]
fn read_through<R: Read>(from: &mut R, room: &mut [u8]) -> io::Result<usize>
    requires { 1 ≤ length room.old }
    ensures came { IfOk result (GivesPiece (R.remaining from.old) (R.remaining from.new) room.new) }
    ensures kept { OnErr result (Keeps (R.remaining from.old) (R.remaining from.new)) }
{
    for _ in 0..u64::MAX {
        match from.read(room) {
            Ok(n) => return Ok(n),
            Err(error) => {
                if error.kind() != ErrorKind::Interrupted {
                    return Err(error);
                }
            }
        }
    }
    from.read(room)
}

impl<R: Read, W: Write> Connection for StdConnection<R, W> {
    ghost coming = { λ _. None };

    ghost made = { λ _ _. ⊥ };

    ghost read_faults = { λ c. c.read_faults };

    ghost write_faults = { λ c. c.write_faults };

    fn receive(&mut self, room: &mut [u8]) -> Result<usize, ReceiveFault>
        requires { 1 ≤ length room.old }
        ensures faults { CountsFaults result self.old.read_faults self.new.read_faults }
        ensures leaves { self.new.read_faults
            ≡ (if is_ok result then self.old.read_faults else one_more self.old.read_faults) }
        ensures apart { self.new.write_faults ≡ self.old.write_faults }

        // What came is known only where the reader tells its bytes, as one in memory does.
        ensures read { IfOk result
            (GivesPiece (R.remaining self.old.from) (R.remaining self.new.from) room.new) }
    {
        match read_through(&mut self.from, room) {
            Ok(n) => Ok(n),
            Err(_) => {
                self.read_faults = self.read_faults.saturating_add(1);
                Err(ReceiveFault::Failed)
            }
        }
    }

    fn send(&mut self, piece: &[u8]) -> Result<(), SinkFault>
        ensures faults { CountsFaults result self.old.write_faults self.new.write_faults }
        ensures leaves { self.new.write_faults
            ≡ (if is_ok result then self.old.write_faults else one_more self.old.write_faults) }
        ensures apart { self.new.read_faults ≡ self.old.read_faults }

        // Only where the writer tells its bytes, as one in memory does.
        ensures written { OnOk result
            (Appends (W.contents self.old.to) (W.contents self.new.to) piece.now) }
    {
        self.to.put(piece)
    }
}
