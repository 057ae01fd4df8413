// Packets, framed.

ghost use Rattle.std.specs.Prelude.{◌≡◌, IfOk};
ghost use Rattle.gdb_packets.specs.Frames.{framed, marked};

use crate::digits::push_digits;
use crate::escapes::{checksum, escaped};
use no_memory::NoMemory;
use std::alloc::Global;

// Data between its marks.
fn marked(alloc: Global, body: &[u8]) -> Result<Vec<u8>, NoMemory>
    ensures { IfOk result (λ bytes. bytes.items ≡ marked body.now) }
{
    let mut bytes = Vec::new(alloc);
    bytes.push(b'$')?;
    bytes.extend_from_slice(body)?;
    bytes.push(b'#')?;
    push_digits(&mut bytes, checksum(body))?;
    Ok(bytes)
}

/// The packet of a payload. It may answer out of memory.
pub fn frame(alloc: Global, payload: &[u8]) -> Result<Vec<u8>, NoMemory>
    ensures { IfOk result (λ bytes. bytes.items ≡ framed payload.now) }
{
    let body = escaped(alloc, payload)?;
    marked(alloc, body.as_slice())
}
