// Memory as the present mode has it.

ghost use Rattle.std.specs.Prelude.{◌≡◌, IfOk};
ghost use Rattle.gdb_stub.specs.Looking.{bytes_at, bytes_text, memory_text, offsets_in};
ghost use Rattle.run_positions.specs.Positions.{shown_of, IsShown, KeepsRun};

use crate::register_texts::error;
use gdb_packets::hex_of;
use no_memory::NoMemory;
use run_positions::{Positions, Runner};
use std::alloc::Global;

/// At most how many bytes are shown or watched at once.
pub(crate) const MOST: u64 = 1_024;

/// The offsets into RAM of that many bytes from an address on, up to the first that has no place.
#[tactic(auto, using(crate::proofs::Reading::readings))]
pub(crate) fn offsets_in<R: Runner + Drop>(
    alloc: Global,
    positions: &mut Positions<R>,
    from: u64,
    n: u64,
) -> Result<Vec<u64>, NoMemory>
    requires held { IsShown R.Runner positions.old }
    ensures offsets { IfOk result (λ offsets.
        offsets.items ≡ offsets_in (shown_of R.Runner positions.old) from n) }
    ensures keeps { KeepsRun R.Runner positions.old positions.new }
    ensures machine { shown_of R.Runner positions.new ≡ shown_of R.Runner positions.old }
    ensures place { positions.new.place ≡ positions.old.place }
{
    let mut offsets = Vec::new(alloc);
    let mut address = from;
    for i in 0..n {
        match positions.offset(address) {
            Some(offset) => offsets.push(offset)?,
            None => return Ok(offsets),
        }
        address = address.wrapping_add(1);
    }
    Ok(offsets)
}

// The bytes at offsets into RAM.
fn bytes_at<R: Runner>(alloc: Global, offsets: &[u64], runner: &R) -> Result<Vec<u8>, NoMemory>
    ensures { IfOk result (λ bytes. bytes.items ≡ bytes_at (R.machine runner.now) offsets.now) }
{
    let mut bytes = Vec::new(alloc);
    for i in 0..offsets.len() {
        bytes.push(runner.byte(offsets[i]))?;
    }
    Ok(bytes)
}

// Bytes as digits, or an error where there are none.
fn bytes_text(alloc: Global, bytes: &[u8]) -> Result<Vec<u8>, NoMemory>
    ensures { IfOk result (λ text. text.items ≡ bytes_text bytes.now) }
{
    if bytes.is_empty() {
        return error(alloc);
    }
    hex_of(alloc, bytes)
}

/// The text of bytes from an address on, as the present mode has it: at most 1,024 of them, up to the first
/// that has no place, or an error where none has. It may answer out of memory.
pub(crate) fn memory<R: Runner + Drop>(
    alloc: Global,
    positions: &mut Positions<R>,
    address: u64,
    n: u64,
) -> Result<Vec<u8>, NoMemory>
    requires held { IsShown R.Runner positions.old }
    ensures text { IfOk result (λ text.
        text.items ≡ memory_text (shown_of R.Runner positions.old) address n) }
    ensures keeps { KeepsRun R.Runner positions.old positions.new }
    ensures place { positions.new.place ≡ positions.old.place }
{
    let offsets = offsets_in(alloc, positions, address, n.min(MOST))?;
    let bytes = bytes_at(alloc, offsets.as_slice(), positions.runner())?;
    bytes_text(alloc, bytes.as_slice())
}
