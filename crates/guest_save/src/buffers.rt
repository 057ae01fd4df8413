// Bytes that are kept until one put can take many.

ghost use Rattle.std.specs.Prelude.{◌≡◌, ◌≤◌, [], length, OnOk};
ghost use Rattle.guest_save.specs.Buffers.{Buffers};
ghost use Rattle.outside.specs.Texts.{PutsText};
ghost use Rattle.guest_save.specs.Numbers.{number_bytes, numbers};

use arrayvec::ArrayVec;
use outside::{Sink, SinkFault};

/// How many bytes a buffer keeps.
pub const BUFFER_BYTES: usize = 4096;

/// Bytes that were not put yet.
pub type Buffer = ArrayVec<u8, BUFFER_BYTES>;

/// Puts what a buffer keeps.
pub fn flush<O: Sink>(held: &mut Buffer, out: &mut O) -> Result<(), SinkFault>
    ensures put { PutsText O.Sink result out.old out.new held.old.items }
    ensures left { OnOk result (held.new.items ≡ []) }
{
    if held.is_empty() {
        return Ok(());
    }
    out.put(held.as_slice())?;
    held.clear();
    Ok(())
}

/// Appends a small piece: it is kept, after what is kept was put where there is no room for both.
pub fn append<O: Sink>(piece: &[u8], held: &mut Buffer, out: &mut O) -> Result<(), SinkFault>
    requires { length piece.now ≤ 4096 }
    ensures { Buffers O.Sink result out.old held.old.items out.new held.new.items piece.now }
{
    if piece.len() <= BUFFER_BYTES - held.len() {
        held.try_extend_from_slice(piece).unwrap();
        return Ok(());
    }
    flush(held, out)?;
    held.try_extend_from_slice(piece).unwrap();
    Ok(())
}

/// Appends a piece that may be large: it is put at once, after what is kept.
pub fn append_whole<O: Sink>(piece: &[u8], held: &mut Buffer, out: &mut O) -> Result<(), SinkFault>
    ensures { Buffers O.Sink result out.old held.old.items out.new held.new.items piece.now }
{
    flush(held, out)?;
    out.put(piece)
}

/// Appends a piece, which is put at once where it is larger than a buffer.
pub fn append_piece<O: Sink>(piece: &[u8], held: &mut Buffer, out: &mut O) -> Result<(), SinkFault>
    ensures { Buffers O.Sink result out.old held.old.items out.new held.new.items piece.now }
{
    if piece.len() <= BUFFER_BYTES {
        append(piece, held, out)
    } else {
        append_whole(piece, held, out)
    }
}

/// Appends a number.
#[tactic(auto, unfolding(crate::specs::Numbers::number_bytes))]
pub fn append_number<O: Sink>(value: u64, held: &mut Buffer, out: &mut O) -> Result<(), SinkFault>
    ensures { Buffers O.Sink result out.old held.old.items out.new held.new.items (number_bytes value) }
{
    append(&value.to_le_bytes(), held, out)
}

/// Appends numbers.
pub fn append_numbers<O: Sink>(
    values: &[u64],
    held: &mut Buffer,
    out: &mut O,
) -> Result<(), SinkFault>
    ensures { Buffers O.Sink result out.old held.old.items out.new held.new.items (numbers values.now) }
{
    for i in 0..values.len() {
        append_number(values[i], held, out)?;
    }
    Ok(())
}
