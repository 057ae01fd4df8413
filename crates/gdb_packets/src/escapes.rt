// Data of packets, with their escapes, and their sum.

ghost use Rattle.std.specs.Prelude.{◌≡◌, ◌++◌, IfOk, option_map};
ghost use Rattle.gdb_packets.specs.Frames.{checksum, escaped, escaped_byte, is_special, turned, unescaped};

use no_memory::NoMemory;
use std::alloc::Global;

// The byte behind which a byte stands that is sent with bit 5 turned.
const ESCAPE: u8 = b'}';

// Whether a byte is sent behind an escape.
fn is_special(byte: u8) -> bool
    ensures { result ≡ is_special byte }
{
    byte == b'#' || byte == b'$' || byte == b'*' || byte == ESCAPE
}

// A byte with bit 5 turned.
fn turned(byte: u8) -> u8
    ensures { result ≡ turned byte }
{
    if byte / 32 % 2 == 0 {
        byte + 32
    } else {
        byte - 32
    }
}

// Appends a byte, behind an escape where it needs one.
#[tactic(auto, unfolding(crate::specs::Frames::escaped_byte))]
fn push_escaped(out: &mut Vec<u8>, byte: u8) -> Result<(), NoMemory>
    ensures { IfOk result (λ done. out.new.items ≡ out.old.items ++ escaped_byte byte) }
{
    if is_special(byte) {
        out.push(ESCAPE)?;
        out.push(turned(byte))?;
        return Ok(());
    }
    out.push(byte)?;
    Ok(())
}

/// The data of a packet.
pub fn escaped(alloc: Global, payload: &[u8]) -> Result<Vec<u8>, NoMemory>
    ensures { IfOk result (λ body. body.items ≡ escaped payload.now) }
{
    let mut body = Vec::new(alloc);
    for i in 0..payload.len() {
        push_escaped(&mut body, payload[i])?;
    }
    Ok(body)
}

/// The sum of a packet's data.
pub fn checksum(body: &[u8]) -> u8
    ensures { result ≡ checksum body.now }
{
    let sum: u128 = body.iter().map(|byte| *byte as u128).sum();
    (sum % 256) as u8
}

/// The payload of a packet's data; nothing where no byte stands behind an escape.
#[tactic(auto, using(crate::proofs::Fronts::escapes_read))]
pub fn unescaped(alloc: Global, body: &[u8]) -> Result<Option<Vec<u8>>, NoMemory>
    ensures { IfOk result (λ payload. option_map (λ v. v.items) payload ≡ unescaped body.now) }
{
    let mut payload = Vec::new(alloc);
    let mut place = 0;
    while place < body.len() {
        let byte = body[place];
        if byte != ESCAPE {
            payload.push(byte)?;
            place += 1;
        } else {
            if body.len() - place < 2 {
                return Ok(None);
            }
            payload.push(turned(body[place + 1]))?;
            place += 2;
        }
    }
    Ok(Some(payload))
}
