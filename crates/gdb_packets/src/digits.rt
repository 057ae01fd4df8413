// Bytes as two digits each.

ghost use Rattle.std.specs.Prelude.{◌≡◌, ◌<◌, ◌++◌, ◌∷◌, IfOk, IfSome, option_map};
ghost use Rattle.gdb_packets.specs.Digits.{byte_digits, digit, digit_value, hex, pair_value, unhex};

use no_memory::NoMemory;
use std::alloc::Global;

// The digit of a number below 16.
#[tactic(auto, unfolding(crate::specs::Digits::digit))]
fn digit(n: u8) -> u8
    requires { n < 16 }
    ensures { result ≡ digit n }
{
    if n < 10 { 48 + n } else { 87 + n }
}

/// Appends the two digits of a byte.
pub(crate) fn push_digits(out: &mut Vec<u8>, byte: u8) -> Result<(), NoMemory>
    ensures { IfOk result (λ done. out.new.items ≡ out.old.items ++ byte_digits byte) }
{
    out.push(digit(byte / 16))?;
    out.push(digit(byte % 16))?;
    Ok(())
}

/// Bytes as digits. It may answer out of memory.
pub fn hex_of(alloc: Global, bytes: &[u8]) -> Result<Vec<u8>, NoMemory>
    ensures { IfOk result (λ digits. digits.items ≡ hex bytes.now) }
{
    let mut digits = Vec::new(alloc);
    for i in 0..bytes.len() {
        push_digits(&mut digits, bytes[i])?;
    }
    Ok(digits)
}

/// The value of a digit, if the byte is one.
#[tactic(auto, unfolding(crate::specs::Digits::digit_value))]
pub fn digit_value(byte: u8) -> Option<u8>
    ensures value { result ≡ digit_value byte }
    ensures small { IfSome result (λ v. v < 16) }
{
    match byte {
        48..=57 => Some(byte - 48),
        97..=102 => Some(byte - 87),
        65..=70 => Some(byte - 55),
        _ => None,
    }
}

/// The byte that two digits give, if both are digits.
pub(crate) fn pair_value(high: u8, low: u8) -> Option<u8>
    ensures { result ≡ pair_value high low }
{
    match (digit_value(high), digit_value(low)) {
        (Some(high), Some(low)) => Some(16 * high + low),
        _ => None,
    }
}

/// The bytes that digits give; nothing where one of them is not a digit, or their count is odd. It may answer
/// out of memory.
#[tactic(auto, using(crate::proofs::Fronts::digits_read))]
pub fn unhex(alloc: Global, digits: &[u8]) -> Result<Option<Vec<u8>>, NoMemory>
    ensures { IfOk result (λ bytes. option_map (λ v. v.items) bytes ≡ unhex digits.now) }
{
    let mut bytes = Vec::new(alloc);
    let mut place = 0;
    while place < digits.len() {
        if digits.len() - place < 2 {
            return Ok(None);
        }
        match pair_value(digits[place], digits[place + 1]) {
            Some(byte) => bytes.push(byte)?,
            None => return Ok(None),
        }
        place += 2;
    }
    Ok(Some(bytes))
}
