// Numbers in packets.

ghost use Rattle.std.specs.Prelude.{◌≡◌, ◌^◌, ◌<◌, ◌≤◌};
ghost use Rattle.gdb_commands.specs.Numbers.{decimal_in, hex_in, longer, digits_in};

use gdb_packets::digit_value;

// The greatest number to which a digit to the base 16 may be added, and to the base 10, and one more.
const HEX_MOST: u64 = 1 << 60;

const DECIMAL_MOST: u64 = 100_000_000_000_000;

// A number with a digit more.
fn longer(base: u64, most: u64, n: Option<u64>, byte: u8) -> Option<u64>
    requires base { base ≤ 16 }
    requires most { most ≤ 2 ^ 60 }
    ensures { result ≡ longer base most n byte }
{
    match (n, digit_value(byte)) {
        (Some(n), Some(digit)) => {
            if n < most && (digit as u64) < base {
                Some(base * n + digit as u64)
            } else {
                None
            }
        }
        _ => None,
    }
}

// The number of bytes.
#[tactic(auto, using(crate::proofs::Digits::numbers))]
fn digits_in(base: u64, most: u64, bytes: &[u8]) -> Option<u64>
    requires base { base ≤ 16 }
    requires most { most ≤ 2 ^ 60 }
    ensures { result ≡ digits_in base most bytes.now }
{
    if bytes.is_empty() {
        return None;
    }
    let mut n = Some(0);
    for i in 0..bytes.len() {
        n = longer(base, most, n, bytes[i]);
    }
    n
}

/// The number of 64 bits that digits to the base 16 give.
pub fn hex_in(bytes: &[u8]) -> Option<u64>
    ensures { result ≡ hex_in bytes.now }
{
    digits_in(16, HEX_MOST, bytes)
}

/// The number below 10^15 that digits to the base 10 give.
pub fn decimal_in(bytes: &[u8]) -> Option<u64>
    ensures { result ≡ decimal_in bytes.now }
{
    digits_in(10, DECIMAL_MOST, bytes)
}
