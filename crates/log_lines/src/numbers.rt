// Numbers as digits.

ghost use Rattle.std.specs.Prelude.{◌≡◌, ◌+◌, ◌<◌, ◌≤◌, ◌++◌, false, drop, length, take};
ghost use Rattle.std.specs.Fmt.{decimal, digit_glyph};
ghost use Rattle.log_lines.specs.Numbers.{address_text, hex_text, wide_hex};

use crate::lines::Text;
use itoa::Buffer;

// The digit of a number below 16.
fn digit(n: u8) -> u8
    requires { n < 16 }
    ensures { result ≡ digit_glyph false n }
{
    if n < 10 { 48 + n } else { 87 + n }
}

// Writes the hexadecimal digits so that the last one stands at the end, and answers where the first is.
fn write_hex(number: u64, digits: &mut [u8; 16]) -> usize
    ensures within { result < 16 }
    ensures text { drop result digits.new ≡ hex_text number }
    ensures front { take result digits.new ≡ take result digits.old }
{
    let mut rest = number;
    let mut at = 16;
    while rest >= 16 {
        at -= 1;
        digits[at] = digit((rest % 16) as u8);
        rest /= 16;
    }
    digits[at - 1] = digit(rest as u8);
    at - 1
}

/// Adds the hexadecimal digits of a number.
pub(crate) fn add_hex(line: &mut Text, number: u64)
    requires room { length line.old.items + 16 ≤ 320 }
    ensures text { line.new.items ≡ line.old.items ++ hex_text number }
    ensures short { length line.new.items ≤ length line.old.items + 16 }
{
    let mut digits = [b'0'; 16];
    let start = write_hex(number, &mut digits);
    line.try_extend_from_slice(&digits[start..]).unwrap();
}

/// Adds them behind zeros, 16 digits in all.
#[tactic(auto, using(crate::proofs::HexDigits::widened))]
pub(crate) fn add_wide_hex(line: &mut Text, number: u64)
    requires room { length line.old.items + 16 ≤ 320 }
    ensures text { line.new.items ≡ line.old.items ++ wide_hex 16 number }
    ensures short { length line.new.items ≤ length line.old.items + 16 }
{
    let mut digits = [b'0'; 16];
    let _ = write_hex(number, &mut digits);
    line.try_extend_from_slice(&digits).unwrap();
}

/// Adds a word of 32 bits, 8 digits.
#[tactic(auto, using(crate::proofs::HexDigits::widened_word))]
pub(crate) fn add_word(line: &mut Text, word: u32)
    requires room { length line.old.items + 8 ≤ 320 }
    ensures text { line.new.items ≡ line.old.items ++ wide_hex 8 word }
    ensures short { length line.new.items ≤ length line.old.items + 8 }
{
    let mut digits = [b'0'; 16];
    let _ = write_hex(word as u64, &mut digits);
    line.try_extend_from_slice(&digits[8..]).unwrap();
}

/// Adds the address of a page or a frame of this number.
pub(crate) fn add_address(line: &mut Text, page: u64)
    requires room { length line.old.items + 19 ≤ 320 }
    ensures text { line.new.items ≡ line.old.items ++ address_text page }
    ensures short { length line.new.items ≤ length line.old.items + 19 }
{
    if page == 0 {
        add(line, b"0");
    } else {
        add_hex(line, page);
        add(line, b"000");
    }
}

/// Adds a decimal number.
pub(crate) fn add_decimal(line: &mut Text, number: u64)
    requires room { length line.old.items + 20 ≤ 320 }
    ensures text { line.new.items ≡ line.old.items ++ decimal number }
    ensures short { length line.new.items ≤ length line.old.items + 20 }
{
    let mut digits = Buffer::new();
    line.try_extend_from_slice(digits.format(number).as_bytes())
        .unwrap();
}

/// Adds a piece.
pub(crate) fn add(line: &mut Text, piece: &[u8])
    requires room { length line.old.items + length piece.now ≤ 320 }
    ensures { line.new.items ≡ line.old.items ++ piece.now }
{
    line.try_extend_from_slice(piece).unwrap();
}
