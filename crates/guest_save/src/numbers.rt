// Numbers of eight bytes, little endian.

ghost use Rattle.std.specs.Prelude.{◌≡◌, ◌≤◌, drop, length};
ghost use Rattle.guest_save.specs.Numbers.{number_in, leading_numbers};
ghost use Rattle.guest_save.specs.Reading.{count_in};

/// The number that bytes begin with; 0 where there are fewer than eight.
#[tactic(auto, unfolding(crate::specs::Numbers::number_in))]
pub fn number_in(bytes: &[u8]) -> u64
    ensures { result ≡ number_in bytes.now }
{
    if bytes.len() < 8 {
        return 0;
    }
    let mut word = [0; 8];
    word.copy_from_slice(&bytes[..8]);
    u64::from_le_bytes(word)
}

/// The bytes after that many; none where there are fewer.
pub fn after(bytes: &[u8], count: usize) -> &[u8]
    ensures { result.now ≡ drop count bytes.now }
{
    if count <= bytes.len() {
        &bytes[count..]
    } else {
        &[]
    }
}

/// The numbers that bytes begin with, as many as there is room for.
pub fn numbers_in(bytes: &[u8], into: &mut [u64])
    ensures { into.new ≡ leading_numbers (length into.old) bytes.now }
{
    let mut rest = bytes;
    for i in 0..into.len() {
        into[i] = number_in(rest);
        rest = after(rest, 8);
    }
}

/// The count that bytes begin with, at most that many.
pub fn count_in(bytes: &[u8], most: usize) -> usize
    ensures count { result ≡ count_in most bytes.now }
    ensures few { result ≤ most }
{
    let count = number_in(bytes);
    if count <= most as u64 {
        count as usize
    } else {
        most
    }
}
