// Sums of bytes, by which files are compared.

/// The FNV-1a sum of 64 bits.
pub fn sum(bytes: &[u8]) -> u64 {
    let mut sum: u64 = 0xCBF2_9CE4_8422_2325;
    for byte in bytes {
        sum = (sum ^ u64::from(*byte)).wrapping_mul(0x100_0000_01B3);
    }
    sum
}
