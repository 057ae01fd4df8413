// Widths of accesses.

ghost use Rattle.std.specs.Prelude.{◌≡◌, ◌<◌, ◌^◌, ◌⊎◌};
ghost use Rattle.arch_defs.specs.Widths.{bytes_in, extended, extended_from};

/// The width of an access to memory: 1, 2, 4 or 8 bytes.
#[derive(Clone, Copy, PartialEq, Eq)]
pub enum Width {
    Byte,
    Half,
    Word,
    Double,
}

impl Width {
    /// How many bytes there are.
    pub fn bytes(self) -> u8
        ensures bytes { result ≡ bytes_in self }
        ensures power { (result ≡ 1) ⊎ (result ≡ 2) ⊎ (result ≡ 4) ⊎ (result ≡ 8) }
    {
        match self {
            Width::Byte => 1,
            Width::Half => 2,
            Width::Word => 4,
            Width::Double => 8,
        }
    }
}

/// The low bytes of a value, extended to 64 bits by their sign or by zeros.
pub fn extend(width: Width, signed: bool, value: u64) -> u64
    ensures { result ≡ extended width signed value }
{
    match width {
        Width::Byte => extend_byte(signed, value & 0xFF),
        Width::Half => extend_half(signed, value & 0xFFFF),
        Width::Word => extend_word(signed, value & 0xFFFF_FFFF),
        Width::Double => value,
    }
}

fn extend_byte(signed: bool, value: u64) -> u64
    requires { value < 2 ^ 8 }
    ensures { result ≡ extended_from 8 signed value }
{
    if signed && value >= 0x80 {
        value + 0xFFFF_FFFF_FFFF_FF00
    } else {
        value
    }
}

fn extend_half(signed: bool, value: u64) -> u64
    requires { value < 2 ^ 16 }
    ensures { result ≡ extended_from 16 signed value }
{
    if signed && value >= 0x8000 {
        value + 0xFFFF_FFFF_FFFF_0000
    } else {
        value
    }
}

fn extend_word(signed: bool, value: u64) -> u64
    requires { value < 2 ^ 32 }
    ensures { result ≡ extended_from 32 signed value }
{
    if signed && value >= 0x8000_0000 {
        value + 0xFFFF_FFFF_0000_0000
    } else {
        value
    }
}
