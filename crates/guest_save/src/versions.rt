// The versions of a form.

ghost use Rattle.std.specs.Prelude.{◌≡◌, take};
ghost use Rattle.guest_save.specs.Versions.{header_end, later_begin, version_letters, version_in};

/// A version of a form, which its letters tell.
#[derive(Clone, Copy)]
pub enum Version {
    /// It does not tell whether a machine has the device page: none has. Nor has one first-stage translations
    /// cached.
    First,
    /// It tells no first-stage translations: none are cached.
    Second,
    /// The one that is written.
    Third,
}

// The first bytes, at most eight.
fn first_eight(bytes: &[u8]) -> &[u8]
    ensures { result.now ≡ take 8 bytes.now }
{
    if bytes.len() < 8 { bytes } else { &bytes[..8] }
}

impl Version {
    /// The letters that a form begins with.
    pub fn letters(self) -> [u8; 8]
        ensures { result ≡ version_letters self }
    {
        match self {
            Version::First => *b"NESTHV01",
            Version::Second => *b"NESTHV02",
            Version::Third => *b"NESTHV03",
        }
    }

    /// The version of bytes.
    #[tactic(auto, unfolding(crate::specs::Versions::version_in))]
    pub fn of(bytes: &[u8]) -> Version
        ensures { result ≡ version_in bytes.now }
    {
        let begin = first_eight(bytes);
        if begin == b"NESTHV01".as_slice() {
            Version::First
        } else if begin == b"NESTHV02".as_slice() {
            Version::Second
        } else {
            Version::Third
        }
    }

    /// Where the numbers behind the sizes and the device page begin.
    pub fn later_begin(self) -> usize
        ensures { result ≡ later_begin self }
    {
        match self {
            Version::First => 40,
            Version::Second | Version::Third => 48,
        }
    }

    /// Where the header ends.
    pub fn header_end(self) -> usize
        ensures { result ≡ header_end self }
    {
        match self {
            Version::First => 584,
            Version::Second | Version::Third => 592,
        }
    }
}
