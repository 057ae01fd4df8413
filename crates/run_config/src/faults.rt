//! Why a configuration is refused.

ghost use Rattle.std.specs.Prelude.{◌≡◌, ◌<◌, ◌^◌};
ghost use Rattle.run_config.specs.Faults as fault;

use crate::keys::ConfigKey;

/// Why a configuration is refused: the number of the fault, from 1 to 15, and what it keeps. Each fault has a
/// call that makes it, with its number and no other value than what it keeps.
#[derive(Clone, Copy, Debug, PartialEq, Eq)]
pub struct ConfigFault {
    /// The number of the fault.
    pub number: u8,
    /// The number of the guest that it speaks of, from 0 on.
    pub guest: Option<u32>,
    /// The key that it speaks of.
    pub key: Option<ConfigKey>,
    /// The value that it keeps: the wrong integer, the length of a wrong array of guests, the bytes that were
    /// read of an image, the sum of the frames, the number of a bad record, a weight times the quantum, or
    /// the number of which there is no guest.
    pub value: Option<i64>,
}

// A fault of this number that keeps a guest, or nothing, and neither a key nor a value.
fn fault_of(number: u8, guest: Option<u32>) -> ConfigFault
    ensures { result ≡ fault.fault_of number guest }
{
    ConfigFault {
        number,
        guest,
        key: None,
        value: None,
    }
}

impl ConfigFault {
    /// Fault 1, where the bytes are not a TOML document.
    #[tactic(auto, unfolding(crate::specs::Faults::not_toml))]
    pub fn not_toml() -> ConfigFault
        ensures { result ≡ fault.not_toml }
    {
        fault_of(1, None)
    }

    /// Fault 2, where `format` is absent, or neither the integer 1 nor 2.
    #[tactic(auto, unfolding(crate::specs::Faults::format))]
    pub fn format() -> ConfigFault
        ensures { result ≡ fault.format }
    {
        fault_of(2, None)
    }

    /// Fault 3, where a key is absent that must be there, in this guest, or in the document.
    #[tactic(auto, unfolding(crate::specs::Faults::missing))]
    pub fn missing(guest: Option<u32>, key: ConfigKey) -> ConfigFault
        ensures { result ≡ fault.missing guest key }
    {
        ConfigFault {
            number: 3,
            guest,
            key: Some(key),
            value: None,
        }
    }

    /// Fault 4, where the value of a key is not of its kind or not in its range. The value is kept where it
    /// is an integer, and of a wrong array of guests the length.
    #[tactic(auto, unfolding(crate::specs::Faults::range))]
    pub fn range(guest: Option<u32>, key: ConfigKey, value: Option<i64>) -> ConfigFault
        ensures { result ≡ fault.range guest key value }
    {
        ConfigFault {
            number: 4,
            guest,
            key: Some(key),
            value,
        }
    }

    /// Fault 5, where the name is not 1 to 32 ASCII letters and digits, or a guest before has it.
    #[tactic(auto, unfolding(crate::specs::Faults::name))]
    pub fn name(guest: u32) -> ConfigFault
        ensures { result ≡ fault.name guest }
    {
        fault_of(5, Some(guest))
    }

    /// Fault 6, where the turns are said in neither form or in both, or a value of them is wrong.
    #[tactic(auto, unfolding(crate::specs::Faults::turns))]
    pub fn turns() -> ConfigFault
        ensures { result ≡ fault.turns }
    {
        fault_of(6, None)
    }

    /// Fault 7, where in format 1 the inputs are not pairs of a moment and a byte, or a moment falls. In
    /// format 2 they are not the name of a file, a text of 1 to 255 bytes.
    #[tactic(auto, unfolding(crate::specs::Faults::input))]
    pub fn input(guest: u32) -> ConfigFault
        ensures { result ≡ fault.input guest }
    {
        fault_of(7, Some(guest))
    }

    /// Fault 8, where there is a key that a guest, or the document, does not have in this format.
    #[tactic(auto, unfolding(crate::specs::Faults::extra))]
    pub fn extra(guest: Option<u32>) -> ConfigFault
        ensures { result ≡ fault.extra guest }
    {
        fault_of(8, guest)
    }

    /// Fault 9, where there are more than 65,536 bytes.
    #[tactic(auto, unfolding(crate::specs::Faults::too_long))]
    pub fn too_long() -> ConfigFault
        ensures { result ≡ fault.too_long }
    {
        fault_of(9, None)
    }

    /// Fault 10, where an image is longer than the guest's RAM: that many bytes were read. `read` never
    /// answers it.
    #[tactic(auto, unfolding(crate::specs::Faults::image_long))]
    pub fn image_long(guest: u32, bytes: u64) -> ConfigFault
        requires { bytes < 2 ^ 63 }
        ensures { result ≡ fault.image_long guest bytes }
    {
        ConfigFault {
            number: 10,
            guest: Some(guest),
            key: None,
            value: Some(bytes as i64),
        }
    }

    /// Fault 11, where the guests need more frames of memory than there are: that many. `read` never answers
    /// it.
    #[tactic(auto, unfolding(crate::specs::Faults::frames))]
    pub fn frames(sum: u64) -> ConfigFault
        requires { sum < 2 ^ 63 }
        ensures { result ≡ fault.frames sum }
    {
        ConfigFault {
            number: 11,
            guest: None,
            key: None,
            value: Some(sum as i64),
        }
    }

    /// Fault 12, where a file of inputs has a bad record, the first with this number, from 0 on: it has fewer
    /// than 9 bytes, or a moment of 2^62 or more or less than the one before, or it is record 65,536. `read`
    /// never answers it.
    #[tactic(auto, unfolding(crate::specs::Faults::input_file))]
    pub fn input_file(guest: u32, record_number: u64) -> ConfigFault
        requires { record_number < 2 ^ 63 }
        ensures { result ≡ fault.input_file guest record_number }
    {
        ConfigFault {
            number: 12,
            guest: Some(guest),
            key: None,
            value: Some(record_number as i64),
        }
    }

    /// Fault 13, where the weight times the quantum is more than 2^32: that much.
    #[tactic(auto, unfolding(crate::specs::Faults::weight))]
    pub fn weight(guest: u32, product: u64) -> ConfigFault
        requires { product < 2 ^ 63 }
        ensures { result ≡ fault.weight guest product }
    {
        ConfigFault {
            number: 13,
            guest: Some(guest),
            key: None,
            value: Some(product as i64),
        }
    }

    /// Fault 14, where the file that a guest goes on from is not a saved guest. `read` never answers it.
    #[tactic(auto, unfolding(crate::specs::Faults::saved))]
    pub fn saved(guest: u32) -> ConfigFault
        ensures { result ≡ fault.saved guest }
    {
        fault_of(14, Some(guest))
    }

    /// Fault 15, where there is no guest of this number, which is to be saved. `read` never answers it.
    #[tactic(auto, unfolding(crate::specs::Faults::no_guest))]
    pub fn no_guest(number: u32) -> ConfigFault
        ensures { result ≡ fault.no_guest number }
    {
        ConfigFault {
            number: 15,
            guest: None,
            key: None,
            value: Some(i64::from(number)),
        }
    }
}
