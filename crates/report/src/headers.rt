// The line that heads a section.

ghost use Rattle.std.specs.Prelude.{◌≡◌, ◌≤◌, length};
ghost use Rattle.guest_settings.specs.Sections.{header, status_word};

use arrayvec::ArrayVec;
use guest_settings::Status;
use itoa::Buffer;

fn word(status: Status) -> &'static [u8]
    ensures { result.now ≡ status_word status }
{
    match status {
        Status::Running => b"running",
        Status::Waiting => b"waiting",
        Status::Stopped => b"stopped",
    }
}

/// The line that heads a section, without its line feed. At most 100 bytes: a name of 32, a word of 7, two
/// numbers of 20 digits, and 21 bytes between them.
#[tactic(auto, unfolding(guest_settings::specs::Sections::header))]
pub fn header(name: &[u8], status: Status, steps: u64, bytes: u64) -> ArrayVec<u8, 128>
    requires { length name.now ≤ 32 }
    ensures text { result.items ≡ header name.now status steps bytes }
    ensures short { length result.items ≤ 100 }
{
    let mut digits = Buffer::new();
    let mut line = ArrayVec::new();
    line.try_extend_from_slice(b"guest ").unwrap();
    line.try_extend_from_slice(name).unwrap();
    line.try_extend_from_slice(b" ").unwrap();
    line.try_extend_from_slice(word(status)).unwrap();
    line.try_extend_from_slice(b" steps ").unwrap();
    line.try_extend_from_slice(digits.format(steps).as_bytes())
        .unwrap();
    line.try_extend_from_slice(b" bytes ").unwrap();
    line.try_extend_from_slice(digits.format(bytes).as_bytes())
        .unwrap();
    line
}
