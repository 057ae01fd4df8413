// The lines that tell of an end.

ghost use Rattle.std.specs.Prelude.{◌≡◌, ◌≤◌, ◌++◌, codes, decimal, length};
ghost use Rattle.nesthv_top.specs.Endings.{SaysOfErr};
ghost use Rattle.nesthv_top.specs.Lines.{configuration_line, guest_text, key_text, read_line, value_text};
ghost use Rattle.nesthv_top.specs.Written.{IsLinePut};

use crate::ends::Ended;
use arrayvec::ArrayVec;
use itoa::Buffer;
use outside::Sink;
use run_config::{ConfigFault, ConfigKey};

/// Puts the line that tells of an end, if it has one.
pub fn tell<E: Sink>(ended: Ended, err: &mut E)
    ensures { SaysOfErr E.Sink ended err.old err.new }
{
    match ended {
        Ended::Done | Ended::Differs => {}
        Ended::NoCommand => put_line(
            b"nesthv: usage: run CONFIG | replay CONFIG REPORT | check CONFIG | work SEED SIZE \
              | save CONFIG GUEST\n",
            err,
        ),
        Ended::Refused(fault) => put_line(configuration_line(fault).as_slice(), err),
        Ended::ReadFault(number) => put_line(read_line(number).as_slice(), err),
        Ended::WriteFault => put_line(b"nesthv: write fault\n", err),
        Ended::NoMemory(_) => put_line(b"nesthv: out of memory\n", err),
    }
}

// Puts a line; a fault of this sink changes nothing.
fn put_line<E: Sink>(line: &[u8], err: &mut E)
    ensures line { IsLinePut E.Sink err.old err.new line.now }
    ensures count { E.faults err.old ≤ E.faults err.new }
    ensures stays { E.made_with err.new ≡ E.made_with err.old }
{
    let _ = err.put(line);
}

fn read_line(number: u64) -> ArrayVec<u8, 64>
    ensures { result.items ≡ read_line number }
{
    let mut digits = Buffer::new();
    let mut line = ArrayVec::new();
    line.try_extend_from_slice(b"nesthv: read fault ").unwrap();
    line.try_extend_from_slice(digits.format(number).as_bytes())
        .unwrap();
    line.try_extend_from_slice(b"\n").unwrap();
    line
}

// At most 83 bytes: 28, a number of 3 digits, 17 of a guest, 12 of a key, 27 of a value and a line feed.
#[tactic(auto, unfolding(crate::specs::Lines::configuration_line))]
fn configuration_line(fault: ConfigFault) -> ArrayVec<u8, 128>
    ensures { result.items ≡ configuration_line fault }
{
    let mut digits = Buffer::new();
    let mut line = ArrayVec::new();
    line.try_extend_from_slice(b"nesthv: configuration fault ")
        .unwrap();
    line.try_extend_from_slice(digits.format(fault.number).as_bytes())
        .unwrap();
    line.try_extend_from_slice(guest_text(fault.guest).as_slice())
        .unwrap();
    line.try_extend_from_slice(key_text(fault.key).as_slice())
        .unwrap();
    line.try_extend_from_slice(value_text(fault.value).as_slice())
        .unwrap();
    line.try_extend_from_slice(b"\n").unwrap();
    line
}

fn guest_text(guest: Option<u32>) -> ArrayVec<u8, 32>
    ensures text { result.items ≡ guest_text guest }
    ensures short { length result.items ≤ 17 }
{
    let mut text = ArrayVec::new();
    if let Some(guest) = guest {
        let mut digits = Buffer::new();
        text.try_extend_from_slice(b" guest ").unwrap();
        text.try_extend_from_slice(digits.format(guest).as_bytes())
            .unwrap();
        return text;
    }
    text
}

#[tactic(auto, unfolding(run_config::specs::Keys::name_of))]
fn key_text(key: Option<ConfigKey>) -> ArrayVec<u8, 32>
    ensures text { result.items ≡ key_text key }
    ensures short { length result.items ≤ 12 }
{
    let mut text = ArrayVec::new();
    if let Some(key) = key {
        text.try_extend_from_slice(b" key ").unwrap();
        text.try_extend_from_slice(key.text().as_bytes()).unwrap();
        return text;
    }
    text
}

fn value_text(value: Option<i64>) -> ArrayVec<u8, 32>
    ensures text { result.items ≡ value_text value }
    ensures short { length result.items ≤ 27 }
{
    let mut text = ArrayVec::new();
    if let Some(value) = value {
        let mut digits = Buffer::new();
        text.try_extend_from_slice(b" value ").unwrap();
        text.try_extend_from_slice(digits.format(value).as_bytes())
            .unwrap();
        return text;
    }
    text
}
