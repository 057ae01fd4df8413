// What is read of a configuration and of a file of inputs, and why it is refused.

use run_config::{Config, ConfigFault, ConfigKey, InputEnd, ReadEnd, inputs, read};
use std::alloc::Global;

const K: &'static str = "format = 1
quantum = 10000
rounds = 1
[[guest]]
name = \"a\"
image = \"a.bin\"
blocks = 1
spaces = 1
entries = 16
console = 100
";

// A guest whose space has too few entries.
const FIFTEEN: &'static str = "format = 1
quantum = 10000
rounds = 1
[[guest]]
name = \"a\"
image = \"a.bin\"
blocks = 1
spaces = 1
entries = 15
console = 100
";

// How many guests and turns a configuration has, or what its fault keeps.
fn told(alloc: Global, text: &str) -> Option<Result<(usize, usize), ConfigFault>> {
    let end: Result<Config, ReadEnd> = read(alloc, text.as_bytes());
    match end {
        Ok(config) => Some(Ok((config.guests().len(), config.turns().as_slice().len()))),
        Err(ReadEnd::Refused(fault)) => Some(Err(fault)),
        Err(ReadEnd::NoMemory) => None,
    }
}

#[test]
fn a_configuration(rt: HostRuntime) {
    assert!(rt; told(rt.alloc(), K) == Some(Ok((1, 1))));
}

// Each key that a fault may keep, as it is written.
fn text_of(key: ConfigKey) -> &'static str {
    match key {
        ConfigKey::Format => "format",
        ConfigKey::Guest => "guest",
        ConfigKey::Turns => "turns",
        ConfigKey::Quantum => "quantum",
        ConfigKey::Rounds => "rounds",
        ConfigKey::Spare => "spare",
        ConfigKey::Name => "name",
        ConfigKey::Image => "image",
        ConfigKey::Blocks => "blocks",
        ConfigKey::Spaces => "spaces",
        ConfigKey::Entries => "entries",
        ConfigKey::Console => "console",
        ConfigKey::Weight => "weight",
        ConfigKey::Device => "device",
        ConfigKey::Input => "input",
        ConfigKey::Resume => "resume",
    }
}

#[test]
fn a_key_of_a_fault(rt: HostRuntime) {
    assert!(rt; text_of(ConfigKey::Entries) == ConfigKey::Entries.text());
}

// A fault, taken apart.
fn parts_of(fault: ConfigFault) -> (u8, Option<u32>, Option<ConfigKey>, Option<i64>) {
    let ConfigFault {
        number,
        guest,
        key,
        value,
    } = fault;
    (number, guest, key, value)
}

#[test]
fn a_fault(rt: HostRuntime) {
    let fault = ConfigFault {
        number: 4,
        guest: Some(0),
        key: Some(ConfigKey::Entries),
        value: Some(15),
    };
    assert!(rt; parts_of(fault) == (4, Some(0), Some(ConfigKey::Entries), Some(15)));
    assert!(rt; told(rt.alloc(), FIFTEEN) == Some(Err(fault)));
}

// How many inputs records give, or the number of the first bad one.
fn records(alloc: Global, bytes: &[u8]) -> Option<Result<usize, u64>> {
    let end: Result<Vec<(u64, u8)>, InputEnd> = inputs(alloc, bytes);
    match end {
        Ok(inputs) => Some(Ok(inputs.len())),
        Err(InputEnd::Bad(number)) => Some(Err(number)),
        Err(InputEnd::NoMemory) => None,
    }
}

#[test]
fn a_file_of_inputs(rt: HostRuntime) {
    assert!(rt; records(rt.alloc(), &[10, 0, 0, 0, 0, 0, 0, 0, 48]) == Some(Ok(1)));
    assert!(rt; records(rt.alloc(), &[10, 0, 0, 0, 0, 0, 0, 0, 48, 0]) == Some(Err(1)));
}
