// Registers by gdb's numbers.

ghost use Rattle.std.specs.Prelude.{◌≡◌, ◌++◌, ◌<◌, IfOk};
ghost use Rattle.std.specs.List.{flat_map};
ghost use Rattle.gdb_stub.specs.Answers.{number_text};
ghost use Rattle.gdb_stub.specs.Registers.{error_text, mode_value, register_text, register_value, registers_bytes, registers_text, value_bytes, register_digits};

use arch_defs::{Mode, Virtual};
use csr_file::read;
use gdb_packets::hex_of;
use no_memory::NoMemory;
use std::alloc::Global;

// The numbers of pc, of the first control and status register, and of the mode.
const PC: u64 = 32;

const FIRST_CSR: u64 = 65;

const MODE: u64 = 4161;

// The privilege, and 4 more with V = 1.
fn mode_value(mode: Mode) -> u64
    ensures { result ≡ mode_value mode }
{
    match mode {
        Mode::HS => 1,
        Mode::U => 0,
        Mode::VS => 5,
        Mode::VU => 4,
    }
}

// The value of a register, if there is one of this number.
#[tactic(auto, unfolding(crate::specs::Registers::register_value))]
fn register_value(state: &Virtual, n: u64) -> Option<u64>
    ensures { result ≡ register_value state.now n }
{
    if n < PC {
        return Some(state.regs.x[n as usize]);
    }
    if n == PC {
        return Some(state.regs.pc);
    }
    if n >= FIRST_CSR && n < MODE {
        return read(&state.csrs, Mode::HS, (n - FIRST_CSR) as u16).ok();
    }
    if n == MODE {
        return Some(mode_value(state.mode));
    }
    None
}

// A value as digits, or an error where there is none.
fn register_digits(alloc: Global, value: Option<u64>) -> Result<Vec<u8>, NoMemory>
    ensures { IfOk result (λ text. text.items ≡ register_digits value) }
{
    match value {
        Some(value) => hex_of(alloc, &value.to_le_bytes()),
        None => error(alloc),
    }
}

// The answer that tells of an error.
pub(crate) fn error(alloc: Global) -> Result<Vec<u8>, NoMemory>
    ensures { IfOk result (λ text. text.items ≡ error_text) }
{
    let text = Vec::from_slice(alloc, b"E01")?;
    Ok(text)
}

/// A number as 16 digits. It may answer out of memory.
pub(crate) fn number_text(alloc: Global, n: u64) -> Result<Vec<u8>, NoMemory>
    ensures { IfOk result (λ text. text.items ≡ number_text n) }
{
    hex_of(alloc, &n.to_be_bytes())
}

/// The text of a register of this number, or an error where there is none. It may answer out of memory.
pub(crate) fn register(alloc: Global, state: &Virtual, n: u64) -> Result<Vec<u8>, NoMemory>
    ensures { IfOk result (λ text. text.items ≡ register_text state.now n) }
{
    register_digits(alloc, register_value(state, n))
}

// The bytes of x0 to x31 and of pc.
fn registers_bytes(alloc: Global, state: &Virtual) -> Result<Vec<u8>, NoMemory>
    ensures { IfOk result (λ bytes. bytes.items ≡ registers_bytes state.now) }
{
    let mut bytes = values(alloc, &state.regs.x)?;
    bytes.extend_from_slice(&state.regs.pc.to_le_bytes())?;
    Ok(bytes)
}

// The bytes of values.
fn values(alloc: Global, x: &[u64]) -> Result<Vec<u8>, NoMemory>
    ensures { IfOk result (λ bytes. bytes.items ≡ flat_map value_bytes x.now) }
{
    let mut bytes = Vec::new(alloc);
    for i in 0..x.len() {
        bytes.extend_from_slice(&x[i].to_le_bytes())?;
    }
    Ok(bytes)
}

/// The text of x0 to x31 and pc. It may answer out of memory.
pub(crate) fn registers(alloc: Global, state: &Virtual) -> Result<Vec<u8>, NoMemory>
    ensures { IfOk result (λ text. text.items ≡ registers_text state.now) }
{
    let bytes = registers_bytes(alloc, state)?;
    hex_of(alloc, bytes.as_slice())
}
