//! The inputs of a guest in a file of records.

ghost use Rattle.std.specs.Prelude.{◌≡◌, ℕ, ◌*◌, ◌+◌, ◌<◌, ◌≤◌, length, Some, None, IfOk, IfSome, IsErrOf, OnOk};
ghost use Rattle.run_config.specs.declared.input_records.InputEnd.TheVariants.{NoMemory, Bad};
ghost use Rattle.run_config.specs.Configurations.{AreByteInputs};
ghost use Rattle.run_config.specs.Records.{bad_record, record_byte, is_bad, moment_at, moment_before, record_at, records_of, record_count};

use guest_settings::MOST_INPUTS;
use std::alloc::{AllocError, Global};
use thiserror::Error;

// How many bytes a record has.
const RECORD_BYTES: usize = 9;

// The first moment at which no input can come.
const MOMENTS_END: u64 = 1 << 62;

/// Why a file gives no inputs.
#[derive(Clone, Copy, Debug, PartialEq, Eq, Error)]
pub enum InputEnd {
    #[error("out of memory")]
    NoMemory,
    /// The number of its first bad record, from 0 on.
    #[error("a bad record")]
    Bad(u64),
}

impl From<AllocError> for InputEnd {
    ghost from_gives = { λ _ end. end ≡ NoMemory };

    fn from(_: AllocError) -> InputEnd {
        InputEnd::NoMemory
    }
}

// How many records the bytes are.
#[tactic(auto, unfolding(crate::specs::Records::record_count))]
fn record_count(bytes: &[u8]) -> usize
    ensures { result ≡ record_count bytes.now }
{
    bytes.len().div_ceil(RECORD_BYTES)
}

// A record: nine bytes, and fewer where the bytes end.
#[tactic(auto, unfolding(crate::specs::Records::record_at))]
fn record_at(bytes: &[u8], number: usize) -> &[u8]
    requires { 9 * number ≤ length bytes.now }
    ensures bytes { result.now ≡ record_at bytes.now number }
    ensures whole { 9 * number + 9 ≤ length bytes.now → length result.now ≡ 9 }
    ensures only { 9 ≤ length result.now → 9 * number + 9 ≤ length bytes.now }
{
    let rest = &bytes[RECORD_BYTES * number..];
    &rest[..rest.len().min(RECORD_BYTES)]
}

// The moment of a whole record.
#[tactic(auto, unfolding(crate::specs::Records::moment_at))]
fn moment_at(bytes: &[u8], number: usize) -> u64
    requires { 9 * number + 9 ≤ length bytes.now }
    ensures { result ≡ moment_at bytes.now number }
{
    let record = record_at(bytes, number);
    u64::from_le_bytes([
        record[0], record[1], record[2], record[3], record[4], record[5], record[6], record[7],
    ])
}

// The byte of a whole record.
#[tactic(auto, unfolding(crate::specs::Records::record_byte))]
fn byte_at(bytes: &[u8], number: usize) -> u8
    requires { 9 * number + 9 ≤ length bytes.now }
    ensures { result ≡ record_byte bytes.now number }
{
    record_at(bytes, number)[8]
}

// The moment of the record before, and 0 before the first one.
#[tactic(auto, unfolding(crate::specs::Records::moment_before))]
fn moment_before(bytes: &[u8], number: usize) -> u64
    requires { 9 * number ≤ length bytes.now }
    ensures { result ≡ moment_before bytes.now number }
{
    if number == 0 {
        0
    } else {
        moment_at(bytes, number - 1)
    }
}

// Whether a record is bad.
#[tactic(auto, unfolding(crate::specs::Records::is_bad))]
fn is_bad(bytes: &[u8], number: usize) -> bool
    requires { 9 * number ≤ length bytes.now }
    ensures { result ≡ is_bad bytes.now number }
{
    if record_at(bytes, number).len() < RECORD_BYTES {
        return true;
    }
    let moment = moment_at(bytes, number);
    moment >= MOMENTS_END || moment < moment_before(bytes, number) || number == MOST_INPUTS
}

/// The number of the first bad record of a file of inputs, from 0 on. A record is bad that has fewer than
/// nine bytes, a moment of 2^62 or more or less than the one before, or the number 65,536.
#[tactic(auto, using(crate::proofs::Recording::records))]
pub fn bad_record(bytes: &[u8]) -> Option<u64>
    ensures number { result ≡ bad_record bytes.now }
    ensures most { IfSome result (λ number. number ≤ 65536) }
{
    for number in 0..record_count(bytes) {
        if is_bad(bytes, number) {
            return Some(number as u64);
        }
    }
    None
}

// The inputs of records none of which is bad.
#[tactic(auto, unfolding(crate::specs::Records::records_of), using(crate::proofs::Recording::each_whole))]
fn all_records(alloc: Global, bytes: &[u8]) -> Result<Vec<(u64, u8)>, AllocError>
    requires { bad_record bytes.now ≡ None }
    ensures { IfOk result (λ v. v.items ≡ records_of bytes.now) }
{
    let count = record_count(bytes);
    let mut inputs = Vec::with_capacity(alloc, count)?;
    for number in 0..count {
        inputs.push_reserved((moment_at(bytes, number), byte_at(bytes, number)));
    }
    Ok(inputs)
}

/// The inputs of a file: in each record of nine bytes a moment, eight bytes little endian, and then the byte
/// that is there from this moment on. It answers `Bad` exactly where `bad_record` finds one; all records are
/// tested before any memory is taken.
pub fn inputs(alloc: Global, bytes: &[u8]) -> Result<Vec<(u64, u8)>, InputEnd>
    ensures inputs { IfOk result (λ v. v.items ≡ records_of bytes.now) }
    ensures passed { OnOk result (bad_record bytes.now ≡ None) }
    ensures within { IfOk result (λ v. AreByteInputs v.items) }
    ensures bad { (number : ℕ) → IsErrOf result (Bad number) → bad_record bytes.now ≡ Some number }
    ensures memory { IsErrOf result NoMemory → bad_record bytes.now ≡ None }
{
    if let Some(number) = bad_record(bytes) {
        return Err(InputEnd::Bad(number));
    }
    Ok(all_records(alloc, bytes)?)
}
