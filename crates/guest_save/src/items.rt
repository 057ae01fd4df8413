// The parts of a form that have counts: inputs, entries and spaces.

ghost use Rattle.std.specs.Prelude.{◌≡◌, ◌<◌, ◌≤◌, IfOk, length};
ghost use Rattle.std.specs.List.{slice_index_or};
ghost use Rattle.guest_save.specs.Forms.{flags_of};
ghost use Rattle.guest_save.specs.Numbers.{leading_numbers};
ghost use Rattle.guest_save.specs.Reading.{after_space, after_spaces, entries_in, entry_count, entry_from_numbers, input_of, leading_inputs, space_in, leading_spaces};

use crate::numbers::{after, count_in, number_in, numbers_in};
use arch_defs::{Entry, GuestRoot};
use guest_settings::MOST_ENTRIES;
use no_memory::NoMemory;
use std::alloc::Global;
use std::marker::Model;

/// A space: its key, and its entries, oldest first.
#[derive(Drop)]
pub struct SavedSpace {
    pub key: GuestRoot,
    pub entries: Vec<Entry>,
}

impl Model for SavedSpace {
    ghost use Rattle.arch_defs.specs.Spaces.{Space};

    ghost Value = { Space };

    ghost view = { λ s. record { key = s.key; entries = s.entries.items } };
}

impl SavedSpace {
    /// An entry, counted from the oldest.
    pub fn entry(&self, place: u64) -> Entry
        requires { place < length self.now.entries }
        ensures { result ≡ slice_index_or self.now.entries place result }
    {
        self.entries[place as usize]
    }
}

// The input that bytes begin with; zeros past their end.
fn input_of(bytes: &[u8]) -> (u64, u8)
    ensures { result ≡ input_of bytes.now }
{
    let rest = after(bytes, 8);
    let byte = if rest.is_empty() { 0 } else { rest[0] };
    (number_in(bytes), byte)
}

/// The given number of inputs.
pub fn inputs_in(alloc: Global, count: usize, bytes: &[u8]) -> Result<Vec<(u64, u8)>, NoMemory>
    requires { count ≤ 65536 }
    ensures { IfOk result (λ inputs. inputs.items ≡ leading_inputs count bytes.now) }
{
    let mut inputs = Vec::with_capacity(alloc, count)?;
    let mut rest = bytes;
    for i in 0..count {
        inputs.push(input_of(rest))?;
        rest = after(rest, 9);
    }
    Ok(inputs)
}

/// What an entry permits, and the level of its leaf, as a number.
pub fn flags_of(entry: Entry) -> u64
    ensures { result ≡ flags_of entry }
{
    entry.r as u64 + entry.w as u64 * 2 + entry.x as u64 * 4 + entry.level as u64 * 8
}

// The entry that bytes begin with.
fn entry_in(bytes: &[u8]) -> Entry
    ensures { result ≡ entry_from_numbers (leading_numbers 3 bytes.now) }
{
    let mut numbers = [0; 3];
    numbers_in(bytes, &mut numbers);
    let flags = numbers[2];
    Entry {
        page: numbers[0],
        frame: numbers[1],
        r: flags % 2 == 1,
        w: flags / 2 % 2 == 1,
        x: flags / 4 % 2 == 1,
        level: (flags / 8 % 256) as u8,
    }
}

// The given number of entries.
fn entries_in(alloc: Global, count: usize, bytes: &[u8]) -> Result<Vec<Entry>, NoMemory>
    requires { count ≤ 256 }
    ensures { IfOk result (λ entries. entries.items ≡ entries_in count bytes.now) }
{
    let mut entries = Vec::with_capacity(alloc, count)?;
    let mut rest = bytes;
    for i in 0..count {
        entries.push(entry_in(rest))?;
        rest = after(rest, 24);
    }
    Ok(entries)
}

fn entry_count(bytes: &[u8]) -> usize
    ensures count { result ≡ entry_count bytes.now }
    ensures few { result ≤ 256 }
{
    count_in(after(bytes, 8), MOST_ENTRIES)
}

// The space that bytes begin with.
fn space_in(alloc: Global, bytes: &[u8]) -> Result<SavedSpace, NoMemory>
    ensures { IfOk result (λ space. space ≡ space_in bytes.now) }
{
    let key = GuestRoot::of(number_in(bytes));
    let entries = entries_in(alloc, entry_count(bytes), after(bytes, 16))?;
    Ok(SavedSpace { key, entries })
}

fn after_space(bytes: &[u8]) -> &[u8]
    ensures { result.now ≡ after_space bytes.now }
{
    after(after(bytes, 16), 24 * entry_count(bytes))
}

/// The given number of spaces.
pub fn spaces_in(alloc: Global, count: usize, bytes: &[u8]) -> Result<Vec<SavedSpace>, NoMemory>
    requires { count ≤ 8 }
    ensures { IfOk result (λ spaces. spaces.items ≡ leading_spaces count bytes.now) }
{
    let mut spaces = Vec::with_capacity(alloc, count)?;
    let mut rest = bytes;
    for i in 0..count {
        spaces.push(space_in(alloc, rest)?)?;
        rest = after_space(rest);
    }
    Ok(spaces)
}

/// What is left after that many spaces.
pub fn after_spaces(count: usize, bytes: &[u8]) -> &[u8]
    ensures { result.now ≡ after_spaces count bytes.now }
{
    let mut rest = bytes;
    for i in 0..count {
        rest = after_space(rest);
    }
    rest
}
