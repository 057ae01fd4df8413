// First-stage translations in a form, and whether they can be saved.

ghost use Rattle.std.specs.Prelude.{◌≡◌, ◌↔◌, ◌≤◌, ◌||◌, All, IfOk, IsTrue, true};
ghost use Rattle.std.specs.List.{AllPairs};
ghost use Rattle.guest_save.specs.Forms.{first_flags_of, first_numbers, tag_numbers};
ghost use Rattle.guest_save.specs.Numbers.{leading_numbers};
ghost use Rattle.guest_save.specs.Reading.{after_first, first_entries_in, first_entry_of, first_in, tag_in};
ghost use Rattle.run_laws.specs.FirstKeys.{AreApart, HasFirst, IsOfFirstTable, first_levels};

use crate::numbers::{after, count_in, numbers_in};
use crate::versions::Version;
use arch_defs::{FIRST_ROOM, FirstEntry, GuestRoot, SupervisorMode, SupervisorRoot, Tag};
use csr_file::{satp_bits, supervisor_root_of};
use no_memory::NoMemory;
use std::alloc::Global;

// V and hgatp, or twice 0.
fn tag_numbers(tag: Tag) -> (u64, u64)
    ensures { result ≡ tag_numbers tag }
{
    match tag {
        Tag::Flat => (0, 0),
        Tag::Nested(hgatp) => (1, hgatp.bits()),
    }
}

fn tag_in(v: u64, hgatp: u64) -> Tag
    ensures { result ≡ tag_in v hgatp }
{
    match v {
        0 => Tag::Flat,
        _ => Tag::Nested(GuestRoot::of(hgatp)),
    }
}

// What a translation permits, and the level of its leaf, as a number.
fn first_flags_of(entry: &FirstEntry) -> u64
    ensures { result ≡ first_flags_of entry.now }
{
    entry.r as u64
        + entry.w as u64 * 2
        + entry.x as u64 * 4
        + entry.level as u64 * 8
        + entry.u as u64 * 32
}

/// The numbers of a translation in a form.
pub fn first_numbers(entry: &FirstEntry) -> [u64; 6]
    ensures { result ≡ first_numbers entry.now }
{
    let (v, hgatp) = tag_numbers(entry.tag);
    [
        v,
        hgatp,
        satp_bits(entry.atp),
        entry.page,
        entry.frame,
        first_flags_of(entry),
    ]
}

// The translation that bytes begin with.
fn first_entry_in(bytes: &[u8]) -> FirstEntry
    ensures { result ≡ first_entry_of (leading_numbers 6 bytes.now) }
{
    let mut numbers = [0; 6];
    numbers_in(bytes, &mut numbers);
    let flags = numbers[5];
    FirstEntry {
        tag: tag_in(numbers[0], numbers[1]),
        atp: supervisor_root_of(SupervisorRoot::Bare, numbers[2]),
        page: numbers[3],
        frame: numbers[4],
        r: flags % 2 == 1,
        w: flags / 2 % 2 == 1,
        x: flags / 4 % 2 == 1,
        u: flags / 32 % 2 == 1,
        level: (flags / 8 % 4) as u8,
    }
}

// The given number of translations.
fn first_entries_in(alloc: Global, count: usize, bytes: &[u8]) -> Result<Vec<FirstEntry>, NoMemory>
    requires { count ≤ 32 }
    ensures { IfOk result (λ entries. entries.items ≡ first_entries_in count bytes.now) }
{
    let mut entries = Vec::with_capacity(alloc, count)?;
    let mut rest = bytes;
    for i in 0..count {
        entries.push(first_entry_in(rest))?;
        rest = after(rest, 48);
    }
    Ok(entries)
}

/// The first-stage translations that bytes tell in a version.
pub fn first_in(alloc: Global, version: Version, bytes: &[u8]) -> Result<Vec<FirstEntry>, NoMemory>
    ensures { IfOk result (λ entries. entries.items ≡ first_in version bytes.now) }
{
    match version {
        Version::First | Version::Second => Ok(Vec::new(alloc)),
        Version::Third => first_entries_in(alloc, count_in(bytes, FIRST_ROOM), after(bytes, 8)),
    }
}

/// What is left behind them.
pub fn after_first(version: Version, bytes: &[u8]) -> &[u8]
    ensures { result.now ≡ after_first version bytes.now }
{
    match version {
        Version::First | Version::Second => bytes,
        Version::Third => after(after(bytes, 8), 48 * count_in(bytes, FIRST_ROOM)),
    }
}

// How many levels the tables of a value of satp or vsatp have.
fn first_levels(atp: SupervisorRoot) -> u8
    ensures { result ≡ first_levels atp }
{
    match atp {
        SupervisorRoot::Bare => 0,
        SupervisorRoot::Table { mode, .. } => match mode {
            SupervisorMode::Sv39 => 3,
            SupervisorMode::Sv48 => 4,
        },
    }
}

// Whether a translation lets a page be read or executed, and written only where it can be read.
fn permits(entry: &FirstEntry) -> bool
    ensures { IsTrue result
        ↔ (((entry.now.r || entry.now.x) ≡ true) × (entry.now.w ≡ true → entry.now.r ≡ true)) }
{
    if entry.r {
        return true;
    }
    entry.x && !entry.w
}

// Whether a table can give it.
fn first_fits(entry: &FirstEntry) -> bool
    ensures { IsTrue result ↔ IsOfFirstTable entry.now }
{
    if matches!(entry.atp, SupervisorRoot::Bare) {
        return false;
    }
    if entry.page >= 1 << 52 {
        return false;
    }
    if entry.frame >= 1 << 44 {
        return false;
    }
    if entry.level >= first_levels(entry.atp) {
        return false;
    }
    permits(entry)
}

// Whether tables can give each of these.
fn all_first_fit(entries: &[FirstEntry]) -> bool
    ensures { IsTrue result ↔ All IsOfFirstTable entries.now }
{
    for entry in entries {
        if !first_fits(entry) {
            return false;
        }
    }
    true
}

// Whether a translation is apart from each of these: of another page, or for others.
fn is_apart(entry: &FirstEntry, others: &[FirstEntry]) -> bool
    ensures { IsTrue result ↔ All (λ other. AreApart other entry.now) others.now }
{
    for other in others {
        if other.is_of(&entry.tag, &entry.atp, entry.page) {
            return false;
        }
    }
    true
}

// Whether translations are apart.
fn are_apart(entries: &[FirstEntry]) -> bool
    ensures { IsTrue result ↔ AllPairs AreApart entries.now }
{
    for i in 0..entries.len() {
        if !is_apart(&entries[i], &entries[..i]) {
            return false;
        }
    }
    true
}

/// Whether translations, whose values of hgatp, satp and vsatp were read, can be saved.
pub fn has_first(entries: &[FirstEntry]) -> bool
    ensures { IsTrue result ↔ HasFirst entries.now }
{
    if entries.len() > FIRST_ROOM {
        return false;
    }
    if !are_apart(entries) {
        return false;
    }
    all_first_fit(entries)
}
