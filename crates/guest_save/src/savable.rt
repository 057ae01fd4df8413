// Whether a machine can be saved.

ghost use Rattle.std.specs.Prelude.{◌≡◌, ◌↔◌, ◌+◌, ◌*◌, ◌<◌, ◌≤◌, ◌^◌, ◌||◌, false, true, All, IsTrue, length};
ghost use Rattle.std.specs.List.{AllPairs};
ghost use Rattle.std.specs.List.Sorted.{IsNonDecreasingBy};
ghost use Rattle.arch_defs.specs.CachedEntries.{HasOtherPage};
ghost use Rattle.arch_defs.specs.Memory.{ram_base};
ghost use Rattle.arch_defs.specs.Roots.{is_root};
ghost use Rattle.arch_defs.specs.WalkedEntries.{folds};
ghost use Rattle.guest_save.specs.declared.versions.Version.TheVariants.{Third};
ghost use Rattle.guest_save.specs.Headers.{header_numbers, numbered};
ghost use Rattle.guest_save.specs.Savable.{Fits, HasOtherKey, HasSizes, IsInReach, IsSavable, IsSavableEntry, IsSavableSpace, pages_of, top_level_of};
ghost use Rattle.guest_save.specs.Tests.{HasSoundSpaces, IsRead, IsReserved, IsSoundPlatform, IsSoundSpace};
ghost use Rattle.instruction_laws.specs.FrontSpaces.{FrontIs};
ghost use Rattle.run_laws.specs.Reservations.{places_from};

use crate::first_entries::has_first;
use crate::headers::{Header, reservation_numbers};
use crate::items::SavedSpace;
use crate::machine_parts::MachineParts;
use crate::registers::csr_numbers;
use crate::snapshots::Snapshot;
use arch_defs::{BLOCK_SIZE, DEVICE_FRAME, Entry, GuestMode, GuestRoot, RAM_BASE, Virtual};
use guest_settings::{LEAST_ENTRIES, MOST_BLOCKS, MOST_CONSOLE, MOST_ENTRIES, MOST_SPACES};

// Whether a number is within its limits.
fn is_within(number: u64, least: u64, most: u64) -> bool
    ensures { IsTrue result ↔ ((least ≤ number) × (number ≤ most)) }
{
    least <= number && number <= most
}

// Whether sizes are within the limits of a configuration, and RAM is of whole blocks.
fn has_sizes(header: &Header, ram: u64) -> bool
    ensures { IsTrue result ↔ HasSizes header.now ram }
{
    if !is_within(header.blocks, 1, MOST_BLOCKS as u64) {
        return false;
    }
    if !is_within(header.spaces, 1, MOST_SPACES as u64) {
        return false;
    }
    if !is_within(header.entries, LEAST_ENTRIES as u64, MOST_ENTRIES as u64) {
        return false;
    }
    if header.console > MOST_CONSOLE as u64 {
        return false;
    }
    ram == header.blocks * BLOCK_SIZE
}

// Whether no moment is too late, and none earlier than the one before.
fn inputs_rise(inputs: &[(u64, u8)]) -> bool
    ensures late { IsTrue result → All (λ input. input.0 < 2 ^ 62) inputs.now }
    ensures order { IsTrue result → IsNonDecreasingBy (λ input. input.0) inputs.now }
    ensures only { All (λ input. input.0 < 2 ^ 62) inputs.now
        → IsNonDecreasingBy (λ input. input.0) inputs.now → IsTrue result }
{
    let mut before = 0;
    for (moment, _) in inputs {
        if *moment >= 1 << 62 {
            return false;
        }
        if *moment < before {
            return false;
        }
        before = *moment;
    }
    true
}

// Whether a place is in RAM.
fn is_place(place: u64, ram: u64) -> bool
    requires { ram ≤ 67108864 }
    ensures { result ≡ places_from ram_base ram place }
{
    place >= RAM_BASE && place < RAM_BASE + ram
}

// Whether what is reserved, if anything is, lies aligned in RAM.
fn is_reserved(reservation: Option<(u64, u8)>, ram: u64) -> bool
    requires { ram ≤ 67108864 }
    ensures { IsTrue result ↔ IsReserved reservation ram }
{
    match reservation {
        None => true,
        Some((place, 4)) => place % 4 == 0 && is_place(place, ram),
        Some((place, 8)) => place % 8 == 0 && is_place(place, ram),
        Some(_) => false,
    }
}

// How many pages a table of this key translates.
fn pages_of(key: GuestRoot) -> u64
    ensures { result ≡ pages_of key }
{
    match key {
        GuestRoot::Bare => 0,
        GuestRoot::Table { mode, .. } => match mode {
            GuestMode::Sv39x4 => 1 << 29,
            GuestMode::Sv48x4 => 1 << 38,
        },
    }
}

// The highest level of its leaves.
fn top_level_of(key: GuestRoot) -> u8
    ensures { result ≡ top_level_of key }
{
    match key {
        GuestRoot::Bare => 0,
        GuestRoot::Table { mode, .. } => match mode {
            GuestMode::Sv39x4 => 2,
            GuestMode::Sv48x4 => 3,
        },
    }
}

// Whether a frame lies in RAM.
fn is_in_ram(frame: u64, ram: u64) -> bool
    requires { ram ≤ 67108864 }
    ensures { IsTrue result ↔ ((2 ^ 31 ≤ 4096 * frame) × (4096 * frame + 4096 ≤ 2 ^ 31 + ram)) }
{
    frame >= RAM_BASE / 4096 && frame < (RAM_BASE + ram) / 4096
}

// Whether the frame of an entry is in RAM, or is the device page, where there is one.
fn is_in_reach(entry: &Entry, ram: u64, device: bool) -> bool
    requires { ram ≤ 67108864 }
    ensures { IsTrue result ↔ IsInReach ram device entry.now }
{
    if is_in_ram(entry.frame, ram) {
        return true;
    }
    device && entry.frame == DEVICE_FRAME
}

// Whether an entry lets a page be read or executed, and written only where it can be read.
fn permits(entry: &Entry) -> bool
    ensures { IsTrue result
        ↔ (((entry.now.r || entry.now.x) ≡ true) × (entry.now.w ≡ true → entry.now.r ≡ true)) }
{
    if entry.r {
        return true;
    }
    entry.x && !entry.w
}

// Whether a walk of a table of this key can give an entry.
fn entry_fits(entry: &Entry, key: GuestRoot, ram: u64, device: bool) -> bool
    requires { ram ≤ 67108864 }
    ensures { IsTrue result ↔ IsSavableEntry key ram device entry.now }
{
    if entry.page >= pages_of(key) {
        return false;
    }
    if !is_in_reach(entry, ram, device) {
        return false;
    }
    if entry.level > top_level_of(key) {
        return false;
    }
    permits(entry)
}

// Whether it can give each of these.
fn entries_fit(entries: &[Entry], key: GuestRoot, ram: u64, device: bool) -> bool
    requires { ram ≤ 67108864 }
    ensures { IsTrue result ↔ All (IsSavableEntry key ram device) entries.now }
{
    for entry in entries {
        if !entry_fits(entry, key, ram, device) {
            return false;
        }
    }
    true
}

// Whether an entry has another page than each of these.
fn has_other_page(entry: &Entry, others: &[Entry]) -> bool
    ensures { IsTrue result ↔ All (λ other. HasOtherPage other entry.now) others.now }
{
    for other in others {
        if other.page == entry.page {
            return false;
        }
    }
    true
}

// Whether the pages of entries differ.
fn pages_differ(entries: &[Entry]) -> bool
    ensures { IsTrue result ↔ AllPairs HasOtherPage entries.now }
{
    for i in 0..entries.len() {
        if !has_other_page(&entries[i], &entries[..i]) {
            return false;
        }
    }
    true
}

// Whether a space, whose key was read, can be saved.
fn space_fits(space: &SavedSpace, room: u64, ram: u64, device: bool) -> bool
    requires { ram ≤ 67108864 }
    ensures { IsTrue result ↔ IsSoundSpace ram room device space.now }
{
    if !space.key.is_table() {
        return false;
    }
    if space.entries.len() as u64 > room {
        return false;
    }
    if !entries_fit(&space.entries, space.key, ram, device) {
        return false;
    }
    pages_differ(&space.entries)
}

// Whether each of these can.
fn spaces_fit(spaces: &[SavedSpace], room: u64, ram: u64, device: bool) -> bool
    requires { ram ≤ 67108864 }
    ensures { IsTrue result ↔ All (IsSoundSpace ram room device) spaces.now }
{
    for space in spaces {
        if !space_fits(space, room, ram, device) {
            return false;
        }
    }
    true
}

// Whether none of these spaces has this key.
fn has_other_key(key: GuestRoot, others: &[SavedSpace]) -> bool
    ensures { IsTrue result ↔ All (λ other. is_root key other.key ≡ false) others.now }
{
    for other in others {
        if key.is_root(other.key) {
            return false;
        }
    }
    true
}

// Whether the keys of spaces differ.
fn keys_differ(spaces: &[SavedSpace]) -> bool
    ensures { IsTrue result ↔ AllPairs HasOtherKey spaces.now }
{
    for i in 0..spaces.len() {
        let space = &spaces[i];
        if !has_other_key(space.key, &spaces[..i]) {
            return false;
        }
    }
    true
}

// Whether the space of hgatp is in front where the state folds.
fn has_front(state: &Virtual, spaces: &[SavedSpace]) -> bool
    ensures { IsTrue result ↔ (folds state.now ≡ true → FrontIs state.now.csrs.hgatp spaces.now) }
{
    if !state.mode.is_virtual() {
        return true;
    }
    if !state.csrs.hgatp.is_table() {
        return true;
    }
    if spaces.is_empty() {
        return false;
    }
    let front = &spaces[0];
    front.key.is_root(state.csrs.hgatp)
}

// Whether progress, console and inputs are within the limits of a machine that can be saved.
fn has_progress(parts: &MachineParts) -> bool
    requires { IsRead parts.now }
    ensures { IsTrue result ↔ IsSoundPlatform parts.now.platform }
{
    let header = &parts.header;
    if header.state.regs.pc % 4 != 0 {
        return false;
    }
    if header.steps > 1 << 60 {
        return false;
    }
    if header.time > (1 << 62) + header.steps {
        return false;
    }
    if parts.console.len() as u64 > header.console {
        return false;
    }
    inputs_rise(&parts.inputs)
}

// Whether what refers to RAM of this size, and the spaces, can be saved.
fn has_spaces(parts: &MachineParts, ram: u64) -> bool
    requires { ram ≤ 67108864 }
    ensures { IsTrue result ↔ HasSoundSpaces ram parts.now }
{
    let header = &parts.header;
    if !is_reserved(header.state.reservation, ram) {
        return false;
    }
    if parts.spaces.len() as u64 > header.spaces {
        return false;
    }
    if !spaces_fit(&parts.spaces, header.entries, ram, header.device) {
        return false;
    }
    if !keys_differ(&parts.spaces) {
        return false;
    }
    has_front(&header.state, &parts.spaces)
}

// Numbers have 64 bits, as their type says.
fn fit(numbers: &[u64])
    ensures { All Fits numbers.now }
{
    let _count = numbers.len();
}

// So have x1 to x31.
fn registers_fit(state: &Virtual)
    ensures { All Fits (numbered state.now.regs) }
{
    fit(&state.regs.x[1..]);
}

/// The numbers of a header have 64 bits, pc among them, and there are 32 registers.
pub fn numbers_fit(header: Header)
    ensures numbers { All Fits (header_numbers Third header) }
    ensures registers { length header.state.regs.x ≡ 32 }
    ensures pc { header.state.regs.pc < 2 ^ 64 }
{
    fit(&header.sizes());
    fit(&[header.device_number()]);
    fit(&header.progress());
    registers_fit(&header.state);
    fit(&csr_numbers(&header.state.csrs));
    fit(&reservation_numbers(header.state.reservation));
}

/// Whether a machine that was read can be saved.
pub fn is_savable(parts: &MachineParts) -> bool
    requires { IsRead parts.now }
    ensures { IsTrue result ↔ IsSavable parts.now }
{
    let ram = parts.ram.len() as u64;
    numbers_fit(parts.header);
    if !has_sizes(&parts.header, ram) {
        return false;
    }
    if !has_progress(parts) {
        return false;
    }
    if !has_first(parts.first()) {
        return false;
    }
    has_spaces(parts, ram)
}
