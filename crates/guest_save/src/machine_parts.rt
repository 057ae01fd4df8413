// A machine by its parts, as bytes give it.

ghost use Rattle.std.specs.Prelude.{◌≡◌, ◌/◌, ◌<◌, ◌≤◌, ◌*◌, [], drop, length, take, nat_le, IfOk};
ghost use Rattle.std.specs.List.{slice_index_or};
ghost use Rattle.arch_defs.specs.Inputs.{has_input};
ghost use Rattle.arch_defs.specs.Memory.{block_size};
ghost use Rattle.arch_defs.specs.Spaces.{Space};
ghost use Rattle.guest_save.specs.Headers.{blocks_of, header_of};
ghost use Rattle.guest_save.specs.Reading.{device_in, from_console, from_inputs, from_spaces, header_by, machine_by};
ghost use Rattle.machine_defs.specs.Machine.{Machine, with_lines};

use crate::first_entries::{after_first, first_in};
use crate::headers::{Header, LATER_NUMBERS, SIZE_NUMBERS};
use crate::items::{SavedSpace, after_spaces, inputs_in, spaces_in};
use crate::numbers::{after, count_in, number_in, numbers_in};
use crate::snapshots::Snapshot;
use crate::versions::Version;
use arch_defs::{BLOCK_SIZE, Entry, FirstBuffer, FirstEntry, GuestRoot};
use guest_settings::{MOST_CONSOLE, MOST_INPUTS, MOST_SPACES};
use no_memory::NoMemory;
use std::alloc::Global;
use std::marker::Model;

// The bytes of a block.
const BLOCK_BYTES: usize = BLOCK_SIZE as usize;

/// A machine that was read.
#[derive(Drop)]
pub struct MachineParts {
    pub header: Header,
    pub console: Vec<u8>,
    pub inputs: Vec<(u64, u8)>,
    pub spaces: Vec<SavedSpace>,
    pub first: Vec<FirstEntry>,
    pub ram: Vec<u8>,
}

impl Model for MachineParts {
    ghost use Rattle.machine_defs.specs.Machine.{Machine};
    ghost use Rattle.guest_save.specs.View.{IsOfHeader, machine_inside};

    ghost Value = { Machine };

    ghost view = { machine_inside };

    ghost invariant = { IsOfHeader };
}

impl Snapshot for MachineParts {
    ghost machine = { λ m. m };

    fn header(&self) -> Header {
        self.header
    }

    fn console(&self) -> &[u8] {
        self.console.as_slice()
    }

    fn inputs(&self) -> &[(u64, u8)] {
        self.inputs.as_slice()
    }

    fn held(&self) -> u64 {
        self.spaces.len() as u64
    }

    fn key(&self, space: u64) -> GuestRoot {
        let found = &self.spaces[space as usize];
        found.key
    }

    fn len(&self, space: u64) -> u64 {
        let found = &self.spaces[space as usize];
        found.entries.len() as u64
    }

    fn entry(&self, space: u64, place: u64) -> Entry {
        self.spaces[space as usize].entry(place)
    }

    fn first(&self) -> &[FirstEntry] {
        self.first.as_slice()
    }

    fn block(&self, number: u64) -> &[u8] {
        let ram = self.ram.as_slice();
        let size = self.ram.len();
        let start = number as usize * BLOCK_BYTES;
        &ram[start..size.min(start + BLOCK_BYTES)]
    }
}

// Whether the moment of the first of these inputs has come.
fn has_input(inputs: &[(u64, u8)], time: u64) -> bool
    ensures { result ≡ has_input inputs.now time }
{
    match inputs.first() {
        Some(&(moment, _)) => moment <= time,
        None => false,
    }
}

// Whether the moment of a header's timer has come.
fn is_timer_due(header: &Header) -> bool
    ensures { result ≡ nat_le header.now.timer header.now.time }
{
    header.timer <= header.time
}

// The header of a machine with this number of blocks and these inputs: without first-stage translations, and
// with the bits that the clock and the console set.
fn completed(header: Header, inputs: &[(u64, u8)], blocks: u64) -> Header
    ensures { result ≡ record header {
      blocks = blocks;
      state = record header.state {
        csrs = with_lines header.state.csrs header.time (nat_le header.timer header.time)
            (has_input inputs.now header.time);
        first = [];
      };
    } }
{
    let mut header = header;
    header.blocks = blocks;
    header.state.csrs.sip.timer = is_timer_due(&header);
    header.state.csrs.sip.external = has_input(inputs, header.time);
    header.state.csrs.time = header.time;
    header.state.first = FirstBuffer::new();
    header
}

// A copy of bytes.
fn copied(alloc: Global, bytes: &[u8]) -> Result<Vec<u8>, NoMemory>
    ensures { IfOk result (λ v. v.items ≡ bytes.now) }
{
    let mut copy = Vec::with_capacity(alloc, bytes.len())?;
    copy.extend_from_slice(bytes)?;
    Ok(copy)
}

// The first of these bytes, at most that many.
fn at_most(bytes: &[u8], count: usize) -> &[u8]
    ensures { result.now ≡ take count bytes.now }
{
    if count <= bytes.len() {
        &bytes[..count]
    } else {
        bytes
    }
}

// The machine of its header, console bytes and inputs, and of the bytes from its spaces on.
#[tactic(auto, unfolding(crate::specs::Reading::from_spaces))]
fn from_spaces(
    alloc: Global,
    version: Version,
    header: Header,
    console: Vec<u8>,
    inputs: Vec<(u64, u8)>,
    bytes: &[u8],
) -> Result<MachineParts, NoMemory>
    ensures { IfOk result (λ parts. parts
        ≡ from_spaces version header console.items inputs.items bytes.now) }
{
    let count = count_in(bytes, MOST_SPACES);
    let rest = after(bytes, 8);
    let spaces = spaces_in(alloc, count, rest)?;
    let rest = after_spaces(count, rest);
    let first = first_in(alloc, version, rest)?;
    let ram = copied(alloc, after_first(version, rest))?;
    let blocks = ram.len() as u64 / BLOCK_SIZE;
    Ok(MachineParts {
        header: completed(header, inputs.as_slice(), blocks),
        console,
        inputs,
        spaces,
        first,
        ram,
    })
}

// The machine of its header and console bytes, and of the bytes from its inputs on.
#[tactic(auto, unfolding(crate::specs::Reading::from_inputs))]
fn from_inputs(
    alloc: Global,
    version: Version,
    header: Header,
    console: Vec<u8>,
    bytes: &[u8],
) -> Result<MachineParts, NoMemory>
    ensures { IfOk result (λ parts. parts ≡ from_inputs version header console.items bytes.now) }
{
    let count = count_in(bytes, MOST_INPUTS);
    let rest = after(bytes, 8);
    let inputs = inputs_in(alloc, count, rest)?;
    from_spaces(
        alloc,
        version,
        header,
        console,
        inputs,
        after(rest, 9 * count),
    )
}

// The machine of its header, and of the bytes from its console bytes on.
#[tactic(auto, unfolding(crate::specs::Reading::from_console))]
fn from_console(
    alloc: Global,
    version: Version,
    header: Header,
    bytes: &[u8],
) -> Result<MachineParts, NoMemory>
    ensures { IfOk result (λ parts. parts ≡ from_console version header bytes.now) }
{
    let count = count_in(bytes, MOST_CONSOLE);
    let rest = after(bytes, 8);
    let console = copied(alloc, at_most(rest, count))?;
    from_inputs(alloc, version, header, console, after(rest, count))
}

// Whether bytes tell the device page.
fn device_in(version: Version, bytes: &[u8]) -> bool
    ensures { result ≡ device_in version bytes.now }
{
    match version {
        Version::First => false,
        Version::Second | Version::Third => number_in(after(bytes, 40)) % 2 == 1,
    }
}

// The header of bytes.
fn header_by(version: Version, bytes: &[u8]) -> Header
    ensures { result ≡ header_by version bytes.now }
{
    let mut sizes = [0; SIZE_NUMBERS];
    numbers_in(after(bytes, 8), &mut sizes);
    let mut later = [0; LATER_NUMBERS];
    numbers_in(after(bytes, version.later_begin()), &mut later);
    Header::of(&sizes, device_in(version, bytes), &later)
}

/// The machine that bytes give in this version, whatever they are.
#[tactic(auto, unfolding(crate::specs::Reading::machine_by))]
pub fn machine_by(alloc: Global, version: Version, bytes: &[u8]) -> Result<MachineParts, NoMemory>
    ensures { IfOk result (λ parts. parts ≡ machine_by version bytes.now) }
{
    let header = header_by(version, bytes);
    from_console(alloc, version, header, after(bytes, version.header_end()))
}
