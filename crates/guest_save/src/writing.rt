// The form of a machine, put piece by piece.

ghost use Rattle.std.specs.Prelude.{◌≡◌, ◌≤◌, ◌<◌, ◌*◌, [], ◌++◌, length};
ghost use Rattle.std.specs.List.{flat_map, slice_index_or};
ghost use Rattle.arch_defs.specs.Memory.{block_size};
ghost use Rattle.arch_defs.specs.Spaces.{Space};
ghost use Rattle.guest_save.specs.declared.versions.Version.TheVariants.{Third};
ghost use Rattle.guest_save.specs.Buffers.{Buffers};
ghost use Rattle.outside.specs.Texts.{PutsText};
ghost use Rattle.guest_save.specs.Forms.{console_form, entry_form, first_entry_form, first_form, form, front_form, input_form, inputs_form, space_form, spaces_form};
ghost use Rattle.guest_save.specs.Headers.{blocks_of, device_numbers, header_numbers, header_of, later_numbers, numbered, state_numbers};
ghost use Rattle.guest_save.specs.Numbers.{number_bytes, numbers};

use crate::buffers::{
    Buffer, append, append_number, append_numbers, append_piece, append_whole, flush,
};
use crate::first_entries::first_numbers;
use crate::headers::{Header, reservation_numbers};
use crate::items::flags_of;
use crate::registers::csr_numbers;
use crate::snapshots::Snapshot;
use crate::versions::Version;
use arch_defs::{Entry, FirstEntry, Virtual};
use outside::{Sink, SinkFault};

// Appends control and status registers, and the reservation.
fn append_state<O: Sink>(state: &Virtual, held: &mut Buffer, out: &mut O) -> Result<(), SinkFault>
    ensures { Buffers O.Sink result out.old held.old.items out.new held.new.items
        (numbers (state_numbers state.now)) }
{
    append_numbers(&csr_numbers(&state.csrs), held, out)?;
    append_numbers(&reservation_numbers(state.reservation), held, out)
}

// Appends x1 to x31, and the rest of the state.
fn append_registers<O: Sink>(
    state: &Virtual,
    held: &mut Buffer,
    out: &mut O,
) -> Result<(), SinkFault>
    ensures { Buffers O.Sink result out.old held.old.items out.new held.new.items
        (numbers (numbered state.now.regs ++ state_numbers state.now)) }
{
    append_numbers(&state.regs.x[1..], held, out)?;
    append_state(state, held, out)
}

// Appends progress, mode and pc, and the rest of a header.
fn append_progress<O: Sink>(
    header: &Header,
    held: &mut Buffer,
    out: &mut O,
) -> Result<(), SinkFault>
    ensures { Buffers O.Sink result out.old held.old.items out.new held.new.items
        (numbers (later_numbers header.now)) }
{
    append_numbers(&header.progress(), held, out)?;
    append_registers(&header.state, held, out)
}

// Appends whether there is the device page, and the rest of a header.
fn append_device<O: Sink>(header: &Header, held: &mut Buffer, out: &mut O) -> Result<(), SinkFault>
    ensures { Buffers O.Sink result out.old held.old.items out.new held.new.items
        (numbers (device_numbers Third header.now ++ later_numbers header.now)) }
{
    append_number(header.device_number(), held, out)?;
    append_progress(header, held, out)
}

// Appends what a version has of a header behind the sizes.
fn append_after_sizes<O: Sink>(
    version: Version,
    header: &Header,
    held: &mut Buffer,
    out: &mut O,
) -> Result<(), SinkFault>
    ensures { Buffers O.Sink result out.old held.old.items out.new held.new.items
        (numbers (device_numbers version header.now ++ later_numbers header.now)) }
{
    match version {
        Version::First => append_progress(header, held, out),
        Version::Second | Version::Third => append_device(header, held, out),
    }
}

// Appends the numbers of a header.
fn append_header<O: Sink>(
    version: Version,
    header: &Header,
    held: &mut Buffer,
    out: &mut O,
) -> Result<(), SinkFault>
    ensures { Buffers O.Sink result out.old held.old.items out.new held.new.items
        (numbers (header_numbers version header.now)) }
{
    append_numbers(&header.sizes(), held, out)?;
    append_after_sizes(version, header, held, out)
}

// Appends an input: its moment, and its byte.
fn append_input<O: Sink>(input: (u64, u8), held: &mut Buffer, out: &mut O) -> Result<(), SinkFault>
    ensures { Buffers O.Sink result out.old held.old.items out.new held.new.items (input_form input) }
{
    append_number(input.0, held, out)?;
    append(&[input.1], held, out)
}

// Appends inputs.
fn append_inputs<O: Sink>(
    inputs: &[(u64, u8)],
    held: &mut Buffer,
    out: &mut O,
) -> Result<(), SinkFault>
    ensures { Buffers O.Sink result out.old held.old.items out.new held.new.items
        (flat_map input_form inputs.now) }
{
    for i in 0..inputs.len() {
        append_input(inputs[i], held, out)?;
    }
    Ok(())
}

// Appends an entry: its page, its frame, and its flags.
fn append_entry<O: Sink>(entry: Entry, held: &mut Buffer, out: &mut O) -> Result<(), SinkFault>
    ensures { Buffers O.Sink result out.old held.old.items out.new held.new.items (entry_form entry) }
{
    append_numbers(&[entry.page, entry.frame, flags_of(entry)], held, out)
}

// Appends the entries of a space, oldest first.
fn append_entries<S: Snapshot, O: Sink>(
    snapshot: &S,
    space: u64,
    held: &mut Buffer,
    out: &mut O,
) -> Result<(), SinkFault>
    requires { space < length (S.machine snapshot.now).spaces }
    ensures { (d : Space) → Buffers O.Sink result out.old held.old.items out.new held.new.items
        (flat_map entry_form (slice_index_or (S.machine snapshot.now).spaces space d).entries) }
{
    for place in 0..snapshot.len(space) {
        append_entry(snapshot.entry(space, place), held, out)?;
    }
    Ok(())
}

// Appends how many entries a space has, and these.
fn append_counted<S: Snapshot, O: Sink>(
    snapshot: &S,
    space: u64,
    held: &mut Buffer,
    out: &mut O,
) -> Result<(), SinkFault>
    requires { space < length (S.machine snapshot.now).spaces }
    ensures { (d : Space) → Buffers O.Sink result out.old held.old.items out.new held.new.items
        (number_bytes (length (slice_index_or (S.machine snapshot.now).spaces space d).entries)
        ++ flat_map entry_form (slice_index_or (S.machine snapshot.now).spaces space d).entries) }
{
    append_number(snapshot.len(space), held, out)?;
    append_entries(snapshot, space, held, out)
}

// Appends a space: its key, and its entries.
fn append_space<S: Snapshot, O: Sink>(
    snapshot: &S,
    space: u64,
    held: &mut Buffer,
    out: &mut O,
) -> Result<(), SinkFault>
    requires { space < length (S.machine snapshot.now).spaces }
    ensures { (d : Space) → Buffers O.Sink result out.old held.old.items out.new held.new.items
        (space_form (slice_index_or (S.machine snapshot.now).spaces space d)) }
{
    append_number(snapshot.key(space).bits(), held, out)?;
    append_counted(snapshot, space, held, out)
}

// Appends all spaces, front first.
fn append_spaces<S: Snapshot, O: Sink>(
    snapshot: &S,
    held: &mut Buffer,
    out: &mut O,
) -> Result<(), SinkFault>
    ensures { Buffers O.Sink result out.old held.old.items out.new held.new.items
        (flat_map space_form (S.machine snapshot.now).spaces) }
{
    for space in 0..snapshot.held() {
        append_space(snapshot, space, held, out)?;
    }
    Ok(())
}

// Appends a first-stage translation: for whom it is, satp or vsatp, its page, its frame, and its flags.
fn append_first_entry<O: Sink>(
    entry: &FirstEntry,
    held: &mut Buffer,
    out: &mut O,
) -> Result<(), SinkFault>
    ensures { Buffers O.Sink result out.old held.old.items out.new held.new.items
        (first_entry_form entry.now) }
{
    append_numbers(&first_numbers(entry), held, out)
}

// Appends first-stage translations, oldest first.
fn append_first_entries<O: Sink>(
    entries: &[FirstEntry],
    held: &mut Buffer,
    out: &mut O,
) -> Result<(), SinkFault>
    ensures { Buffers O.Sink result out.old held.old.items out.new held.new.items
        (flat_map first_entry_form entries.now) }
{
    for i in 0..entries.len() {
        append_first_entry(&entries[i], held, out)?;
    }
    Ok(())
}

// Appends how many first-stage translations there are, and these.
fn append_counted_first<S: Snapshot, O: Sink>(
    snapshot: &S,
    held: &mut Buffer,
    out: &mut O,
) -> Result<(), SinkFault>
    ensures { Buffers O.Sink result out.old held.old.items out.new held.new.items
        (first_form Third (S.machine snapshot.now) []) }
{
    append_number(snapshot.first().len() as u64, held, out)?;
    append_first_entries(snapshot.first(), held, out)
}

// Appends what a version has of them.
#[tactic(auto, unfolding(crate::specs::Forms::first_form))]
fn append_first<S: Snapshot, O: Sink>(
    version: Version,
    snapshot: &S,
    held: &mut Buffer,
    out: &mut O,
) -> Result<(), SinkFault>
    ensures { Buffers O.Sink result out.old held.old.items out.new held.new.items
        (first_form version (S.machine snapshot.now) []) }
{
    match version {
        Version::First | Version::Second => Ok(()),
        Version::Third => append_counted_first(snapshot, held, out),
    }
}

// Appends all spaces, and what follows them.
fn append_spaces_on<S: Snapshot, O: Sink>(
    version: Version,
    snapshot: &S,
    held: &mut Buffer,
    out: &mut O,
) -> Result<(), SinkFault>
    ensures { Buffers O.Sink result out.old held.old.items out.new held.new.items
        (flat_map space_form (S.machine snapshot.now).spaces
        ++ first_form version (S.machine snapshot.now) []) }
{
    append_spaces(snapshot, held, out)?;
    append_first(version, snapshot, held, out)
}

// Appends how many spaces there are, these, and what follows them.
fn append_from_spaces<S: Snapshot, O: Sink>(
    version: Version,
    snapshot: &S,
    held: &mut Buffer,
    out: &mut O,
) -> Result<(), SinkFault>
    ensures { Buffers O.Sink result out.old held.old.items out.new held.new.items
        (spaces_form version (S.machine snapshot.now) []) }
{
    append_number(snapshot.held(), held, out)?;
    append_spaces_on(version, snapshot, held, out)
}

// Appends the unread inputs, and what follows them.
fn append_inputs_on<S: Snapshot, O: Sink>(
    version: Version,
    snapshot: &S,
    held: &mut Buffer,
    out: &mut O,
) -> Result<(), SinkFault>
    ensures { Buffers O.Sink result out.old held.old.items out.new held.new.items
        (flat_map input_form (S.machine snapshot.now).platform.console.inputs
        ++ spaces_form version (S.machine snapshot.now) []) }
{
    append_inputs(snapshot.inputs(), held, out)?;
    append_from_spaces(version, snapshot, held, out)
}

// Appends how many unread inputs there are, these, and what follows them.
fn append_from_inputs<S: Snapshot, O: Sink>(
    version: Version,
    snapshot: &S,
    held: &mut Buffer,
    out: &mut O,
) -> Result<(), SinkFault>
    ensures { Buffers O.Sink result out.old held.old.items out.new held.new.items
        (inputs_form version (S.machine snapshot.now) []) }
{
    append_number(snapshot.inputs().len() as u64, held, out)?;
    append_inputs_on(version, snapshot, held, out)
}

// Appends the bytes of the console, and what follows them.
fn append_console_on<S: Snapshot, O: Sink>(
    version: Version,
    snapshot: &S,
    held: &mut Buffer,
    out: &mut O,
) -> Result<(), SinkFault>
    ensures { Buffers O.Sink result out.old held.old.items out.new held.new.items
        ((S.machine snapshot.now).platform.console.bytes ++ inputs_form version (S.machine snapshot.now) []) }
{
    append_piece(snapshot.console(), held, out)?;
    append_from_inputs(version, snapshot, held, out)
}

// Appends how many console bytes there are, these, and what follows them.
fn append_from_console<S: Snapshot, O: Sink>(
    version: Version,
    snapshot: &S,
    held: &mut Buffer,
    out: &mut O,
) -> Result<(), SinkFault>
    ensures { Buffers O.Sink result out.old held.old.items out.new held.new.items
        (console_form version (S.machine snapshot.now) []) }
{
    append_number(snapshot.console().len() as u64, held, out)?;
    append_console_on(version, snapshot, held, out)
}

// Appends the header, and what follows it.
fn append_header_on<S: Snapshot, O: Sink>(
    version: Version,
    snapshot: &S,
    held: &mut Buffer,
    out: &mut O,
) -> Result<(), SinkFault>
    ensures { Buffers O.Sink result out.old held.old.items out.new held.new.items
        (numbers (header_numbers version (header_of (S.machine snapshot.now)))
        ++ console_form version (S.machine snapshot.now) []) }
{
    append_header(version, &snapshot.header(), held, out)?;
    append_from_console(version, snapshot, held, out)
}

// Appends all of a machine but its RAM.
fn append_front<S: Snapshot, O: Sink>(
    version: Version,
    snapshot: &S,
    held: &mut Buffer,
    out: &mut O,
) -> Result<(), SinkFault>
    ensures { Buffers O.Sink result out.old held.old.items out.new held.new.items
        (front_form version (S.machine snapshot.now)) }
{
    append(&version.letters(), held, out)?;
    append_header_on(version, snapshot, held, out)
}

// Appends RAM, block by block.
fn append_ram<S: Snapshot, O: Sink>(
    snapshot: &S,
    held: &mut Buffer,
    out: &mut O,
) -> Result<(), SinkFault>
    requires { length (S.machine snapshot.now).ram ≡ blocks_of (S.machine snapshot.now) * block_size }
    ensures { Buffers O.Sink result out.old held.old.items out.new held.new.items
        (S.machine snapshot.now).ram }
{
    for number in 0..snapshot.header().blocks {
        append_whole(snapshot.block(number), held, out)?;
    }
    Ok(())
}

// Puts all of a machine's form in this version but its RAM.
pub(crate) fn put_front<S: Snapshot, O: Sink>(
    version: Version,
    snapshot: &S,
    out: &mut O,
) -> Result<(), SinkFault>
    ensures { PutsText O.Sink result out.old out.new (front_form version (S.machine snapshot.now)) }
{
    let mut held = Buffer::new();
    append_front(version, snapshot, &mut held, out)?;
    flush(&mut held, out)
}

// Appends all of a machine.
fn append_machine<S: Snapshot, O: Sink>(
    snapshot: &S,
    held: &mut Buffer,
    out: &mut O,
) -> Result<(), SinkFault>
    requires { length (S.machine snapshot.now).ram ≡ blocks_of (S.machine snapshot.now) * block_size }
    ensures { Buffers O.Sink result out.old held.old.items out.new held.new.items
        (form (S.machine snapshot.now)) }
{
    append_front(Version::Third, snapshot, held, out)?;
    append_ram(snapshot, held, out)
}

/// Puts the form of a machine, whose RAM is of whole blocks: what stands before RAM in pieces of at most
/// 4,096 bytes and, where these are more, the console's bytes in one; and RAM block by block. It takes no
/// memory.
pub fn put<S: Snapshot, O: Sink>(snapshot: &S, out: &mut O) -> Result<(), SinkFault>
    requires { length (S.machine snapshot.now).ram ≡ blocks_of (S.machine snapshot.now) * block_size }
    ensures { PutsText O.Sink result out.old out.new (form (S.machine snapshot.now)) }
{
    let mut held = Buffer::new();
    append_machine(snapshot, &mut held, out)?;
    flush(&mut held, out)
}
