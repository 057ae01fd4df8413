// What a command names is read and tested, and then the sources of its guests are made.

ghost use Rattle.std.specs.Prelude.{◌≡◌, ◌*◌, ◌^◌, ◌<◌, ◌≤◌, [], ◌∷◌, Some, Ok, length, map, IfOk, OnOk};
ghost use Rattle.std.specs.List.{All};
ghost use Rattle.command_line.specs.Commands.{OnFiles};
ghost use Rattle.command_line.specs.Seen.{file_command_seen};
ghost use Rattle.frame_split.specs.Shares.{frames_of_all};
ghost use Rattle.guest_save.specs.Savable.{IsSavable};
ghost use Rattle.guest_settings.specs.Needs.{IsNeed};
ghost use Rattle.guest_turns.specs.Sources.{need_of_source, needs_of_sources};
ghost use Rattle.outside.specs.Faults.{Rose};
ghost use Rattle.run_config.specs.Accept.{accept};
ghost use Rattle.run_config.specs.declared.guests.Origin.TheVariants.{Fresh};
ghost use Rattle.run_config.specs.Configurations.{IsFreshWithin, IsGuestWithin, IsWithinLimits};
ghost use Rattle.nesthv_top.specs.Contents.{config_name, config_of, guest_ram_size, image_of, inputs_from, records_in, resumed_of, source_by, sources_of, stored_of};
ghost use Rattle.nesthv_top.specs.Endings.{IsFirstRead, SaysOfReads};
ghost use Rattle.nesthv_top.specs.Ends.{ended_of, HasRead, IfReadFailed};
ghost use Rattle.nesthv_top.specs.Loads.{frames_read, name_read, source_read, spec_read, AreGood, AreReadFor, HasPassed, IsAllRead, IsFitting, IsFreshFitting, IsLoaded, IsTested};
ghost use Rattle.nesthv_top.specs.Reads.{accepted_steps, config_steps, frames_fault, fresh_steps, absent_guest_fault, guest_steps, guests_steps, image_step, input_steps, report_steps, saved_steps};
ghost use Rattle.nesthv_top.specs.Seen.{HasGuest};

use crate::ends::{FilesRead, FreshFiles, GuestFiles, Job, LoadEnd, Loaded};
use crate::reads::Reads;
use arch_defs::{BLOCK_FRAMES, BLOCK_SIZE, MOST_FRAMES};
use command_line::FileRequest;
use guest_save::{SaveEnd, Saved};
use guest_settings::Need;
use guest_turns::Source;
use machine_defs::{Bytes, GuestSpec, Inputs, Name};
use no_memory::NoMemory;
use outside::Store;
use run_config::{
    Config, ConfigFault, FileName, FreshGuest, GuestSettings, InputEnd, InputSource, Origin,
    ReadEnd, bad_record, inputs,
};
use std::alloc::Global;

// At most how many bytes of a configuration are asked for: one more than it may have.
const CONFIG_MOST: u64 = 65_537;

// At most how many bytes of a file of inputs are asked for: one more than 65,536 records have.
const RECORDS_MOST: u64 = 589_825;

// At most how many bytes of a saved machine are asked for: one more than the longest form of one has.
const SAVED_MOST: u64 = 68_798_705;

// At most how many bytes of a stored report are asked for, which are those that it is compared by.
const REPORT_MOST: u64 = 33_554_432;

/// The job of a command: its guests, made of what the files say, and for a replay the stored report.
pub fn load<S: Store>(
    alloc: Global,
    request: FileRequest<'_>,
    reads: &mut Reads,
    store: &mut S,
) -> Result<Loaded, LoadEnd>
    requires none { reads.old.made ≡ 0 }
    ensures reads { SaysOfReads S.Store (Some (OnFiles (file_command_seen request.entry))) (ended_of result)
        store.old store.new }
    ensures cause { IfReadFailed result (Rose (S.faults store.old) (S.faults store.new)) }
    ensures passed { OnOk result
        (HasPassed S.Store (file_command_seen request.entry) reads.new.made store.old store.new) }
    ensures loaded { IfOk result (IsLoaded (S.files store.old) (file_command_seen request.entry)) }
{
    let config = read_config(alloc, request, reads, store)?;
    let FilesRead {
        guests,
        frames,
        stored,
    } = read_files(alloc, request, &config, reads, store)?;
    match sources_made(alloc, guests) {
        Ok(sources) => Ok(Loaded {
            job: Job {
                config,
                sources,
                frames,
            },
            stored,
        }),
        Err(NoMemory) => Err(reads.no_memory()),
    }
}

// Reads the other files that a command names, and makes all tests of them.
fn read_files<'a, S: Store>(
    alloc: Global,
    request: FileRequest<'_>,
    config: &'a Config,
    reads: &mut Reads,
    store: &mut S,
) -> Result<FilesRead<'a>, LoadEnd>
    requires early { reads.old.made ≤ 1 }
    requires limits { IsWithinLimits config.now }
    ensures read { HasRead S.Store (λ files.
        accepted_steps files (file_command_seen request.entry) (Ok config.now)) 33
        (λ files. IsAllRead files (file_command_seen request.entry) config.now) result
        store.old store.new reads.old.made reads.new.made }
    ensures tested { IfOk result (IsTested config.now) }
{
    let guests = read_guests(alloc, config.guests(), reads, store)?;
    let stored = read_stored(alloc, request, reads, store)?;
    let frames = all_frames(guests.as_slice(), config.spare());
    match frames_fault(frames) {
        Some(fault) => Err(LoadEnd::Refused(fault)),
        None => Ok(FilesRead {
            guests,
            frames,
            stored,
        }),
    }
}

// The configuration that is named.
fn config_name<'a>(request: FileRequest<'a>) -> &'a str
    ensures { result.now ≡ config_name (file_command_seen request.entry) }
{
    match request {
        FileRequest::Run { config }
        | FileRequest::Check { config }
        | FileRequest::Replay { config, .. }
        | FileRequest::Save { config, .. } => config,
    }
}

// Reads the configuration that is named.
fn read_config<S: Store>(
    alloc: Global,
    request: FileRequest<'_>,
    reads: &mut Reads,
    store: &mut S,
) -> Result<Config, LoadEnd>
    requires none { reads.old.made ≡ 0 }
    ensures read { HasRead S.Store (λ files. config_steps files (file_command_seen request.entry)) 1
        (λ files config. accept (config_of files (file_command_seen request.entry)) ≡ Ok config) result
        store.old store.new 0 reads.new.made }
    ensures first { IsFirstRead S.Store (Some (OnFiles (file_command_seen request.entry))) (ended_of result)
        store.old store.new }
    ensures some { OnOk result (1 ≤ reads.new.made) }
    ensures limits { IfOk result IsWithinLimits }
    ensures guest { IfOk result (HasGuest (file_command_seen request.entry)) }
{
    let bytes = reads.read(alloc, store, config_name(request), CONFIG_MOST)?;
    match run_config::read(alloc, bytes.as_slice()) {
        Ok(config) => match guest_fault(request, &config) {
            None => Ok(config),
            Some(fault) => Err(LoadEnd::Refused(fault)),
        },
        Err(ReadEnd::Refused(fault)) => Err(LoadEnd::Refused(fault)),
        Err(ReadEnd::NoMemory) => Err(reads.no_memory()),
    }
}

// The fault of a command that saves a guest which the configuration does not have.
fn guest_fault(request: FileRequest<'_>, config: &Config) -> Option<ConfigFault>
    ensures { result ≡ absent_guest_fault (file_command_seen request.entry) (Ok config.now) }
{
    match request {
        FileRequest::Save { guest, .. } if guest as usize >= config.guests().len() => {
            Some(ConfigFault::no_guest(guest))
        }
        _ => None,
    }
}

// Reads the files of guests, in their order, up to the first that fails its test.
fn read_guests<'a, S: Store>(
    alloc: Global,
    settings: &'a [GuestSettings],
    reads: &mut Reads,
    store: &mut S,
) -> Result<Vec<GuestFiles<'a>>, LoadEnd>
    requires some { 1 ≤ length settings.now }
    requires few { length settings.now ≤ 16 }
    requires early { reads.old.made ≤ 1 }
    requires each { All IsGuestWithin settings.now }
    ensures read { HasRead S.Store (λ files. guests_steps files 0 settings.now) 32
        (λ files guests. map source_read guests.items ≡ sources_of files settings.now) result
        store.old store.new reads.old.made reads.new.made }
    ensures fitting { IfOk result (λ guests. AreReadFor settings.now guests.items) }
{
    let Ok(mut guests) = Vec::with_capacity(alloc, settings.len()) else {
        return Err(reads.no_memory());
    };
    for i in 0..settings.len() {
        guests.push_reserved(read_guest(alloc, &settings[i], i as u32, reads, store)?);
    }
    Ok(guests)
}

// Reads the files of a guest of this number.
fn read_guest<'a, S: Store>(
    alloc: Global,
    settings: &'a GuestSettings,
    guest: u32,
    reads: &mut Reads,
    store: &mut S,
) -> Result<GuestFiles<'a>, LoadEnd>
    requires few { reads.old.made ≤ 32 }
    requires limits { IsGuestWithin settings.now }
    ensures read { HasRead S.Store (λ files. guest_steps files guest settings.now) 2
        (λ files read. source_read read ≡ source_by files settings.now.name settings.now.origin) result
        store.old store.new reads.old.made reads.new.made }
    ensures name { IfOk result (λ read. name_read read ≡ settings.now.name) }
    ensures fitting { IfOk result IsFitting }
{
    match &settings.origin {
        Origin::Fresh(fresh) => read_fresh(alloc, &settings.name, fresh, guest, reads, store),
        Origin::Saved(file) => {
            let saved = read_saved(alloc, file, guest, reads, store)?;
            Ok(GuestFiles::Saved(&settings.name, saved))
        }
    }
}

// Reads the files of a fresh guest of this name and number.
fn read_fresh<'a, S: Store>(
    alloc: Global,
    name: &'a Name,
    fresh: &'a FreshGuest,
    guest: u32,
    reads: &mut Reads,
    store: &mut S,
) -> Result<GuestFiles<'a>, LoadEnd>
    requires few { reads.old.made ≤ 32 }
    requires limits { IsFreshWithin fresh.now }
    ensures read { HasRead S.Store (λ files. fresh_steps files guest fresh.now) 2
        (λ files read. source_read read ≡ source_by files name.now (Fresh fresh.now)) result
        store.old store.new reads.old.made reads.new.made }
    ensures name { IfOk result (λ read. name_read read ≡ name.now) }
    ensures fitting { IfOk result IsFitting }
{
    let image = read_image(alloc, fresh, guest, reads, store)?;
    let records = read_records(alloc, &fresh.input, guest, reads, store)?;
    Ok(GuestFiles::Fresh(FreshFiles {
        name,
        guest: fresh,
        image,
        records,
    }))
}

// Reads the image of a fresh guest of this number.
fn read_image<S: Store>(
    alloc: Global,
    fresh: &FreshGuest,
    guest: u32,
    reads: &mut Reads,
    store: &mut S,
) -> Result<Bytes, LoadEnd>
    requires few { reads.old.made ≤ 32 }
    requires limits { IsFreshWithin fresh.now }
    ensures read { HasRead S.Store (λ files. image_step files guest fresh.now ∷ []) 1
        (λ files image. image ≡ image_of files fresh.now) result
        store.old store.new reads.old.made reads.new.made }
    ensures fits { IfOk result (λ image. length image ≤ guest_ram_size fresh.now) }
{
    let size = fresh.blocks * BLOCK_SIZE;
    let bytes = reads.read(alloc, store, fresh.image.as_str(), size + 1)?;
    if bytes.len() as u64 <= size {
        Ok(Bytes::from_vec(bytes))
    } else {
        Err(LoadEnd::Refused(ConfigFault::image_long(guest, bytes.len() as u64)))
    }
}

// Reads the saved machine of a resumed guest of this number.
fn read_saved<S: Store>(
    alloc: Global,
    name: &FileName,
    guest: u32,
    reads: &mut Reads,
    store: &mut S,
) -> Result<Saved, LoadEnd>
    requires few { reads.old.made ≤ 32 }
    ensures read { HasRead S.Store (λ files. saved_steps files guest name.now) 1
        (λ files saved. saved ≡ resumed_of files name.now) result
        store.old store.new reads.old.made reads.new.made }
    ensures savable { IfOk result (λ saved. IsSavable saved.machine) }
{
    let bytes = reads.read(alloc, store, name.as_str(), SAVED_MOST)?;
    match guest_save::read(alloc, bytes.as_slice()) {
        Ok(saved) => Ok(saved),
        Err(SaveEnd::Bad) => Err(LoadEnd::Refused(ConfigFault::saved(guest))),
        Err(SaveEnd::NoMemory) => Err(reads.no_memory()),
    }
}

// Reads the file that the inputs of a guest of this number come from, if they come from one.
fn read_records<S: Store>(
    alloc: Global,
    input: &InputSource,
    guest: u32,
    reads: &mut Reads,
    store: &mut S,
) -> Result<Bytes, LoadEnd>
    requires few { reads.old.made ≤ 33 }
    ensures read { HasRead S.Store (λ files. input_steps files guest input.now) 1
        (λ files records. records ≡ records_in files input.now) result
        store.old store.new reads.old.made reads.new.made }
    ensures good { IfOk result (AreGood input.now) }
{
    let InputSource::File(name) = input else {
        return Ok(Bytes::from_vec(Vec::new(alloc)));
    };
    let bytes = reads.read(alloc, store, name.as_str(), RECORDS_MOST)?;
    match bad_record(bytes.as_slice()) {
        None => Ok(Bytes::from_vec(bytes)),
        Some(number) => Err(LoadEnd::Refused(ConfigFault::input_file(guest, number))),
    }
}

// Reads the stored report, if one is named.
fn read_stored<S: Store>(
    alloc: Global,
    request: FileRequest<'_>,
    reads: &mut Reads,
    store: &mut S,
) -> Result<Vec<u8>, LoadEnd>
    requires few { reads.old.made ≤ 33 }
    ensures read { HasRead S.Store (λ files. report_steps (file_command_seen request.entry)) 1
        (λ files stored. stored.items ≡ stored_of files (file_command_seen request.entry)) result
        store.old store.new reads.old.made reads.new.made }
{
    match request {
        FileRequest::Run { .. } | FileRequest::Check { .. } | FileRequest::Save { .. } => {
            Ok(Vec::new(alloc))
        }
        FileRequest::Replay { report, .. } => reads.read(alloc, store, report, REPORT_MOST),
    }
}

// The fault of guests that need more frames than machine memory has.
fn frames_fault(frames: u64) -> Option<ConfigFault>
    requires { frames ≤ 2 ^ 21 }
    ensures { result ≡ frames_fault frames }
{
    if frames <= MOST_FRAMES {
        None
    } else {
        Some(ConfigFault::frames(frames))
    }
}

// The frames of machine memory that guests and that many spare blocks need.
fn all_frames(guests: &[GuestFiles<'_>], spare: u64) -> u64
    requires few { length guests.now ≤ 16 }
    requires fitting { All IsFitting guests.now }
    requires spare { spare ≤ 32 }
    ensures frames { result ≡ frames_read guests.now spare }
    ensures most { result ≤ 2 ^ 21 }
{
    frames_for(guests) + BLOCK_FRAMES * spare
}

// The frames of machine memory that guests need.
fn frames_for(guests: &[GuestFiles<'_>]) -> u64
    requires few { length guests.now ≤ 16 }
    requires fitting { All IsFitting guests.now }
    ensures frames { result ≡ frames_of_all (needs_of_sources (map source_read guests.now)) }
    ensures most { result ≤ 2 ^ 20 }
{
    let mut sum = 0;
    for files in guests {
        sum += need(files).frames();
    }
    sum
}

// What a guest needs of machine memory, with what was read for it.
fn need(files: &GuestFiles<'_>) -> Need
    requires { IsFitting files.now }
    ensures few { IsNeed result }
    ensures need { result ≡ need_of_source (source_read files.now) }
{
    match files {
        GuestFiles::Fresh(read) => Need {
            blocks: read.guest.blocks,
            spaces: read.guest.spaces,
            entries: read.guest.entries,
        },
        GuestFiles::Saved(_, saved) => {
            saved.can_be_saved();
            saved.need()
        }
    }
}

// Where guests come from, with what was read for each.
fn sources_made(alloc: Global, guests: Vec<GuestFiles<'_>>) -> Result<Vec<Source>, NoMemory>
    requires fitting { All IsFitting guests.items }
    ensures { IfOk result (λ sources. sources.items ≡ map source_read guests.entry.items) }
{
    let mut sources = Vec::with_capacity(alloc, guests.len())?;
    for files in guests {
        sources.push(source_made(alloc, files)?)?;
    }
    Ok(sources)
}

// Where a guest comes from, with what was read for it.
fn source_made(alloc: Global, files: GuestFiles<'_>) -> Result<Source, NoMemory>
    requires { IsFitting files }
    ensures { IfOk result (λ source. source ≡ source_read files.entry) }
{
    match files {
        GuestFiles::Fresh(read) => Ok(Source::Fresh(fresh_made(alloc, read)?)),
        GuestFiles::Saved(name, saved) => Ok(Source::Kept(copied(alloc, name)?, saved)),
    }
}

// A fresh guest, with what was read for it.
fn fresh_made(alloc: Global, read: FreshFiles<'_>) -> Result<GuestSpec, NoMemory>
    requires { IsFreshFitting read }
    ensures { IfOk result (λ spec. spec ≡ spec_read read.entry) }
{
    let name = copied(alloc, read.name)?;
    let inputs = inputs_made(alloc, &read.guest.input, read.records.as_slice())?;
    Ok(GuestSpec {
        name,
        image: read.image,
        blocks: read.guest.blocks,
        spaces: read.guest.spaces,
        entries: read.guest.entries,
        console: read.guest.console,
        inputs: Inputs::from_vec(inputs),
        device: read.guest.device,
    })
}

// A name once more.
fn copied(alloc: Global, name: &Name) -> Result<Name, NoMemory>
    ensures { IfOk result (λ copy. copy ≡ name.now) }
{
    Ok(Name::from_vec(Vec::from_slice(alloc, name.as_slice())?))
}

// The inputs that come from here, where these are the bytes of the file.
fn inputs_made(
    alloc: Global,
    input: &InputSource,
    records: &[u8],
) -> Result<Vec<(u64, u8)>, NoMemory>
    requires good { AreGood input.now records.now }
    ensures { IfOk result (λ inputs. inputs.items ≡ inputs_from input.now records.now) }
{
    match input {
        InputSource::Pairs(pairs) => Ok(Vec::from_slice(alloc, pairs.as_slice())?),
        InputSource::File(_) => match inputs(alloc, records) {
            Ok(inputs) => Ok(inputs),
            Err(InputEnd::NoMemory) => Err(NoMemory),
            Err(InputEnd::Bad(_)) => unreachable!(),
        },
    }
}
