// How the steps of a command end.

ghost use Rattle.std.specs.Prelude.{◌≡◌};
ghost use Rattle.nesthv_top.specs.Ends.{ended_by};
ghost use Rattle.nesthv_top.specs.declared.ends.RunEnd.TheVariants as run_end;

use guest_save::Saved;
use guest_turns::Source;
use machine_defs::{Bytes, Name};
use no_memory::NoMemory;
use outside::SinkFault;
use run_config::{Config, ConfigFault, FreshGuest};

/// Why a configuration gave no job. Reads are numbered from 1; out of memory tells how many were made.
#[derive(Clone, Copy)]
pub enum LoadEnd {
    Refused(ConfigFault),
    ReadFault(u64),
    NoMemory(u64),
}

/// What was read for a fresh guest: its image, and the file that its inputs come from, which is nothing where
/// they come from none. With it stand its name and what the configuration says of it.
#[derive(Drop)]
pub struct FreshFiles<'a> {
    pub name: &'a Name,
    pub guest: &'a FreshGuest,
    pub image: Bytes,
    pub records: Bytes,
}

/// What was read for a guest: the files of a fresh one, or a saved machine, with its name.
#[derive(Drop)]
pub enum GuestFiles<'a> {
    Fresh(FreshFiles<'a>),
    Saved(&'a Name, Saved),
}

/// All that was read for a command beside its configuration: what was read for each guest, the frames that
/// all need, and the stored report that it names, which is nothing where it names none.
#[derive(Drop)]
pub struct FilesRead<'a> {
    pub guests: Vec<GuestFiles<'a>>,
    pub frames: u64,
    pub stored: Vec<u8>,
}

/// Guests that are to be run: where they come from, their turns, and how many spare blocks there are.
#[derive(Drop)]
pub struct RunPlan<'a> {
    pub sources: Vec<Source>,
    pub turns: &'a [(u32, u64)],
    pub spare: u64,
}

/// Where the guests come from that are to be run, with the configuration that says their names and their
/// turns, and the frames that they and the spare blocks need.
#[derive(Drop)]
pub struct Job {
    pub config: Config,
    pub sources: Vec<Source>,
    pub frames: u64,
}

/// What a command needs: its job, and what was read of the stored report that it names, which is nothing
/// where it names none.
#[derive(Drop)]
pub struct Loaded {
    pub job: Job,
    pub stored: Vec<u8>,
}

/// Why a job was not done.
#[derive(Clone, Copy)]
pub enum RunEnd {
    NoMemory,
    WriteFault,
}

impl From<NoMemory> for RunEnd {
    ghost from_gives = { λ _ end. end ≡ run_end.NoMemory };

    fn from(_: NoMemory) -> RunEnd {
        RunEnd::NoMemory
    }
}

impl From<SinkFault> for RunEnd {
    ghost from_gives = { λ _ end. end ≡ run_end.WriteFault };

    fn from(_: SinkFault) -> RunEnd {
        RunEnd::WriteFault
    }
}

/// How a command ended. `Differs` is the end of a replay that found a difference, and wrote so.
#[derive(Clone, Copy)]
pub enum Ended {
    Done,
    Differs,
    NoCommand,
    Refused(ConfigFault),
    ReadFault(u64),
    WriteFault,
    NoMemory(u64),
}

impl From<LoadEnd> for Ended {
    ghost from_gives = { λ end ended. ended ≡ ended_by end };

    fn from(end: LoadEnd) -> Ended {
        match end {
            LoadEnd::Refused(fault) => Ended::Refused(fault),
            LoadEnd::ReadFault(number) => Ended::ReadFault(number),
            LoadEnd::NoMemory(reads) => Ended::NoMemory(reads),
        }
    }
}
